// The limits of document 01, and of document 02 for the filter words.

// The bytes of a file.
pub const LONGEST_FILE: usize = 16_777_216;

// The bytes of a key that is inserted.
pub const LONGEST_KEY: usize = 1024;

// The items of all tables of a builder.
pub const MOST_ITEMS: usize = 1024;

// The tables of a builder.
pub const MOST_TABLES: usize = 64;

// The height of a table that holds others.
pub const DEEPEST: usize = 8;

// The filter words of a table that is laid.
pub const MOST_FILTER: usize = 1024;
