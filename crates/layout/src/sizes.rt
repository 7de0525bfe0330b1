// The sizes of what stands in a file, in bytes.

// The header of a file.
pub const HEADER_SIZE: usize = 24;

// The head of a table: its first word, and its count of buckets.
pub const HEAD_SIZE: usize = 8;

// The word of a bucket.
pub const BUCKET_SIZE: usize = 4;

// A word of the filter.
pub const FILTER_SIZE: usize = 4;

// The record of an item.
pub const RECORD_SIZE: usize = 24;

// What a table has of each item when it is laid: a bucket, and the item's record.
pub const CHUNK_STEP: usize = BUCKET_SIZE + RECORD_SIZE;
