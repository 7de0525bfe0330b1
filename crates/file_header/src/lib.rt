// The header of a file: its signature with the byte order of the values, version, options, and the root pointer.
#![tactic(auto)]

pub mod header;
