// Bytes become rows: the Rust's `parse_opb_data`, over flat lent columns. Two walks over the file's statements, one to
// check and count (crates/counts), one to fill. Every file and every table gets an answer; a refused call changes
// nothing. specs/Reads.antt says what the public entry promises. Assumes nothing.
#![tactic(auto)]

mod file;
mod fill;

pub use file::parse_opb_data;
