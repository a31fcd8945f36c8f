// The first of two walks over the rows of a table that are to be listed (01, "Examples on each side"): it checks all
// rows, and counts their terms and the length of their house lines, before a byte is put. specs/Sizes.antt says what is
// counted. Assumes nothing.
#![tactic(auto)]

mod rows;
mod terms;

pub use rows::{Size, measure_rows};
