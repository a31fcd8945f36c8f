// How long the house lines of the listing program are (01, "Examples on each side"): the fields of a term, the line of
// a row, the whole text with its head. Each from numbers alone, so that a table and a file's text are measured alike.
// specs/Lengths.antt says what is counted. Assumes nothing.
#![tactic(auto)]

mod lines;
mod terms;

pub use lines::{line_length, text_length};
pub use terms::term_length;
