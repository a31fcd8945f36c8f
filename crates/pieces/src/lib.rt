// The pieces of a sum, each a step on the rest of the file (01, "The text"): a term, and the next term. specs/Said.antt
// says what each answer is in 01's numbers and values. Assumes nothing.
#![tactic(auto)]

mod term;

pub use term::{Term, next_term, read_term};
