// What stands behind a sum: the ending, and the comparison, which is an operator, a number and an ending (01, "The
// text"). specs/Said.antt says what each answer is in 01's numbers and values. Assumes nothing.
#![tactic(auto)]

mod closing;

pub use closing::{Comparison, read_comparison, read_ending};
