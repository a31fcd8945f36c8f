// The relational operators (01, "The text"): one read at the front of a text, and what it makes of a row's kind and
// bound. specs/Said.antt says what each answer is in 01's numbers and values. Assumes nothing.
#![tactic(auto)]

mod bound;
mod operator;

pub use bound::{bound_of, kind_of};
pub use operator::read_operator;
