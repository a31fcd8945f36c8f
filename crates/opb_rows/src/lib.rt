// The library for C, rows: one row of a table under an assignment (01, "Normalising and evaluating"), of which some
// variables may be unknown (02, A1), by C's calling convention over slices (a pointer and a length) and numbers, with
// an answer by value. No call asks anything of what it is lent but that it is there, and nothing that is lent is
// changed. specs/Calls.antt says what each promises. Assumes nothing.
#![tactic(auto)]

mod evaluating;
mod judging;

pub use evaluating::{OpbValue, opb_evaluate, opb_evaluate_known};
pub use judging::opb_judge;
