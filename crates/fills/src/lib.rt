// The terms of one statement into two lent columns, for callers that hold no table: of the statement at the front of a
// text, or at an offset of a file. Filled where they fit; on a refusal both columns are as they were. Assumes nothing.
#![tactic(auto)]

mod steps;
mod terms;

pub use steps::fill_at;
pub use terms::fill_terms;
