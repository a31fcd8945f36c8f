// One statement of a file (01, "The text"): a comment, an objective or a constraint, checked, counted, and its terms
// put into lent columns. Both walks over a file are one chain of functions, which the first lends no columns:
// `walk_statement`, behind `opb_data`, which is lent none. Assumes nothing.
#![tactic(auto)]

mod row;
mod statement;

pub use row::Line;
pub use statement::{opb_data, walk_statement};
