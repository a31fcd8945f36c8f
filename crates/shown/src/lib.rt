// A term as it is printed, and the sums of a row's weights (01, "The lines written"). Assumes nothing.
#![tactic(auto)]

mod sums;
mod terms;

pub use sums::{Sums, with_weight};
pub use terms::{Shown, Style, show_term};
