// How a row is printed (01, "The lines written"): what its kind says, and its bound; each of its terms, and the sums of
// their weights, are crates/shown's. The walk that measures and the walk that writes both go by it. Assumes nothing.
#![tactic(auto)]

mod bounds;
mod kinds;

pub use bounds::printed_bound;
pub use kinds::{Shape, sort_of, style_of};
