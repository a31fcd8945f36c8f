// What is met next in a block of value lines, with what a token of it says (02, A1). Assumes nothing.
#![tactic(auto)]

mod next;
mod token;

pub use next::{Said, next_token};
