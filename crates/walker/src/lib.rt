// A file walked one statement per call (01, "What must change shape"): a step at an offset, and the offset after it.
// Every file and every offset gets an answer. specs/Said.antt says what each answer is in 01's numbers and values; that
// the answers are those of reading the file at once is a theorem over the definitions (SameAnswers). Assumes nothing.
#![tactic(auto)]

mod steps;

pub use steps::{Step, offset_after, step_at};
