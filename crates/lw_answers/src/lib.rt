//! For tests: what the program answers to a command and a script, over streams in memory.
#![tactic(auto)]

mod answers;

pub use answers::{answer_through, answer_to, answer_with_six, sink_of, source_of, word};
