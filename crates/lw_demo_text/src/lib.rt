//! The canonical text of a demo's plan, which reads back as that plan: a law, on a function that does nothing.
#![tactic(auto)]

mod laws;

pub use laws::demo_texts_read_back;
