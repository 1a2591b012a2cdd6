//! The step of each class of calls as a trait, `Engine`: what locks ask of the parts that lie behind them. The trait speaks of
//! the machine's desks alone, and says nothing of threads.
#![tactic(auto)]

mod engine;

pub use engine::Engine;
