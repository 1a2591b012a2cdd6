//! The desk of a program: one caller, no task beside it and no lock. It holds what it was opened with and the parts of the desk,
//! and each call on it is the machine's step.
#![tactic(auto)]

mod held;
mod limits;
mod noting;
mod program_desk;
mod reading;
mod tiles;

pub use limits::may_open;
pub use program_desk::ProgramDesk;
pub use tiles::Tiles;
