//! The machine's run of a plan on layers: in an order that is given, with no lock; and of tasks on threads, in the order that
//! their tickets give.
#![tactic(auto)]

mod run;
mod running;

pub use run::replay;
pub use running::{Run, run_tasks};
