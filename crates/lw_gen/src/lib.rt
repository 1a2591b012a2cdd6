//! The plan of a demo: some tasks, each with three layers in columns of its own, and 500 calls each that are drawn by a number.
//!
//! `specs/` says the generator and the plan; the code makes that plan.
#![tactic(auto)]

mod generator;
mod laws;
mod plan;

pub use laws::{demos_are_plans, demos_draw_these_calls};
pub use plan::plan_of;
