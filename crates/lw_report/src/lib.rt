//! The report of a run, from what the run leaves (docs/FORMATS.md has it with an example).
//!
//! `lw_machine/specs/Report.antt` has the text as a function of a plan, an order and what is left.
#![tactic(auto)]

mod layers;
mod order;
mod planes;
mod rects;
mod replies;
mod report;

pub use order::byte_after;
pub use planes::push_planes;
pub use report::write;
