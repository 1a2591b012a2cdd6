//! Reads a script into the plan that it spells, the numbers of its order and the place of its report, or finds its first bad
//! line. `lw_grammar` has the grammar as definitions: `specs/Script.antt` says what bytes spell, and `Told.antt` what lines tell.
//! The order of a report is read by `lw_report_order`.
#![tactic(auto)]

mod finish;
mod input;
mod reading;
mod script;
mod taking;

pub use input::{Input, ScriptStop};
pub use lw_report_order::{OrderStop, first_difference, read_order};
pub use script::read;
