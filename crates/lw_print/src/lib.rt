//! The canonical text of a plan: the script that spells it, with each line in its one spelling; and the lines of a bitmap alone.
//!
//! `lw_canonical` has the text as a definition, in `specs/Canonical.antt`.
#![tactic(auto)]

mod bitmaps;
mod calls;
mod glyphs;
mod groups;
mod lines;
mod making;
mod pairs;
mod tasks;
mod verbs;
mod whole;
mod words;

pub use bitmaps::print_bitmap;
pub use whole::print;
