//! Worked cases of the grammar, as theorems over its definitions alone: each function says that the definitions give this
//! answer for this script, or this text for this plan. The check computes it.
#![tactic(auto)]

pub mod area_reports;
pub mod area_scripts;
pub mod canonical;
pub mod gzz_reports;
pub mod gzz_scripts;
pub mod lines_below;
pub mod refused;
pub mod scripts;
pub mod spelled;
pub mod version_lines;
