//! An area is one drawing: laws that say what its fills, made one after another, leave of a layer. Each function does nothing,
//! and its contract is the law.
#![tactic(auto)]

mod laws;

pub use laws::{area_lines_are_one_drawing, areas_are_one_drawing, fills_are_one_drawing};
