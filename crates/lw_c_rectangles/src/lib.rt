//! Rectangles as C hands them in and reads them: a struct of four numbers, and arrays of it. The libraries for C stand on it.
#![tactic(auto)]

mod bounds;
mod writing;

pub use bounds::{Bounds, bounds_of, is_ordered, rect_of};
pub use writing::write_out;
