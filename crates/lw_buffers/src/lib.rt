//! Pixels read out of a list of rectangles with a bitmap each, as a layer keeps its pixels in clip rectangles (the
//! manual's Layers Library chapter; the form is this project's own).
#![tactic(auto)]

mod copying;
mod laying;
mod shared;

pub use copying::{copy_row, copy_strips};
pub use laying::{lay_buffers, lay_strips};
