//! The clip rectangles of a layer: its bounds, cut into visible and hidden rectangles (the manual's Layers Library
//! chapter: the `ClipRect` structure).
#![tactic(auto)]

mod laws;
mod parts;

pub use laws::one_cover_law;
pub use parts::Parts;
