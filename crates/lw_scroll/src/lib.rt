//! Scrolling a rectangle of a layer within the layer (the manual's Graphics Primitives chapter: ScrollRaster). The damage moves
//! with the pens.
#![tactic(auto)]

mod block;
mod damage;
mod scrolling;

pub use scrolling::scroll_raster;
