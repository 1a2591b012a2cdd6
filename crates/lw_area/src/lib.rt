//! Filled polygons with area patterns, as lists of rectangles (the manual's Graphics Primitives chapter: AreaMove, AreaDraw and
//! AreaEnd; which pixels are inside, and where a pattern begins, are this project's own rules).
//!
//! An edge is left of a pixel from a column on that a division gives. So the pixels of a row are where an odd number of half
//! rows overlap: each half row begins at a column, and two that begin at one column cancel out (`columns`). What the pattern
//! leaves of a row's runs (`runs`) is put above the bands of the rows below (`stripes`), so that the list is the canonical one.
//! Between two rows in which points lie the same edges cross each row, so the edges are looked at once there (`slab`).
#![tactic(auto)]

mod columns;
mod laws;
mod pattern;
mod point;
mod runs;
mod slab;
mod spans;
mod stripes;

pub use laws::area_has_its_pixels;
pub use pattern::Pattern;
pub use point::{Point, Polygon};
pub use spans::{Spans, spans_of};
