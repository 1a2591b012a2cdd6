//! Rectangles and regions of pixels (the manual's Graphics Primitives and Layers Library chapters).
//!
//! A region is kept as y-x bands, which the head of `region` explains with a picture. Every operation is one sweep over
//! the bands of both operands (`sweep`), and where both have a band, one merge of the runs of the two, rectangle by
//! rectangle (`row`); what is made is joined to the band above where it goes on (`band`). No set of pixels is ever
//! written out.
#![tactic(auto)]

mod band;
mod finding;
mod laws;
mod operation;
mod rect;
mod region;
mod row;
mod sweep;

pub use laws::{
    banded_law, bands_law, combined_lists_law, disjoint_law, empty_list_law, moved_list_law,
    one_list_law, one_set_law, set_of_list_law, set_operations_law, worked_example_law,
};
pub use rect::Rect;
pub use region::{
    Region, and_region, clear_region, difference, intersection, moved_region, or_region, xor_region,
};
