//! Regions and rows of bits for a program in C: arrays in and out, and no state. Each call tests what it is handed, and answers
//! with a number where that doesn't fit; `include/layers.h` declares them.
//!
//! A region is an array of rectangles. An operand may be any, in any order, overlapping or not; a result is the canonical list of
//! its pixels. A row is an array of bytes, whose bits are counted from the left.
#![tactic(auto)]

mod answers;
mod blocks;
mod bounds;
mod lists;
mod operation;
mod regions;
mod rows;
mod tests_of_rows;

pub use blocks::{Place, lw_block_blit, lw_block_blit_within, lw_block_fill, lw_block_invert};
pub use regions::{
    lw_region_bounds, lw_region_difference, lw_region_has, lw_region_intersection,
    lw_region_symmetric_difference, lw_region_union,
};
pub use rows::{lw_row_blit, lw_row_blit_within, lw_row_fill, lw_row_invert};
