//! Worked cases of the machine, as theorems over its definitions alone: each function says that the definitions give
//! this report for this plan, or this answer for this order. The check computes it.
#![tactic(auto)]

pub mod arranging;
pub mod blit_sources;
pub mod call_limits;
pub mod copying;
pub mod directions;
pub mod drawing;
pub mod fitting;
pub mod frame_painting;
pub mod frames;
pub mod grouping;
pub mod histories;
pub mod hooks;
pub mod modes;
pub mod new_layers;
pub mod not_open;
pub mod orders;
pub mod own_damage;
pub mod owners;
pub mod placing;
pub mod plan_limits;
pub mod reading;
pub mod refusals;
pub mod register_pairs;
pub mod registers;
pub mod scroll_sources;
pub mod scrolling;
pub mod sharing;
pub mod slots_and_tasks;
pub mod stacking;
pub mod strokes;
pub mod super_bitmaps;
pub mod telling;
pub mod touching;
pub mod updates;
pub mod versions;
pub mod windows;
