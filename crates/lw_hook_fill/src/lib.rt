//! What backfill hooks do to layers: a region of a layer is filled with a hook's pens (the manual's Layers Library chapter; that
//! a hook is tiles of 8 by 8 pens in layer coordinates is this project's own).
#![tactic(auto)]

mod filling;
mod painting;
mod rectangles;
mod tiles;

pub use filling::fill;
