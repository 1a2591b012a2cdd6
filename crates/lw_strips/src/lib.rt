//! Strips: rectangles of the screen with their pens, as which the shown pixels of all layers and of the desktop are kept (the
//! manual's Layers Library chapter shows clip rectangles; the form is this project's own).
#![tactic(auto)]

mod block;
mod laws;
mod laying;
mod overlap;
mod piece;
mod pool;
mod strip;

pub use block::{Block, clear_block, copy_block};
pub use laws::{counting_law, exchange_law, laying_law, places_law, worked_example_law};
pub use laying::{assemble, compose, lay_all, lay_planes, part, screen_of};
pub use overlap::lay_bitmap;
pub use piece::Piece;
pub use pool::Pool;
pub use strip::Strip;
