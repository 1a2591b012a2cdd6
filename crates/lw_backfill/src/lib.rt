//! Backfill hooks: what fills a layer where it gains pixels (the manual's Layers Library chapter; that a hook is tiles of 8 by
//! 8 pens in layer coordinates, and that it turns to its next tile, are this project's own).
#![tactic(auto)]

mod backfill;
mod boxed;
mod checker;
mod cycle;
mod rows;
mod shelf;
mod solid;
mod tile;

pub use backfill::Backfill;
pub use checker::Checker;
pub use cycle::Cycle;
pub use rows::row_of;
pub use shelf::Shelf;
pub use solid::Solid;
pub use tile::tile_place;
