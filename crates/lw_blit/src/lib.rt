//! Blits into a layer (the manual's Graphics Primitives chapter: BltBitMapRastPort, ClipBlit) and shifts of rows within a layer,
//! block by block and plane by plane. Within a layer, what isn't a move of a whole block goes in bands and pieces, of which most
//! are such moves; the others go row by row.
#![tactic(auto)]

mod bands;
mod between_layers;
mod bitmaps;
mod lacking;
mod moving;
mod painting;
mod pieces;
mod places;
mod single_rows;
mod sources;
mod transfers;
mod within_layer;

pub use between_layers::between;
pub use bitmaps::from_bitmap;
pub use within_layer::{shift_rows, within};
