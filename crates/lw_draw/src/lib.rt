//! Drawing into a live layer, band by band, block by block and plane by plane (the manual's Graphics Primitives chapter). It
//! stands on the layer's public calls and knows no more of how a layer keeps its bits than the buffers and lines that it lends.
#![tactic(auto)]

mod blocks;
mod combining;
mod filler;
mod filling;
mod lines;
mod moving;
mod overlay;
mod painter;
mod painting;
mod pixels;
mod quotients;
mod rast;
mod row_spans;
mod spans;
mod stretch;
mod walks;
mod whole;

pub use blocks::{Block, band_at};
pub use combining::{combine_block, combine_over};
pub use filler::has_bit;
pub use filling::{fill, fill_rows};
pub use lines::line;
pub use moving::move_block;
pub use overlay::Overlay;
pub use painter::Painter;
pub use painting::paint_rows;
pub use pixels::{read_pixel, write_pixel};
pub use rast::set_rast;
pub use spans::{Places, edge, span};
pub use stretch::{Stretch, next_kept_stretch, next_stretch};
pub use whole::{whole_block, whole_kept_block};
