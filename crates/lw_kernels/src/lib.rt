//! Kernels on the rows of a bit plane: filling, inverting and blitting their bits (the manual's Graphics
//! Primitives chapter). They count the bits of a row from its left: bit 0 is the most significant bit
//! of its first byte. Rows are so many bytes each, one after another.
#![tactic(auto)]

mod bytes;
mod columns;
mod combining;
mod copying;
mod filling;
mod flipping;
mod moving;
mod pairs;
mod spans;
mod ways;
mod wide;
mod within;
mod words;

pub use combining::{COPY_MINTERM, combine, combine_rows};
pub use filling::{fill, fill_rows};
pub use flipping::{flip, flip_rows};
pub use within::{Corner, combine_rows_within, combine_within};
