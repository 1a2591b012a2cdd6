//! Bitmaps kept as bit planes (the manual's Graphics Primitives chapter).
#![tactic(auto)]

mod bits;
mod laws;
mod planes;
mod spare;

pub use laws::{
    bitmap_is_its_pens, pen_has_its_bits, plane_row_has_its_bits, row_write_changes_its_row,
    table_has_its_values,
};
pub use planes::Planes;
pub use spare::Spare;
