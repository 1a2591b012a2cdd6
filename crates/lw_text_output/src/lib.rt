//! Text that is written at the end of a vector of bytes: lines, words, numbers, names and the rows of planes.
//! `lw_calls` has the words of it as definitions, in `specs/Written.antt`.
#![tactic(auto)]

mod bounds;
mod lines;
mod row;

pub use bounds::{push_bounds, push_spaced_bounds};
pub use lines::{
    end_line, name_of, push_decimal, push_hex_byte, push_line, push_numbered_line, push_signed,
    push_spaced, push_spaced_signed, push_word,
};
pub use row::{leftmost_bits, push_rows};
