//! The desk of one caller for a program in C, behind a handle. C keeps the handle's bytes and hands them in with each call;
//! `include/layers.h` declares the calls, and says in its first comment what C owes.
//!
//! A handle that has no desk is all zeros. `lw_desk_open` and `lw_desk_open_with` give it one, `lw_desk_call` makes any call of
//! the machine on it, readers tell what the machine's desk shows and where the screen changed, and `lw_desk_close` frees all that
//! it has. What a call means and how a reply is told stands in `lw_c_calls`.
#![tactic(auto)]

mod answers;
mod calling;
mod changed;
mod columns;
mod handed;
mod handle;
mod held;
mod laws;
mod opening;
mod pens;
mod reading;
mod writing;

pub use calling::lw_desk_call;
pub use changed::lw_desk_changed;
pub use handed::{BitmapWords, HookWords};
pub use handle::{Handle, lw_desk_close};
pub use held::Held;
pub use laws::{handles_stand_for_the_machine, readings_tell_what_changed};
pub use opening::{Glyphs, OpenWords, lw_desk_open, lw_desk_open_with};
pub use pens::{lw_desk_pens, lw_desk_planes};
pub use reading::{
    lw_desk_bounds, lw_desk_damage, lw_desk_layers, lw_desk_messages, lw_desk_visible,
};
