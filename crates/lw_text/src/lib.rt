//! Text in a layer (the manual's chapter Graphics Library and Text): glyph by glyph into rows of bits, which are then
//! painted as a template, block by block and plane by plane.
#![tactic(auto)]

mod characters;
mod glyphs;
mod minterms;
mod template;

pub use characters::{letters, letters_before};
