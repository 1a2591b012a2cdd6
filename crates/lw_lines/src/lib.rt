//! What a line of a script says by its words: a statement, an area, or what is done with a window of two layers. `lw_grammar` has
//! the grammar as definitions, in `specs/Statements.antt`.
#![tactic(auto)]

mod corners;
mod line_read;
mod lines_area;
mod lines_asked;
mod lines_blit;
mod lines_gzz;
mod lines_layer;
mod lines_parts;
mod lines_verb;

pub use line_read::words_line;
