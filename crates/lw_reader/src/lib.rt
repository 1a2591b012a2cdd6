//! What was read of a script so far: the state of its reader, and what a line adds to the glyphs, bitmaps and patterns, and to the
//! tasks. `lw_grammar` has what lines tell as definitions, in `specs/Told.antt`.
#![tactic(auto)]

mod assets;
mod read_line;
mod state;
mod tasks;

pub use read_line::ReadLine;
pub use state::{AssetsRead, NamedPair, Reader, TasksRead, has_hook, has_name, place_of_name};
