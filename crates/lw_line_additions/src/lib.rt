//! What a line of a script that was read adds to those before it. `lw_grammar` has what lines tell as definitions, in
//! `specs/Told.antt`.
#![tactic(auto)]

mod adding;
mod areas;
mod lines;
mod pairs;

pub use lines::add_read;
