//! What the grammar demands of a line of a script below those that were read. `lw_grammar` has these tests as definitions, in
//! `specs/Script.antt`.
#![tactic(auto)]

mod areas;
mod lines;
mod pairs;
mod tested;

pub use lines::tested_line;
