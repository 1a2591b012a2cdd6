//! The grammar of scripts as definitions: words, lines, what the lines above a line tell, and what bytes spell.
//!
//! `specs/` is the text to believe. `docs/DEFINITIONS.md` is its map.
#![tactic(auto)]

mod form;
mod laws;
mod reason;
mod verb;

pub use form::Form;
pub use laws::{
    inputs_are_decided, reading_fails_at_first_bad_lines, reading_gives_spelled_inputs,
    spelled_inputs_are_runnable,
};
pub use reason::Reason;
pub use verb::{BareVerb, GzzVerb, NumberVerb, PairVerb, PartVerb, TextVerb, Verb};
