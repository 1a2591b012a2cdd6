//! The canonical text of a plan as definitions, the law that it reads back, and the law that a
//! plan that a script spells keeps its windows of two layers apart.
//!
//! `specs/` is the text to believe. `docs/DEFINITIONS.md` is its map.
#![tactic(auto)]

mod laws;

pub use laws::{canonical_texts_read_back, spelled_plans_keep_pairs_apart};
