//! Damage is its history: laws that tell a simple layer's damage from the calls of a run, entry by entry. Each function
//! does nothing, and its contract is the law.
#![tactic(auto)]

mod laws;

pub use laws::{
    damage_is_its_history, runs_tell_damage_by_history, scrolls_hurt_what_they_bring,
    the_last_entry_tells,
};
