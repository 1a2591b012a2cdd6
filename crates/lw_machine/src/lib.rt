//! The machine as definitions: layers, desks, the step of each call, runs and reports, and laws on them.
//!
//! `specs/` is the text to believe. `docs/DEFINITIONS.md` is its map.
#![tactic(auto)]

mod laws;

pub use laws::{
    nothing_is_lost, reached_desks_are_sound, refused_calls_change_nothing, screen_shows_the_top,
    steps_are_local, steps_leave_the_rest, visible_pixels_are_seen,
};
