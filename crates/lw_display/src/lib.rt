//! Shows: a display with scenes, each of them a script with an order, and what is then done to their screens.
//!
//! `specs/ShowRule.antt` says which bytes are a show, and for all others which is the first bad line, and why; `ShowTexts.antt`
//! what a show writes.
#![tactic(auto)]

mod cases;
mod laws;
mod line;
mod reading;
mod reason;
mod scene;
mod show;
mod state;
mod stop;
mod texts;
mod verb;

pub use cases::{
    lines_begin_with_known_words, lines_have_forms, lines_stand_in_their_parts,
    numbers_are_in_range, orders_are_legal, scenes_have_names, scripts_are_read_in_scenes,
    shows_have_an_end,
};
pub use laws::shows_are_showable;
pub use reading::read_display;
pub use reason::ShowReason;
pub use show::{Scene, Show};
pub use stop::ShowStop;
pub use texts::two_scenes_are_shown;
pub use verb::ShowVerb;
