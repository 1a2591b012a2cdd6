//! What a show writes: its scenes' scripts are run, their screens opened on the display, and all acts done.
#![tactic(auto)]

mod bytes;
mod scenes;
mod showing;

pub use bytes::text_shown;
pub use showing::text_of_show;
