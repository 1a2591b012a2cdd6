//! Displays that show several screens, one in front of another (the manual's Intuition Screens chapter; that a screen covers its
//! own rows alone, and that none is dragged above row 0, is this project's own).
//!
//! `specs/` says for each row whose it is; the code keeps the bands of rows with one owner.
#![tactic(auto)]

mod act;
mod bands;
mod cases;
mod composing;
mod laws;
mod order;
mod screen;
mod screens;
mod writing;

pub use act::Act;
pub use bands::Band;
pub use cases::{drags_stay_on_the_display, small_screens, two_screens};
pub use laws::{bands_are_longest_runs, orders_have_each_screen_once};
pub use screen::Screen;
pub use screens::Screens;
pub use writing::write;
