//! Windows (the manual's Intuition Windows chapter): their inner rectangle, their frame, and which messages they are due after
//! an arrangement. How wide and in which pens a frame is, and when a message is due, are this project's own.
#![tactic(auto)]

mod bounds;
mod frame;
mod messages;

pub use bounds::inner;
pub use frame::{Frame, frame_of};
pub use messages::{Change, Classes, due};
