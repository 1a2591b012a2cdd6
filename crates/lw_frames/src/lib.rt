//! The frame of a window in its layer (the manual's Intuition Windows chapter): four fills with one pen, and the
//! title's letters over the top one with another. And the messages that a window is due, in its port. How wide and in which pens
//! a frame is, and when a message is due, are this project's own.
#![tactic(auto)]

mod framing;
mod own_frame;
mod painting;
mod telling;

pub use framing::paint_frame;
pub use own_frame::paint_own_frame;
pub use telling::tell;
