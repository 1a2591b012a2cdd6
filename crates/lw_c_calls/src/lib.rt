//! Calls and replies of the machine as C hands them over: a struct of numbers for any call, and one for any reply. `specs/` says
//! which call a struct means, and what a reply is told as; `include/layers.h` declares both structs.
#![tactic(auto)]

mod meant;
mod places;
mod replies;
mod words;

pub use meant::call_of;
pub use replies::{ReplyWords, message_number, told, write_rects};
pub use words::{CallWords, MakeWords};
