//! One atomic word that holds the length of a history: the order of the calls that threads make on one machine.
//!
//! Whoever has every role that a call touches may stamp it, which draws its place in the history. The history stands
//! in contracts alone: nothing is stored but the word.
#![tactic(auto)]

mod order;
mod seat;
mod view;

pub use lw_calls::Role;
pub use order::Order;
pub use seat::Seat;
