//! The order with which a report begins, read from its bytes, and the first place at which two lists of bytes differ.
#![tactic(auto)]

mod differing;
mod order;
mod order_stop;

pub use differing::first_difference;
pub use order::read_order;
pub use order_stop::OrderStop;
