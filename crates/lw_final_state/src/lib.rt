//! What a run leaves of one layer: where on the screen it is seen, its damage, and the messages of its window.
#![tactic(auto)]

mod seeing;

pub use seeing::seen;
