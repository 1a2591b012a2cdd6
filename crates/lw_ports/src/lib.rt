//! What a window is told: its port, which keeps messages in the order in which they were put, and sets of message classes,
//! by which a window says which messages it asks for (the manual's Intuition Windows chapter: IDCMP ports and classes; that
//! room in a port is reserved before a message is put is this project's own).
#![tactic(auto)]

mod classes;
mod port;
mod set;

pub use classes::laws_of_classes;
pub use port::Port;
pub use set::MessageSet;
