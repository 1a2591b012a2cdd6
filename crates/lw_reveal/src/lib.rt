//! What an arrangement makes of a layer that stays live: its pens in other clip rectangles, and the damage of what it gains (the
//! manual's Layers Library chapter).
#![tactic(auto)]

mod carrying;
mod change;
mod damage;
mod handing;
mod laws;
mod pairing;

pub use change::{Change, apply, prepare};
pub use damage::counted_region;
pub use laws::counted_law;
