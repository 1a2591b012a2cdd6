//! A lock for each layer and one for LayerInfo, over any engine and one order word: each call of a task takes
//! the locks of what it touches, makes the machine's step on what lies behind them, and draws its ticket. Locks are taken in one
//! order: LayerInfo's first, and then those of the slots in rising number.
#![tactic(auto)]

mod all_layers;
mod answer;
mod call;
mod close;
mod desk;
mod each;
mod gate;
mod group;
mod held;
mod holder;
mod laws;
mod locking;
mod opening;
mod pass;
mod start;
mod steps;

pub use answer::Answer;
pub use close::{Closed, NotClosed};
pub use desk::Desk;
pub use gate::{Gate, OpenGate, Spot};
pub use laws::others_keep_away;
pub use lw_engine_trait::Engine;
pub use opening::Opening;
pub use pass::Pass;
