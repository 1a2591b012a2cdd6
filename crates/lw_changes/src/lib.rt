//! Which places of the screen a call may change: those where its layer lies before it and after it, and those of windows
//! whose frames it may paint.
#![tactic(auto)]

mod changes;
mod laws;
mod refusing;
mod touched;

pub use changes::Changes;
pub use laws::{
    calls_change_what_they_touch, grown_lists_cover, grown_lists_stay,
    other_calls_leave_the_screen, refusals_leave_the_desk, runs_change_what_they_touch,
};
pub use refusing::is_refusal;
pub use touched::{Frames, frames_of, touched_slot};
