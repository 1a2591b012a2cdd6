//! The program's calls: a script or a picture in, what a command makes of it out.
#![tactic(auto)]

mod auditing;
mod calls;
mod command;
mod demo;
mod displays;
mod laws;
mod outcome;
mod pictures;
mod report;
mod say;
mod serving;
mod status;
mod words;

pub use command::layers;
pub use displays::display_cmd;
pub use laws::{
    answers_tell, bitmaps_are_decided, calls_stand_once_and_in_order, displays_are_decided,
    one_task_has_one_order, outcomes_are_decided, reports_tell_their_order,
    texts_tell_damage_by_history,
};
pub use lw_backfill::Backfill;
pub use lw_grammar::Reason;
pub use lw_io::{Failed, Sink, Source};
pub use lw_locks::{Gate, OpenGate, Spot};
pub use pictures::bitmap_cmd;
pub use serving::{audit, check, ilbm_cmd, replay_cmd};
pub use status::Status;
pub use words::{Command, Output, ScriptCommand, is_name};
