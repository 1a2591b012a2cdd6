//! Arrangements: the calls that change which layers there are, their order and their bounds, planned, prepared and committed
//! (the manual's Layers Library chapter).
#![tactic(auto)]

mod after;
mod arrangement;
mod asked_bounds;
mod copied;
mod desktop;
mod exchange;
mod gaining;
mod laws;
mod order;
mod pieces;
mod plan;
mod prepared_info;
mod preparing;
mod refused;
mod showing;

pub use arrangement::{Arrangement, Step};
pub use exchange::Exchange;
pub use gaining::{gained, gains_frame};
pub use laws::arranged_slots_have_few_rectangles;
pub use plan::plan_step;
pub use prepared_info::{PreparedInfo, commit_info, give_up_info, prepare_info};
pub use preparing::{Becomes, Prepared, commit, give_up, prepare, turn_into};
pub use showing::is_unaffected;
