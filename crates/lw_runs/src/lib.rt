//! The machine's run of a plan over any engine: in an order that is given, on the parts of one desk and with no lock; and of
//! tasks on threads, on a desk whose parts lie behind locks, in the order that their tickets give.
#![tactic(auto)]

mod answers;
mod parts;
mod run;
mod running;
mod task;
mod threads;
mod tickets;

pub use answers::TaskAnswers;
pub use parts::Parts;
pub use run::{Run, run_in_order};
pub use running::run_all;
pub use threads::{TaskRun, parted, run_each};
pub use tickets::order_by;
