//! Tasks that keep apart: laws that say of a plan whose tasks have layers in columns of their own that no order of its calls
//! shows. Each function does nothing, and its contract is the law.
#![tactic(auto)]

mod laws;

pub use laws::{
    apart_tasks_show_no_order, demos_may_go_in_turn, demos_show_no_order, tasks_keep_their_order,
    tasks_may_go_in_turn,
};
