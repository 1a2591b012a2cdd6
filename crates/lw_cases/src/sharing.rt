//! What tasks may do with each other's windows.
#![tactic(auto, unfolding(crate::proofs::Computing::computing))]

ghost use Rattle.std.specs.Prelude.{◌≡◌, []};
ghost use Rattle.lw_machine.specs.Report.{run_report};
ghost use Rattle.lw_cases.specs.Sharing.{served_by_another, served_by_another_order, served_by_another_report};
ghost use Rattle.lw_cases.specs.Sharing.{drawn_by_another, drawn_by_another_order, drawn_by_another_report};
ghost use Rattle.lw_cases.specs.Sharing.{opened_by_the_second, opened_by_the_second_order, opened_by_the_second_report};

/// Any task may put a window in front and behind, size it, make it active, draw on it, scroll it and clip it.
pub fn any_task_arranges_and_draws_on_a_window()
    ensures arranged { run_report served_by_another [] served_by_another_order ≡ served_by_another_report }
    ensures drawn { run_report drawn_by_another [] drawn_by_another_order ≡ drawn_by_another_report }
{}

/// A window is owned by the task that opened it, also by one that isn't the first.
pub fn second_task_owns_what_it_opens()
    ensures { run_report opened_by_the_second [] opened_by_the_second_order ≡ opened_by_the_second_report }
{}
