//! What belongs to one task.
#![tactic(auto, unfolding(crate::proofs::Computing::computing))]

ghost use Rattle.std.specs.Prelude.{◌≡◌, true, []};
ghost use Rattle.lw_calls.specs.Orders.{is_legal};
ghost use Rattle.lw_machine.specs.Report.{run_report};
ghost use Rattle.lw_cases.specs.Owners.{foreign_window, foreign_window_order, foreign_window_report, own_registers};
ghost use Rattle.lw_cases.specs.Owners.{own_registers_order, own_registers_report, foreign_update, foreign_update_order};
ghost use Rattle.lw_cases.specs.Owners.{foreign_update_report};

/// A window belongs to the task that opened it; its place on the screen is anyone's.
pub fn window_belongs_to_its_task()
    ensures legal { is_legal foreign_window foreign_window_order ≡ true }
    ensures told { run_report foreign_window [] foreign_window_order ≡ foreign_window_report }
    ensures updating { run_report foreign_update [] foreign_update_order ≡ foreign_update_report }
{}

/// Each task has registers of its own.
pub fn registers_belong_to_their_task()
    ensures legal { is_legal own_registers own_registers_order ≡ true }
    ensures told { run_report own_registers [] own_registers_order ≡ own_registers_report }
{}
