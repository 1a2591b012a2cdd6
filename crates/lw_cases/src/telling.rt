//! What an active window is told.
#![tactic(auto, unfolding(crate::proofs::Computing::computing))]

ghost use Rattle.std.specs.Prelude.{◌≡◌, []};
ghost use Rattle.lw_calls.specs.Entries.{only_order};
ghost use Rattle.lw_machine.specs.Report.{run_report};
ghost use Rattle.lw_cases.specs.Telling.{grown_while_active, grown_while_active_report};

/// An active window is told of rows alone that it gains, also where it wants no refresh messages, and it stays active
/// where another layer is deleted.
pub fn active_window_is_told_of_its_new_rows()
    ensures { run_report grown_while_active [] (only_order grown_while_active) ≡ grown_while_active_report }
{}
