//! What the machine's definitions make of scripts with windows of two layers.
#![tactic(auto, unfolding(lw_cases::proofs::Computing::computing))]

ghost use Rattle.std.specs.Prelude.{◌≡◌, []};
ghost use Rattle.lw_calls.specs.Entries.{only_order};
ghost use Rattle.lw_machine.specs.Report.{run_report};
ghost use Rattle.lw_script_cases.specs.GzzScripts.{filled, filled_report, boxed, boxed_report};

/// The inner layer is filled, and gets its part of another box.
pub fn inner_layers_are_filled()
    ensures filled { run_report filled [] (only_order filled) ≡ filled_report }
    ensures boxed { run_report boxed [] (only_order boxed) ≡ boxed_report }
{}
