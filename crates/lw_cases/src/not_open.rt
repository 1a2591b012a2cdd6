//! What is answered where a layer is not open.
#![tactic(auto, unfolding(crate::proofs::Computing::computing))]

ghost use Rattle.std.specs.Prelude.{◌≡◌, []};
ghost use Rattle.lw_calls.specs.Entries.{only_order};
ghost use Rattle.lw_machine.specs.Report.{run_report};
ghost use Rattle.lw_cases.specs.NotOpen.{calls_on_none, calls_on_none_report};

/// Each call that names a layer is refused where the layer was never created or was deleted, whichever name of two it is.
pub fn every_call_wants_an_open_layer()
    ensures { run_report calls_on_none [] (only_order calls_on_none) ≡ calls_on_none_report }
{}
