//! What two registers may make.
#![tactic(auto, unfolding(crate::proofs::Computing::computing))]

ghost use Rattle.std.specs.Prelude.{◌≡◌, []};
ghost use Rattle.lw_calls.specs.Entries.{only_order};
ghost use Rattle.lw_machine.specs.Report.{run_report};
ghost use Rattle.lw_cases.specs.RegisterPairs.{joined_full, joined_full_report};

/// A register that another is joined to has at most 128 rectangles too, by or, by xor and by and.
pub fn joined_registers_have_a_limit()
    ensures { run_report joined_full [] (only_order joined_full) ≡ joined_full_report }
{}
