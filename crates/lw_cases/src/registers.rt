//! What region registers hold and clip.
#![tactic(auto, unfolding(crate::proofs::Computing::computing))]

ghost use Rattle.std.specs.Prelude.{◌≡◌, []};
ghost use Rattle.lw_calls.specs.Entries.{only_order};
ghost use Rattle.lw_machine.specs.Report.{run_report};
ghost use Rattle.lw_cases.specs.Registers.{clipped, clipped_fill, clipped_report, joined, joined_report, joined_to_itself};
ghost use Rattle.lw_cases.specs.Registers.{joined_to_itself_report, filled_up, filled_up_report};

/// A clip region is a copy of its register, cuts what is painted, and is told when it is replaced.
pub fn clip_is_a_copy()
    ensures set { run_report clipped [] (only_order clipped) ≡ clipped_report }
    ensures filled { run_report clipped_fill [] (only_order clipped_fill) ≡ clipped_report }
{}

/// A register that is joined to another leaves the result there, and may be joined to itself.
pub fn second_register_receives_the_result()
    ensures joined { run_report joined [] (only_order joined) ≡ joined_report }
    ensures to_itself { run_report joined_to_itself [] (only_order joined_to_itself) ≡ joined_to_itself_report }
{}

/// A register has at most 128 rectangles.
pub fn register_is_filled_up()
    ensures { run_report filled_up [] (only_order filled_up) ≡ filled_up_report }
{}
