//! Which pixels a line takes in each direction.
#![tactic(auto, unfolding(crate::proofs::Computing::computing))]

ghost use Rattle.std.specs.Prelude.{◌≡◌, []};
ghost use Rattle.lw_calls.specs.Entries.{only_order};
ghost use Rattle.lw_machine.specs.Report.{run_report};
ghost use Rattle.lw_cases.specs.Directions.{flat_lines, flat_lines_report, steep_lines, steep_lines_report, lines_from_outside};
ghost use Rattle.lw_cases.specs.Directions.{lines_from_outside_report};

/// A line between two rows, or two columns, takes the one farther from its start, in each of the eight directions.
pub fn lines_round_away_from_their_start()
    ensures flat { run_report flat_lines [] (only_order flat_lines) ≡ flat_lines_report }
    ensures steep { run_report steep_lines [] (only_order steep_lines) ≡ steep_lines_report }
{}

/// The cursor goes to a line's end wherever that lies.
pub fn lines_begin_outside()
    ensures { run_report lines_from_outside [] (only_order lines_from_outside) ≡ lines_from_outside_report }
{}
