//! Which pixels can be read and written.
#![tactic(auto, unfolding(crate::proofs::Computing::computing))]

ghost use Rattle.std.specs.Prelude.{◌≡◌, []};
ghost use Rattle.lw_calls.specs.Entries.{only_order};
ghost use Rattle.lw_machine.specs.Report.{run_report};
ghost use Rattle.lw_cases.specs.Reading.{pixels_covered, pixels_covered_report, fill_from_outside, fill_from_outside_report};

/// What a layer keeps can be read, and what is drawable can be written.
pub fn kept_pixels_are_read()
    ensures { run_report pixels_covered [] (only_order pixels_covered) ≡ pixels_covered_report }
{}

/// No layer has a pixel left of or above its corner.
pub fn layer_begins_at_its_corner()
    ensures { run_report fill_from_outside [] (only_order fill_from_outside) ≡ fill_from_outside_report }
{}
