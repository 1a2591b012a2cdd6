//! Where layers are placed, and what a new size reveals.
#![tactic(auto, unfolding(crate::proofs::Computing::computing))]

ghost use Rattle.std.specs.Prelude.{◌≡◌, []};
ghost use Rattle.lw_calls.specs.Entries.{only_order};
ghost use Rattle.lw_machine.specs.Report.{run_report};
ghost use Rattle.lw_cases.specs.Plans.{six_hooks};
ghost use Rattle.lw_cases.specs.Placing.{placed_by_rows, placed_by_rows_report, windows_opened, windows_opened_report};
ghost use Rattle.lw_cases.specs.Placing.{widened_in_clip, widened_in_clip_report};

/// A layer is moved, sized and boxed by rows as by columns; it has a row, and none above or below the screen.
pub fn layer_is_placed_by_its_rows()
    ensures { run_report placed_by_rows [] (only_order placed_by_rows) ≡ placed_by_rows_report }
{}

/// A window opens behind others or among the backdrop layers where that is asked for, with its hook; and one among the
/// backdrop layers can be active.
pub fn window_opens_as_asked()
    ensures { run_report windows_opened six_hooks (only_order windows_opened) ≡ windows_opened_report }
{}

/// A simple layer that grows is damaged where it is new alone, and filled there in all planes, whatever its mask and its
/// clip region.
pub fn growth_is_filled_and_damaged_off_clip_and_mask()
    ensures { run_report widened_in_clip six_hooks (only_order widened_in_clip) ≡ widened_in_clip_report }
{}
