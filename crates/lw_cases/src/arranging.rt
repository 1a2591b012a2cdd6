//! What arrangements reveal, and which layer is on top.
#![tactic(auto, unfolding(crate::proofs::Computing::computing))]

ghost use Rattle.std.specs.Prelude.{◌≡◌, []};
ghost use Rattle.lw_calls.specs.Entries.{only_order};
ghost use Rattle.lw_machine.specs.Report.{run_report};
ghost use Rattle.lw_cases.specs.Arranging.{simple_move, simple_move_report, which_in_front, which_in_front_report};
ghost use Rattle.lw_cases.specs.Arranging.{drawn_after_arrangements, drawn_after_arrangements_report};

/// A simple layer that is moved from under another keeps the pens that it showed, and has damage where it showed none.
pub fn simple_move_damages_what_it_reveals()
    ensures { run_report simple_move [] (only_order simple_move) ≡ simple_move_report }
{}

/// A look at a place finds the layer that is in front there at that time, or none.
pub fn look_finds_the_front_layer()
    ensures { run_report which_in_front [] (only_order which_in_front) ≡ which_in_front_report }
{}

/// A layer keeps its raster state and its clip region when it gets another size or place.
pub fn raster_state_and_clip_outlast_arrangements()
    ensures { run_report drawn_after_arrangements [] (only_order drawn_after_arrangements) ≡ drawn_after_arrangements_report }
{}
