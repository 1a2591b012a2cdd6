//! When frames are painted, and what is filled beside them.
#![tactic(auto, unfolding(crate::proofs::Computing::computing))]

ghost use Rattle.std.specs.Prelude.{◌≡◌, []};
ghost use Rattle.lw_calls.specs.Entries.{only_order};
ghost use Rattle.lw_machine.specs.Report.{run_report};
ghost use Rattle.lw_cases.specs.Plans.{six_hooks};
ghost use Rattle.lw_cases.specs.FramePainting.{frame_resized, frame_resized_report, frame_and_inner_uncovered};
ghost use Rattle.lw_cases.specs.FramePainting.{frame_and_inner_uncovered_report, activity_passed_on, activity_passed_on_report};

/// Where the size of a window changes, what was frame and is inner now is filled and damaged, and the new frame is painted.
pub fn old_frame_is_filled_and_new_frame_painted()
    ensures { run_report frame_resized six_hooks (only_order frame_resized) ≡ frame_resized_report }
{}

/// A hook that fills pixels of the frame alone turns too; and a frame of which no pixel was filled stays as it is.
pub fn frame_pixels_turn_the_hook_and_paint_the_frame()
    ensures { run_report frame_and_inner_uncovered six_hooks (only_order frame_and_inner_uncovered)
        ≡ frame_and_inner_uncovered_report }
{}

/// A window that ceases to be active is painted so at once, and a title is painted whole, in the pens of the window's
/// activity.
pub fn activity_shows_in_frame_and_title()
    ensures { run_report activity_passed_on [] (only_order activity_passed_on) ≡ activity_passed_on_report }
{}
