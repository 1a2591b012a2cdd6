//! The frames and titles of windows.
#![tactic(auto, unfolding(crate::proofs::Computing::computing))]

ghost use Rattle.std.specs.Prelude.{◌≡◌, ◌∷◌, ◌++◌, [], replicate, Some, None};
ghost use Rattle.lw_calls.specs.declared.reply.Reply.TheVariants.{Done, Pen};
ghost use Rattle.lw_calls.specs.Entries.{only_order};
ghost use Rattle.lw_machine.specs.Report.{run_report};
ghost use Rattle.lw_cases.specs.Frames.{second_activated, second_activated_report, active_closed, active_closed_report};
ghost use Rattle.lw_cases.specs.Frames.{first_activated_again, first_activated_again_report, frame_uncovered};
ghost use Rattle.lw_cases.specs.Frames.{frame_uncovered_report, frame_narrowed, frame_narrowed_report, frame_painted_over};
ghost use Rattle.lw_cases.specs.Frames.{frame_painted_over_report, frame_painted_again, frame_painted_again_report};
ghost use Rattle.lw_cases.specs.Frames.{frame_covered, pen_after, active_after, replies_to, activated_twice, inverse_title};
ghost use Rattle.lw_cases.specs.Frames.{updated_title};

/// One window is active, and shows it: another that becomes active makes it inactive, and closing it leaves none active.
pub fn one_window_is_active()
    ensures second { run_report second_activated [] (only_order second_activated) ≡ second_activated_report }
    ensures closed { run_report active_closed [] (only_order active_closed) ≡ active_closed_report }
    ensures second_is_active { active_after second_activated ≡ Some 1 }
    ensures none_is_active { active_after active_closed ≡ None }
    ensures first_again { run_report first_activated_again [] (only_order first_activated_again) ≡ first_activated_again_report }
{}

/// A frame of which some pixel is uncovered is painted whole.
pub fn uncovered_frame_is_painted_whole()
    ensures { run_report frame_uncovered [] (only_order frame_uncovered) ≡ frame_uncovered_report }
{}

/// What becomes frame isn't damaged any more.
pub fn frame_is_never_damaged()
    ensures { run_report frame_narrowed [] (only_order frame_narrowed) ≡ frame_narrowed_report }
{}

/// A frame is painted again by a title, whatever the clip region and the mask, and not because its window moves.
pub fn title_paints_the_frame()
    ensures over { run_report frame_painted_over [] (only_order frame_painted_over) ≡ frame_painted_over_report }
    ensures again { run_report frame_painted_again [] (only_order frame_painted_again) ≡ frame_painted_again_report }
{}

/// Under a cover nothing of a simple window's frame is painted.
pub fn frame_is_not_painted_under_a_cover()
    ensures covered { pen_after frame_covered 0 3 10 ≡ 0 }
    ensures shown { pen_after frame_covered 0 2 10 ≡ 2 }
{}

/// A frame isn't painted again where its window stays active.
pub fn frame_stays_where_its_window_stays_active()
    ensures { replies_to activated_twice ≡ replicate 5 Done ++ Pen 3 ∷ [] }
{}

/// A title is painted whatever the mode, and within an update.
pub fn title_is_painted_in_any_mode_and_update()
    ensures inverse { replies_to inverse_title ≡ replicate 3 Done ++ Pen 1 ∷ Pen 2 ∷ [] }
    ensures updated { replies_to updated_title ≡ replicate 4 Done ++ Pen 1 ∷ Pen 1 ∷ Pen 2 ∷ [] }
{}
