//! What windows are told, and their frames.
#![tactic(auto, unfolding(crate::proofs::Computing::computing))]

ghost use Rattle.std.specs.Prelude.{◌≡◌, []};
ghost use Rattle.lw_calls.specs.Entries.{only_order};
ghost use Rattle.lw_machine.specs.Report.{run_report};
ghost use Rattle.lw_cases.specs.Windows.{asked_to_refresh, asked_to_refresh_report, covered_again, covered_again_report};
ghost use Rattle.lw_cases.specs.Windows.{uncovered_again, uncovered_again_report, active_title, active_title_report};
ghost use Rattle.lw_cases.specs.Windows.{frame_widened, frame_widened_report, frame_too_narrow, frame_too_narrow_report};
ghost use Rattle.lw_cases.specs.Windows.{box_told, box_told_report, activated_behind, activated_behind_report};

/// A window is asked to refresh when some damage is there, and not again before its damage was cleared.
pub fn refresh_is_asked_once()
    ensures asked_to_refresh { run_report asked_to_refresh [] (only_order asked_to_refresh) ≡ asked_to_refresh_report }
    ensures covered_again { run_report covered_again [] (only_order covered_again) ≡ covered_again_report }
    ensures uncovered_again { run_report uncovered_again [] (only_order uncovered_again) ≡ uncovered_again_report }
{}

/// The frame and title of an active window: of the title's glyph the one column that has room is painted.
pub fn active_title_is_cut()
    ensures { run_report active_title [] (only_order active_title) ≡ active_title_report }
{}

/// A framed window that grows is damaged where its old frame was, and can't become narrower than its frame.
pub fn old_frame_becomes_damage()
    ensures frame_widened { run_report frame_widened [] (only_order frame_widened) ≡ frame_widened_report }
    ensures frame_too_narrow { run_report frame_too_narrow [] (only_order frame_too_narrow) ≡ frame_too_narrow_report }
{}

/// A window with a new box is told its size, its change and its damage, in this order, and nothing of no change.
pub fn box_is_told_in_order()
    ensures { run_report box_told [] (only_order box_told) ≡ box_told_report }
{}

/// A window that becomes active stays where it is, and a borderless one shows neither that nor its title.
pub fn active_window_stays_behind()
    ensures { run_report activated_behind [] (only_order activated_behind) ≡ activated_behind_report }
{}
