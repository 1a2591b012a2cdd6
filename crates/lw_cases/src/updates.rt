//! Updates, and when a window is asked to refresh.
#![tactic(auto, unfolding(crate::proofs::Computing::computing))]

ghost use Rattle.std.specs.Prelude.{◌≡◌, []};
ghost use Rattle.lw_calls.specs.Entries.{only_order};
ghost use Rattle.lw_machine.specs.Report.{run_report};
ghost use Rattle.lw_cases.specs.Updates.{updated_in_part, updated_in_part_report, updated_in_full, updated_in_full_report};
ghost use Rattle.lw_cases.specs.Updates.{damaged_by_scroll, damaged_by_scroll_report, asked_after_scroll};
ghost use Rattle.lw_cases.specs.Updates.{asked_after_scroll_report, damaged_untold, damaged_untold_report, updates_refused};
ghost use Rattle.lw_cases.specs.Updates.{updates_refused_report, updated_in_clip, updated_in_clip_report};

/// A window is asked again to refresh after a full refresh, and not after one in part.
pub fn full_refresh_lets_ask_again()
    ensures in_part { run_report updated_in_part [] (only_order updated_in_part) ≡ updated_in_part_report }
    ensures in_full { run_report updated_in_full [] (only_order updated_in_full) ≡ updated_in_full_report }
{}

/// What a scroll damages is told by the next arrangement, also by one that changes nothing.
pub fn scroll_is_told_by_the_next_arrangement()
    ensures scrolled { run_report damaged_by_scroll [] (only_order damaged_by_scroll) ≡ damaged_by_scroll_report }
    ensures asked { run_report asked_after_scroll [] (only_order asked_after_scroll) ≡ asked_after_scroll_report }
{}

/// A window that doesn't care, or doesn't ask, isn't told.
pub fn window_that_does_not_ask_is_not_told()
    ensures { run_report damaged_untold [] (only_order damaged_untold) ≡ damaged_untold_report }
{}

/// An update begins and ends once, and has the clip region that was there.
pub fn update_begins_and_ends_once()
    ensures refused { run_report updates_refused [] (only_order updates_refused) ≡ updates_refused_report }
    ensures in_clip { run_report updated_in_clip [] (only_order updated_in_clip) ≡ updated_in_clip_report }
{}
