//! What scrolling calls move.
#![tactic(auto, unfolding(crate::proofs::Computing::computing))]

ghost use Rattle.std.specs.Prelude.{◌≡◌, []};
ghost use Rattle.lw_calls.specs.Entries.{only_order};
ghost use Rattle.lw_machine.specs.Report.{run_report};
ghost use Rattle.lw_cases.specs.Scrolling.{scroll_past_all, scroll_past_all_report, scroll_under_cover};
ghost use Rattle.lw_cases.specs.Scrolling.{scroll_under_cover_report, scroll_uncovered, scroll_uncovered_report, scroll_damage};
ghost use Rattle.lw_cases.specs.Scrolling.{scroll_damage_report, portion_scrolled, portion_scrolled_report, scroll_right_down};
ghost use Rattle.lw_cases.specs.Scrolling.{scroll_right_down_report, scroll_masked, scroll_masked_report, scroll_updated};
ghost use Rattle.lw_cases.specs.Scrolling.{scroll_updated_report, scroll_in_frame, scroll_in_frame_report, scroll_from_damage};
ghost use Rattle.lw_cases.specs.Scrolling.{scroll_from_damage_report, scroll_by_nothing, scroll_by_nothing_report};
ghost use Rattle.lw_cases.specs.Scrolling.{scroll_in_column, scroll_in_column_report};

/// What is scrolled in from outside the rectangle has pen B, and keeps the damage that the pixel had.
pub fn scroll_past_all_shows_pen_b()
    ensures { run_report scroll_past_all [] (only_order scroll_past_all) ≡ scroll_past_all_report }
{}

/// What a scroll takes from under a cover is damaged, and damage moves with the pens in a later scroll.
pub fn scroll_damages_what_it_cannot_read()
    ensures scroll_under_cover { run_report scroll_under_cover [] (only_order scroll_under_cover) ≡ scroll_under_cover_report }
    ensures scroll_uncovered { run_report scroll_uncovered [] (only_order scroll_uncovered) ≡ scroll_uncovered_report }
    ensures scroll_damage { run_report scroll_damage [] (only_order scroll_damage) ≡ scroll_damage_report }
{}

/// A super-bitmap layer shows a portion of its bitmap, which can't leave it, while all of its pixels can be read.
pub fn portion_stays_in_its_bitmap()
    ensures { run_report portion_scrolled [] (only_order portion_scrolled) ≡ portion_scrolled_report }
{}

/// A rectangle is scrolled in any direction, and ends at the layer's edges.
pub fn scroll_goes_any_way()
    ensures { run_report scroll_right_down [] (only_order scroll_right_down) ≡ scroll_right_down_report }
{}

/// Damage moves whatever the mask, within an update too, and never into a frame; what pen B fills keeps its own.
pub fn scroll_moves_damage()
    ensures masked { run_report scroll_masked [] (only_order scroll_masked) ≡ scroll_masked_report }
    ensures updated { run_report scroll_updated [] (only_order scroll_updated) ≡ scroll_updated_report }
    ensures in_frame { run_report scroll_in_frame [] (only_order scroll_in_frame) ≡ scroll_in_frame_report }
    ensures from_damage { run_report scroll_from_damage [] (only_order scroll_from_damage) ≡ scroll_from_damage_report }
    ensures by_nothing { run_report scroll_by_nothing [] (only_order scroll_by_nothing) ≡ scroll_by_nothing_report }
    ensures in_column { run_report scroll_in_column [] (only_order scroll_in_column) ≡ scroll_in_column_report }
{}
