//! What super-bitmap layers show and keep.
#![tactic(auto, unfolding(crate::proofs::Computing::computing))]

ghost use Rattle.std.specs.Prelude.{◌≡◌, []};
ghost use Rattle.lw_calls.specs.Entries.{only_order};
ghost use Rattle.lw_machine.specs.Report.{run_report};
ghost use Rattle.lw_cases.specs.SuperBitmaps.{scrolls_refused, scrolls_refused_report, super_updated, super_updated_report};
ghost use Rattle.lw_cases.specs.SuperBitmaps.{super_uncovered, super_uncovered_report, super_window, super_window_report};
ghost use Rattle.lw_cases.specs.SuperBitmaps.{portion_clipped, portion_clipped_report, hidden_part_copied};
ghost use Rattle.lw_cases.specs.SuperBitmaps.{hidden_part_copied_report, hidden_part_drawn, hidden_part_drawn_report};
ghost use Rattle.lw_cases.specs.SuperBitmaps.{hidden_part_painted, hidden_part_painted_report, one_scrolled};
ghost use Rattle.lw_cases.specs.SuperBitmaps.{one_scrolled_report, scrolled_both_ways, scrolled_both_ways_report};

/// A portion stays in its bitmap on every side, and no other layer has one.
pub fn portion_stays_on_every_side()
    ensures { run_report scrolls_refused [] (only_order scrolls_refused) ≡ scrolls_refused_report }
{}

/// A super-bitmap layer is never damaged: nothing of it is drawable in an update, and nothing is lost under a cover.
pub fn super_bitmap_is_never_damaged()
    ensures updated { run_report super_updated [] (only_order super_updated) ≡ super_updated_report }
    ensures uncovered { run_report super_uncovered [] (only_order super_uncovered) ≡ super_uncovered_report }
{}

/// A window may be a super-bitmap layer, which shows the same portion wherever it is moved.
pub fn portion_moves_with_its_window()
    ensures { run_report super_window [] (only_order super_window) ≡ super_window_report }
{}

/// All pixels of the bitmap are drawn on, read and copied by their own coordinates, shown or not.
pub fn bitmap_is_drawn_on_by_its_own_coordinates()
    ensures clipped { run_report portion_clipped [] (only_order portion_clipped) ≡ portion_clipped_report }
    ensures copied { run_report hidden_part_copied [] (only_order hidden_part_copied) ≡ hidden_part_copied_report }
    ensures drawn { run_report hidden_part_drawn [] (only_order hidden_part_drawn) ≡ hidden_part_drawn_report }
    ensures painted { run_report hidden_part_painted [] (only_order hidden_part_painted) ≡ hidden_part_painted_report }
{}

/// A scroll is one layer's own, and stays where the layer gets another box.
pub fn scroll_is_its_layers_own()
    ensures { run_report one_scrolled [] (only_order one_scrolled) ≡ one_scrolled_report }
{}

/// A portion that is scrolled by columns stays there as it is scrolled by rows.
pub fn portion_is_scrolled_both_ways()
    ensures { run_report scrolled_both_ways [] (only_order scrolled_both_ways) ≡ scrolled_both_ways_report }
{}
