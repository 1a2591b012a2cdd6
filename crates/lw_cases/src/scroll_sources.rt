//! Where scrolled pixels come from.
#![tactic(auto, unfolding(crate::proofs::Computing::computing))]

ghost use Rattle.std.specs.Prelude.{◌≡◌, []};
ghost use Rattle.lw_calls.specs.Entries.{only_order};
ghost use Rattle.lw_machine.specs.Report.{run_report};
ghost use Rattle.lw_cases.specs.ScrollSources.{scroll_in_clip, scroll_in_clip_report};

/// Pixels that the clip region has are scrolled, from all that is kept of the rectangle. What comes from a hidden place has pen 0
/// and is damaged; what comes from beyond the rectangle, or beyond the layer, has pen B and no other damage than it had.
pub fn scroll_takes_what_its_rectangle_keeps()
    ensures { run_report scroll_in_clip [] (only_order scroll_in_clip) ≡ scroll_in_clip_report }
{}
