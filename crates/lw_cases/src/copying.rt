//! What blits from bitmaps and between layers copy.
#![tactic(auto, unfolding(crate::proofs::Computing::computing))]

ghost use Rattle.std.specs.Prelude.{◌≡◌, []};
ghost use Rattle.lw_calls.specs.Entries.{only_order};
ghost use Rattle.lw_machine.specs.Report.{run_report};
ghost use Rattle.lw_cases.specs.Copying.{put_deep, put_deep_report, put_flat, put_flat_report, put_beyond, put_beyond_report};
ghost use Rattle.lw_cases.specs.Copying.{blit_from_hidden, blit_from_hidden_report, blit_to_hidden, blit_to_hidden_report};
ghost use Rattle.lw_cases.specs.Copying.{put_masked, put_masked_report};

/// A bitmap of more planes than the screen loses the higher ones, and one of fewer has 0 in them.
pub fn bitmap_is_put_at_any_depth()
    ensures put_deep { run_report put_deep [] (only_order put_deep) ≡ put_deep_report }
    ensures put_flat { run_report put_flat [] (only_order put_flat) ≡ put_flat_report }
{}

/// What lies beyond a bitmap's edges paints nothing.
pub fn bitmap_ends_at_its_edges()
    ensures { run_report put_beyond [] (only_order put_beyond) ≡ put_beyond_report }
{}

/// A blit between two layers takes what the one keeps to what is drawable of the other.
pub fn blit_takes_what_is_kept()
    ensures blit_from_hidden { run_report blit_from_hidden [] (only_order blit_from_hidden) ≡ blit_from_hidden_report }
    ensures blit_to_hidden { run_report blit_to_hidden [] (only_order blit_to_hidden) ≡ blit_to_hidden_report }
{}

/// A blit goes through the mask, whatever the mode.
pub fn blit_goes_through_the_mask()
    ensures { run_report put_masked [] (only_order put_masked) ≡ put_masked_report }
{}
