//! Which pixels blits take, and where they put them.
#![tactic(auto, unfolding(crate::proofs::Computing::computing))]

ghost use Rattle.std.specs.Prelude.{◌≡◌, []};
ghost use Rattle.lw_calls.specs.Entries.{only_order};
ghost use Rattle.lw_machine.specs.Report.{run_report};
ghost use Rattle.lw_cases.specs.BlitSources.{rows_put, rows_put_report, blit_into_clip, blit_into_clip_report, updated_blits};
ghost use Rattle.lw_cases.specs.BlitSources.{updated_blits_report};

/// The named bitmap is put, each row where it belongs and no row more, and what lies below it paints nothing.
pub fn put_takes_the_rows_of_its_bitmap()
    ensures { run_report rows_put [] (only_order rows_put) ≡ rows_put_report }
{}

/// A blit takes all that its source keeps, in its clip region or not, and no more; the destination's clip region cuts it.
pub fn blit_takes_what_its_source_keeps_into_the_clip()
    ensures { run_report blit_into_clip [] (only_order blit_into_clip) ≡ blit_into_clip_report }
{}

/// Blits within an update stay in the damage and in the clip region, and take what is kept elsewhere.
pub fn blits_stay_in_clip_and_damage()
    ensures { run_report updated_blits [] (only_order updated_blits) ≡ updated_blits_report }
{}
