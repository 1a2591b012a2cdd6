//! What backfill hooks fill.
#![tactic(auto, unfolding(crate::proofs::Computing::computing))]

ghost use Rattle.std.specs.Prelude.{◌≡◌, ◌∷◌, []};
ghost use Rattle.lw_calls.specs.Entries.{only_order};
ghost use Rattle.lw_machine.specs.Report.{run_report};
ghost use Rattle.lw_cases.specs.Plans.{six_hooks};
ghost use Rattle.lw_cases.specs.Hooks.{growth_filled, growth_filled_report, refreshed_in_part, refreshed_in_part_report};
ghost use Rattle.lw_cases.specs.Hooks.{refreshed_in_full, refreshed_in_full_report, hook_turned, hook_turned_report, checkered};
ghost use Rattle.lw_cases.specs.Hooks.{checkered_report, checkered_again, checkered_again_report, dotted, tiled, tiled_report};
ghost use Rattle.lw_cases.specs.Hooks.{created_covered, created_covered_report, hooks_cut, hooks_cut_report, hook_named_again};
ghost use Rattle.lw_cases.specs.Hooks.{hook_named_again_report, hook_dropped, hook_dropped_report, grown_under_a_cover};
ghost use Rattle.lw_cases.specs.Hooks.{grown_under_a_cover_report, grown_twice, grown_twice_report};

/// What a layer gains is filled by its hook and damaged; a partial refresh leaves the damage, a full one clears it.
pub fn growth_is_filled_and_refreshed()
    ensures growth_filled { run_report growth_filled six_hooks (only_order growth_filled) ≡ growth_filled_report }
    ensures refreshed_in_part { run_report refreshed_in_part six_hooks (only_order refreshed_in_part) ≡ refreshed_in_part_report }
    ensures refreshed_in_full { run_report refreshed_in_full six_hooks (only_order refreshed_in_full) ≡ refreshed_in_full_report }
{}

/// A hook of several tiles fills with the next one each time.
pub fn hook_turns_when_it_fills()
    ensures { run_report hook_turned six_hooks (only_order hook_turned) ≡ hook_turned_report }
{}

/// A hook's tiles lie in layer coordinates, wherever the layer lies on the screen.
pub fn hook_lies_in_layer_coordinates()
    ensures checkered { run_report checkered six_hooks (only_order checkered) ≡ checkered_report }
    ensures again { run_report checkered_again six_hooks (only_order checkered_again) ≡ checkered_again_report }
    ensures tiled { run_report tiled (dotted ∷ []) (only_order tiled) ≡ tiled_report }
{}

/// A hook that filled nothing doesn't turn.
pub fn hook_waits_until_it_fills()
    ensures { run_report created_covered six_hooks (only_order created_covered) ≡ created_covered_report }
{}

/// A hook's pens are cut to the screen's planes.
pub fn hook_pens_are_cut()
    ensures { run_report hooks_cut six_hooks (only_order hooks_cut) ≡ hooks_cut_report }
{}

/// A hook is handed out once.
pub fn hook_is_handed_out_once()
    ensures named_again { run_report hook_named_again six_hooks (only_order hook_named_again) ≡ hook_named_again_report }
    ensures dropped { run_report hook_dropped six_hooks (only_order hook_dropped) ≡ hook_dropped_report }
{}

/// A smart layer is filled and damaged where it grows, shown there or not.
pub fn growth_is_filled_under_a_cover()
    ensures { run_report grown_under_a_cover six_hooks (only_order grown_under_a_cover) ≡ grown_under_a_cover_report }
{}

/// A hook turns at each growth, and not because its window becomes active.
pub fn hook_turns_at_each_growth()
    ensures { run_report grown_twice six_hooks (only_order grown_twice) ≡ grown_twice_report }
{}
