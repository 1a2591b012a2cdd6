//! The damage of a simple layer is its history.
#![tactic(auto, unfolding(crate::proofs::Computing::computing))]

ghost use Rattle.std.specs.Prelude.{[]};
ghost use Rattle.lw_region.specs.Pixels.{rectangle_pixels};
ghost use Rattle.lw_calls.specs.Entries.{only_order};
ghost use Rattle.lw_cases.specs.Plans.{six_hooks, rect};
ghost use Rattle.lw_cases.specs.Arranging.{simple_move};
ghost use Rattle.lw_cases.specs.Hooks.{hook_turned, checkered_again};
ghost use Rattle.lw_cases.specs.Scrolling.{scroll_under_cover, scroll_uncovered, scroll_damage, scroll_beside_damage};
ghost use Rattle.lw_cases.specs.Windows.{asked_to_refresh, covered_again, uncovered_again};
ghost use Rattle.lw_cases.specs.Updates.{updated_in_part, updated_in_full, asked_after_scroll};
ghost use Rattle.lw_cases.specs.Histories.{HasDamageByHistory};

/// A layer that is moved, and shows pixels that it never showed before.
pub fn damage_of_a_move_is_its_history()
    ensures { HasDamageByHistory simple_move [] (only_order simple_move) 0 (rectangle_pixels (rect 3 0 3 1)) }
{}

/// A layer that is covered and uncovered.
pub fn damage_of_a_cover_is_its_history()
    ensures asked { HasDamageByHistory asked_to_refresh [] (only_order asked_to_refresh) 0 (rectangle_pixels (rect 3 3 3 3)) }
    ensures covered { HasDamageByHistory covered_again [] (only_order covered_again) 0 [] }
    ensures uncovered { HasDamageByHistory uncovered_again [] (only_order uncovered_again) 0 (rectangle_pixels (rect 3 3 3 3)) }
    ensures hook { HasDamageByHistory hook_turned six_hooks (only_order hook_turned) 0 (rectangle_pixels (rect 0 0 3 0)) }
{}

/// A layer that is scrolled under a cover, uncovered, and scrolled once more.
pub fn damage_of_a_scroll_is_its_history()
    ensures under_cover { HasDamageByHistory scroll_under_cover [] (only_order scroll_under_cover) 0
        (rectangle_pixels (rect 2 0 2 0)) }
    ensures uncovered { HasDamageByHistory scroll_uncovered [] (only_order scroll_uncovered) 0 (rectangle_pixels (rect 2 0 4 0)) }
    ensures once_more { HasDamageByHistory scroll_damage [] (only_order scroll_damage) 0 (rectangle_pixels (rect 1 0 3 0)) }
{}

/// A layer that is refreshed in part, and one that is refreshed in full and then covered and uncovered.
pub fn damage_of_an_update_is_its_history()
    ensures in_part { HasDamageByHistory updated_in_part [] (only_order updated_in_part) 0 (rectangle_pixels (rect 2 0 3 0)) }
    ensures in_full { HasDamageByHistory updated_in_full [] (only_order updated_in_full) 0 (rectangle_pixels (rect 2 0 3 0)) }
    ensures scrolled { HasDamageByHistory asked_after_scroll [] (only_order asked_after_scroll) 0
        (rectangle_pixels (rect 2 0 2 0)) }
    ensures hook { HasDamageByHistory checkered_again six_hooks (only_order checkered_again) 0 (rectangle_pixels (rect 2 0 5 0)) }
{}

/// A layer of which a part is scrolled that isn't damaged.
pub fn damage_beside_a_scroll_is_its_history()
    ensures { HasDamageByHistory scroll_beside_damage [] (only_order scroll_beside_damage) 0 (rectangle_pixels (rect 0 0 1 0)) }
{}
