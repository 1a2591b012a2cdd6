//! What the versions 2 and 3 bring: hooks that are replaced, layers off the screen, wide screens, and slots that are opened
//! again.
#![tactic(auto, unfolding(crate::proofs::Computing::computing))]

ghost use Rattle.std.specs.Prelude.{◌≡◌, [], true};
ghost use Rattle.std.specs.List.{list_all};
ghost use Rattle.lw_region.specs.Pixels.{rectangle_pixels};
ghost use Rattle.lw_calls.specs.Entries.{only_order};
ghost use Rattle.lw_machine.specs.Report.{run_report};
ghost use Rattle.lw_cases.specs.Plans.{six_hooks, of_version, rect};
ghost use Rattle.lw_cases.specs.Fitting.{fits_its_sizes};
ghost use Rattle.lw_cases.specs.Histories.{HasDamageByHistory};
ghost use Rattle.lw_cases.specs.Versions.{hook_replaced, hook_replaced_report, hook_set_twice, hook_set_twice_report};
ghost use Rattle.lw_cases.specs.Versions.{super_hooked, super_hooked_report, hook_untold, hook_untold_report, hook_in_update};
ghost use Rattle.lw_cases.specs.Versions.{hook_in_update_order, hook_in_update_report, left_of_screen, left_of_screen_report};
ghost use Rattle.lw_cases.specs.Versions.{back_on_screen, back_on_screen_report, kept_on_screen, kept_on_screen_report};
ghost use Rattle.lw_cases.specs.Versions.{simple_off_screen, simple_off_screen_report, over_upper_edge, over_upper_edge_report};
ghost use Rattle.lw_cases.specs.Versions.{created_off_screen, created_off_screen_report, far_left, far_left_report, far_places};
ghost use Rattle.lw_cases.specs.Versions.{far_places_report, wide_screen, wide_screen_report, opened_again, opened_again_report};
ghost use Rattle.lw_cases.specs.Versions.{opened_once, opened_once_report, window_again, window_again_report};
ghost use Rattle.lw_cases.specs.Versions.{damaged_and_again, plans_of_version_2};

/// A layer's hook is replaced: the new one fills what is uncovered next. It is handed out once, and never fills a super-bitmap
/// layer.
pub fn hooks_are_replaced()
    ensures replaced { run_report hook_replaced six_hooks (only_order hook_replaced) ≡ hook_replaced_report }
    ensures twice { run_report hook_set_twice six_hooks (only_order hook_set_twice) ≡ hook_set_twice_report }
    ensures super_bitmap { run_report super_hooked six_hooks (only_order super_hooked) ≡ super_hooked_report }
{}

/// A change of a hook puts no message.
pub fn hooks_are_changed_untold()
    ensures { run_report hook_untold six_hooks (only_order hook_untold) ≡ hook_untold_report }
{}

/// Any task changes the hook of any layer, of a backdrop layer and of another task's window too. The layer's update goes on, and
/// its clip region and raster state stay.
pub fn hooks_are_changed_by_any_task()
    ensures { run_report hook_in_update six_hooks hook_in_update_order ≡ hook_in_update_report }
{}

/// What lies off the screen is hidden: a smart layer keeps it, and a simple one loses it. In version 1 no layer goes there.
pub fn layers_leave_the_screen()
    ensures left { run_report left_of_screen [] (only_order left_of_screen) ≡ left_of_screen_report }
    ensures library { run_report (of_version 3 left_of_screen) [] (only_order left_of_screen) ≡ left_of_screen_report }
    ensures back { run_report back_on_screen [] (only_order back_on_screen) ≡ back_on_screen_report }
    ensures kept { run_report kept_on_screen [] (only_order kept_on_screen) ≡ kept_on_screen_report }
    ensures simple { run_report simple_off_screen [] (only_order simple_off_screen) ≡ simple_off_screen_report }
    ensures above { run_report over_upper_edge [] (only_order over_upper_edge) ≡ over_upper_edge_report }
{}

/// A smart layer that is created off the screen is filled, and its hook turns; a simple one keeps nothing there, and its hook
/// doesn't turn.
pub fn layers_are_created_off_the_screen()
    ensures { run_report created_off_screen six_hooks (only_order created_off_screen) ≡ created_off_screen_report }
{}

/// A layer's bounds are coordinates, and it is no wider and no higher than the screen.
pub fn layers_go_so_far()
    ensures left { run_report far_left [] (only_order far_left) ≡ far_left_report }
    ensures places { run_report far_places [] (only_order far_places) ≡ far_places_report }
{}

/// A screen of 2048 columns.
pub fn screens_are_wide()
    ensures { run_report wide_screen [] (only_order wide_screen) ≡ wide_screen_report }
{}

/// In version 3 a closed slot is opened again, and its new layer has nothing of the former one; in version 2 it isn't.
pub fn slots_are_opened_again()
    ensures again { run_report opened_again six_hooks (only_order opened_again) ≡ opened_again_report }
    ensures once { run_report opened_once six_hooks (only_order opened_once) ≡ opened_once_report }
    ensures window { run_report window_again [] (only_order window_again) ≡ window_again_report }
{}

/// Damage is its history off the screen, after a change of a hook, and in a slot that is opened again.
pub fn damage_of_the_versions_is_its_history()
    ensures simple { HasDamageByHistory simple_off_screen [] (only_order simple_off_screen) 0 (rectangle_pixels (rect 0 0 1 0)) }
    ensures replaced { HasDamageByHistory hook_replaced six_hooks (only_order hook_replaced) 0 (rectangle_pixels (rect 0 0 3 0)) }
    ensures again { HasDamageByHistory damaged_and_again [] (only_order damaged_and_again) 0 [] }
{}

/// The plans of version 2 are plans that a script can spell.
pub fn plans_of_version_2_fit()
    ensures { list_all fits_its_sizes plans_of_version_2 ≡ true }
{}
