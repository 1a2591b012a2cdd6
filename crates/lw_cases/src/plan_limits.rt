//! Which sizes a plan may have, and how many of all that it holds.
#![tactic(auto)]

ghost use Rattle.std.specs.Prelude.{◌∷◌, [], replicate, codes};
ghost use Rattle.lw_planes.specs.Bitmap.{bitmap};
ghost use Rattle.lw_calls.specs.declared.call.Call.TheVariants.{RegClear};
ghost use Rattle.lw_calls.specs.Limits.{IsWithinLimits};
ghost use Rattle.lw_calls.specs.Plan.{IsPlan, no_assets};
ghost use Rattle.lw_cases.specs.Grouping.{lock_from};
ghost use Rattle.lw_cases.specs.PlanLimits.{least_sizes, greatest_sizes, second_sizes, third_sizes, clears, filled};
ghost use Rattle.lw_cases.specs.PlanLimits.{filled_plan, second_filled, third_filled, first_calling, second_calling};

/// A version of 1 to 3, a screen of 1 to 8 planes, 1 to 16 tasks and at most 16 bitmaps; and in version 1 a screen of 1 to 1024
/// by 1 to 1024 pixels and at most 64 layer names.
pub fn sizes_of_plans_have_bounds()
    ensures least { IsWithinLimits least_sizes }
    ensures greatest { IsWithinLimits greatest_sizes }
    ensures version_0 { IsWithinLimits (record least_sizes { version = 0 }) → ⊥ }
    ensures version_4 { IsWithinLimits (record least_sizes { version = 4 }) → ⊥ }
    ensures no_columns { IsWithinLimits (record least_sizes { width = 0 }) → ⊥ }
    ensures columns { IsWithinLimits (record greatest_sizes { width = 1025 }) → ⊥ }
    ensures no_rows { IsWithinLimits (record least_sizes { height = 0 }) → ⊥ }
    ensures rows { IsWithinLimits (record greatest_sizes { height = 1025 }) → ⊥ }
    ensures no_planes { IsWithinLimits (record least_sizes { depth = 0 }) → ⊥ }
    ensures planes { IsWithinLimits (record greatest_sizes { depth = 9 }) → ⊥ }
    ensures slots { IsWithinLimits (record greatest_sizes { slots = 65 }) → ⊥ }
    ensures no_task { IsWithinLimits (record least_sizes { tasks = 0 }) → ⊥ }
    ensures tasks { IsWithinLimits (record greatest_sizes { tasks = 17 }) → ⊥ }
    ensures bitmaps { IsWithinLimits (record greatest_sizes { bitmaps = 17 }) → ⊥ }
{}

/// In version 2 a screen of at most 2048 by 2048 pixels and at most 128 layer names, and in version 3 at most 1,024.
pub fn sizes_of_later_plans_have_bounds()
    ensures second { IsWithinLimits second_sizes }
    ensures second_columns { IsWithinLimits (record second_sizes { width = 2049 }) → ⊥ }
    ensures second_rows { IsWithinLimits (record second_sizes { height = 2049 }) → ⊥ }
    ensures second_slots { IsWithinLimits (record second_sizes { slots = 129 }) → ⊥ }
    ensures second_bitmaps { IsWithinLimits (record second_sizes { bitmaps = 17 }) → ⊥ }
    ensures third { IsWithinLimits third_sizes }
    ensures third_columns { IsWithinLimits (record third_sizes { width = 2049 }) → ⊥ }
    ensures third_rows { IsWithinLimits (record third_sizes { height = 2049 }) → ⊥ }
    ensures third_slots { IsWithinLimits (record third_sizes { slots = 1025 }) → ⊥ }
{}

/// In the versions 2 and 3 a task has at most 16,384 calls.
pub fn later_plans_have_bounds()
    ensures second { IsPlan second_filled }
    ensures second_calls { IsPlan (filled second_sizes 128 16385) → ⊥ }
    ensures third { IsPlan third_filled }
    ensures third_calls { IsPlan (filled third_sizes 1024 16385) → ⊥ }
{}

/// A plan has as many names, lists and bitmaps as its sizes say, in version 1 at most 4096 calls for each task, 95 glyphs of 8
/// rows, and calls and groups that fit.
pub fn plans_have_bounds()
    ensures filled { IsPlan filled_plan }
    ensures names { IsPlan (record filled_plan { slot_names = replicate 63 (codes "n") }) → ⊥ }
    ensures task_names { IsPlan (record filled_plan { task_names = replicate 15 (codes "t") }) → ⊥ }
    ensures bitmap_names { IsPlan (record filled_plan { bitmap_names = codes "b" ∷ [] }) → ⊥ }
    ensures lists { IsPlan (record filled_plan { calls = replicate 15 [] }) → ⊥ }
    ensures group_lists { IsPlan (record filled_plan { groups = replicate 15 [] }) → ⊥ }
    ensures supplied { IsPlan (record filled_plan { assets = record no_assets { bitmaps = bitmap 1 1 1 (λ x y. 0) ∷ [] } }) → ⊥ }
    ensures glyphs { IsPlan (record filled_plan { assets = record no_assets { glyphs = replicate 94 (replicate 8 0) } }) → ⊥ }
    ensures glyph_rows { IsPlan (record filled_plan { assets = record no_assets { glyphs = replicate 95 (replicate 7 0) } }) → ⊥ }
    ensures calls { IsPlan (first_calling (clears 4097)) → ⊥ }
    ensures calls_of_the_second { IsPlan (second_calling (clears 4097)) → ⊥ }
    ensures unfit { IsPlan (second_calling (RegClear 8 ∷ [])) → ⊥ }
    ensures grouped { IsPlan (record filled_plan { groups = [] ∷ (lock_from 0 0 ∷ []) ∷ replicate 14 [] }) → ⊥ }
{}
