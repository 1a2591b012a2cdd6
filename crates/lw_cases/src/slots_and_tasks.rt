//! A task's number is no slot's: each call works on the slot that it names, whichever task makes it.
#![tactic(auto, unfolding(crate::proofs::Computing::computing))]

ghost use Rattle.std.specs.Prelude.{◌≡◌, ◌∷◌, [], replicate, Some, None};
ghost use Rattle.lw_machine.specs.Finals.{run_final};
ghost use Rattle.lw_cases.specs.SlotsAndTasks.{by_the_first, by_the_second, no_groups, left_with, drawn, drawn_groups};
ghost use Rattle.lw_cases.specs.SlotsAndTasks.{drawn_row, drawn_seen, drawn_replies, arranged, arranged_row, arranged_seen};
ghost use Rattle.lw_cases.specs.SlotsAndTasks.{beside_seen, arranged_replies, deleted, deleted_replies, refused, refused_seen};
ghost use Rattle.lw_cases.specs.SlotsAndTasks.{backdrop_seen, refused_replies, one_hook, with_one_hook, hooked, hooked_row};
ghost use Rattle.lw_cases.specs.SlotsAndTasks.{hooked_seen, hooked_replies};

/// The first task draws on slot 1, and the second on slot 0.
pub fn calls_draw_on_the_slot_that_they_name()
    ensures first { run_final (by_the_first drawn drawn_groups) [] (replicate 34 0)
        ≡ left_with drawn_row (None ∷ Some drawn_seen ∷ None ∷ []) (drawn_replies 1 ∷ []) }
    ensures second { run_final (by_the_second drawn drawn_groups) [] (replicate 34 1)
        ≡ left_with drawn_row (Some drawn_seen ∷ None ∷ None ∷ []) ([] ∷ drawn_replies 0 ∷ []) }
{}

/// The first task arranges slot 1, and the second slot 0.
pub fn calls_arrange_the_slot_that_they_name()
    ensures first { run_final (by_the_first arranged no_groups) [] (replicate 15 0)
        ≡ left_with arranged_row (None ∷ Some arranged_seen ∷ Some beside_seen ∷ []) (arranged_replies 1 ∷ []) }
    ensures second { run_final (by_the_second arranged no_groups) [] (replicate 15 1)
        ≡ left_with arranged_row (Some arranged_seen ∷ None ∷ Some beside_seen ∷ []) ([] ∷ arranged_replies 0 ∷ []) }
{}

/// The first task deletes slot 1, and the second slot 0.
pub fn calls_delete_the_slot_that_they_name()
    ensures first { run_final (by_the_first deleted no_groups) [] (replicate 6 0)
        ≡ left_with (replicate 16 0) (replicate 3 None) (deleted_replies ∷ []) }
    ensures second { run_final (by_the_second deleted no_groups) [] (replicate 6 1)
        ≡ left_with (replicate 16 0) (replicate 3 None) ([] ∷ deleted_replies ∷ []) }
{}

/// The first task is refused calls on slot 1, and the second on slot 0.
pub fn calls_are_refused_by_the_slot_that_they_name()
    ensures first { run_final (by_the_first refused no_groups) [] (replicate 13 0)
        ≡ left_with (replicate 16 0) (None ∷ Some refused_seen ∷ Some backdrop_seen ∷ []) (refused_replies ∷ []) }
    ensures second { run_final (by_the_second refused no_groups) [] (replicate 13 1)
        ≡ left_with (replicate 16 0) (Some refused_seen ∷ None ∷ Some backdrop_seen ∷ []) ([] ∷ refused_replies ∷ []) }
{}

/// The first task replaces the hook of slot 1, and the second that of slot 0.
pub fn calls_hook_the_slot_that_they_name()
    ensures first { run_final (with_one_hook (by_the_first hooked no_groups)) one_hook (replicate 3 0)
        ≡ left_with hooked_row (None ∷ Some hooked_seen ∷ None ∷ []) (hooked_replies ∷ []) }
    ensures second { run_final (with_one_hook (by_the_second hooked no_groups)) one_hook (replicate 3 1)
        ≡ left_with hooked_row (Some hooked_seen ∷ None ∷ None ∷ []) ([] ∷ hooked_replies ∷ []) }
{}
