//! First reasons of lines below others: below hooks that are named, in an update, and below many super-bitmap layers.
#![tactic(auto, unfolding(crate::proofs::Computing::reading))]

ghost use Rattle.std.specs.Prelude.{◌≡◌, ◌++◌, None, Some, codes};
ghost use Rattle.lw_grammar.specs.declared.reason.Reason.TheVariants.{UnknownWord, Group, TooMany, NoHook, HookUsed};
ghost use Rattle.lw_script_cases.specs.WholeScripts.{alone, with_order, script, of_version_2};
ghost use Rattle.lw_script_cases.specs.LinesBelow.{reason_below, created_with_hook, opened_with_hook, hook_set};
ghost use Rattle.lw_script_cases.specs.LinesBelow.{hook_of_another_task, greatest_hook, updating, supers};

/// A hook is named once, by a layer or a window, in whichever task.
pub fn hooks_are_named_once()
    ensures created_again { reason_below (alone 6) created_with_hook (codes "create v smart front 0 0 3 3 hook 2")
        ≡ Some HookUsed }
    ensures created_simple { reason_below (alone 6) created_with_hook (codes "create v simple behind 0 0 3 3 backdrop hook 2")
        ≡ Some HookUsed }
    ensures then_opened { reason_below (alone 6) created_with_hook (codes "open v smart front 0 0 9 14 hook 2 ask r ''")
        ≡ Some HookUsed }
    ensures opened_again { reason_below (alone 6) opened_with_hook (codes "open v simple front 0 0 9 14 borderless hook 2 ''")
        ≡ Some HookUsed }
    ensures then_created { reason_below (alone 3) opened_with_hook (codes "create v smart front 0 0 3 3 hook 2") ≡ Some HookUsed }
    ensures in_another_task { reason_below (with_order 3) hook_of_another_task (codes "create v smart front 0 0 3 3 hook 2")
        ≡ Some HookUsed }
    ensures greatest { reason_below (alone 4294967296) greatest_hook (codes "create v smart front 0 0 3 3 hook 4294967295")
        ≡ Some HookUsed }
    ensures same_name { reason_below (alone 3) created_with_hook (codes "create w smart front 0 0 7 3 hook 2") ≡ Some HookUsed }
    ensures another { reason_below (alone 6) created_with_hook (codes "create v smart front 0 0 3 3 hook 1") ≡ None }
    ensures not_handed_in { reason_below (alone 2) created_with_hook (codes "create v smart front 0 0 3 3 hook 2") ≡ Some NoHook }
{}

/// In version 2 a line `hook` names one too. It stands in a hold or in no group.
pub fn hooks_are_set_once()
    ensures set_again { reason_below (alone 6) hook_set (codes "hook w 2") ≡ Some HookUsed }
    ensures of_another { reason_below (alone 6) hook_set (codes "hook v 2") ≡ Some HookUsed }
    ensures then_created { reason_below (alone 6) hook_set (codes "create v smart front 0 0 3 3 hook 2") ≡ Some HookUsed }
    ensures then_opened { reason_below (alone 6) hook_set (codes "open v smart front 0 0 9 14 hook 2 ''") ≡ Some HookUsed }
    ensures created_before { reason_below (alone 6) (of_version_2 created_with_hook) (codes "hook v 2") ≡ Some HookUsed }
    ensures greatest { reason_below (alone 4294967296) (of_version_2 greatest_hook) (codes "hook w 4294967295") ≡ Some HookUsed }
    ensures another { reason_below (alone 6) hook_set (codes "hook w 5") ≡ None }
    ensures not_handed_in { reason_below (alone 2) hook_set (codes "hook w 2") ≡ Some NoHook }
    ensures in_hold { reason_below (alone 6) (hook_set ++ script (codes "hold/")) (codes "hook w 5") ≡ None }
    ensures in_lock { reason_below (alone 6) (hook_set ++ script (codes "lock w/")) (codes "hook w 5") ≡ Some Group }
    ensures in_update { reason_below (alone 6) (hook_set ++ script (codes "refresh w/")) (codes "hook w 5") ≡ Some Group }
    ensures in_version_1 { reason_below (alone 6) created_with_hook (codes "hook w 5") ≡ Some UnknownWord }
{}

/// In an update of a layer stand calls on it alone, and the end of its own update.
pub fn updates_have_their_calls()
    ensures fill { reason_below (alone 0) updating (codes "fill w 0 0 1 1") ≡ None }
    ensures part { reason_below (alone 0) updating (codes "endrefresh w part") ≡ None }
    ensures full { reason_below (alone 0) updating (codes "endrefresh w full") ≡ None }
    ensures ended_for_another { reason_below (alone 0) updating (codes "endrefresh v full") ≡ Some Group }
    ensures another { reason_below (alone 0) updating (codes "fill v 0 0 1 1") ≡ Some Group }
    ensures again { reason_below (alone 0) updating (codes "refresh w") ≡ Some Group }
    ensures of_another { reason_below (alone 0) updating (codes "refresh v") ≡ Some Group }
    ensures lock { reason_below (alone 0) updating (codes "lock w") ≡ Some Group }
    ensures unlock { reason_below (alone 0) updating (codes "unlock w") ≡ Some Group }
    ensures hold { reason_below (alone 0) updating (codes "hold") ≡ Some Group }
    ensures release { reason_below (alone 0) updating (codes "release") ≡ Some Group }
    ensures end { reason_below (alone 0) updating (codes "end") ≡ Some Group }
    ensures front { reason_below (alone 0) updating (codes "front w") ≡ Some Group }
    ensures which { reason_below (alone 0) updating (codes "which 0 0") ≡ Some Group }
    ensures region { reason_below (alone 0) updating (codes "clearregion 0") ≡ Some Group }
    ensures two { reason_below (alone 0) updating (codes "blit w 0 0 v 0 0 1 1 c0") ≡ Some Group }
    ensures itself { reason_below (alone 0) updating (codes "blit w 0 0 w 0 0 1 1 c0") ≡ None }
{}

/// A script asks for at most 16 super-bitmap layers, created or opened.
pub fn supers_are_counted()
    ensures sixteenth { reason_below (alone 0) (supers 7 ++ script (codes "create a super front 0 0 7 3 8 4/"))
        (codes "open b super front 0 0 8 4 8 4 ''") ≡ None }
    ensures created { reason_below (alone 0) (supers 8) (codes "create a super front 0 0 7 3 8 4") ≡ Some TooMany }
    ensures opened { reason_below (alone 0) (supers 8) (codes "open a super front 0 0 8 4 8 4 ''") ≡ Some TooMany }
    ensures again { reason_below (alone 0) (supers 8) (codes "create s0 super front 0 0 7 3 8 4") ≡ Some TooMany }
    ensures plain { reason_below (alone 0) (supers 8) (codes "create a smart front 0 0 7 3") ≡ None }
{}
