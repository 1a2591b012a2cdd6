//! Scripts of version 2, and others that would be.

ghost use Rattle.lw_grammar.specs.declared.reason.Reason.TheVariants.{UnknownWord, Form as FormReason, Range, HookUsed};
ghost use Rattle.lw_grammar.specs.Lines.{lines};
ghost use Rattle.lw_grammar.specs.Script.{SpellsInput, IsFirstBadIn};
ghost use Rattle.lw_cases.specs.Versions.{wide_screen, hook_replaced};
ghost use Rattle.lw_script_cases.specs.WholeScripts.{alone};
ghost use Rattle.lw_script_cases.specs.SpelledPlans.{input_of};
ghost use Rattle.lw_script_cases.specs.VersionLines.{without_version, wide_screen_script, wide_screen_below_comments};
ghost use Rattle.lw_script_cases.specs.VersionLines.{hook_replaced_script, hook_replaced_in_version_1, version_behind_screen};
ghost use Rattle.lw_script_cases.specs.VersionLines.{own_hook_again, hooks_in_hold_script, hooks_in_hold_plan};

/// A first line `layers 2` lets a screen be wider and hooks be replaced, and without it neither is.
pub fn first_lines_tell_the_version()
    ensures wide { SpellsInput (alone 0) wide_screen_script (input_of wide_screen 36) }
    ensures below_comments { SpellsInput (alone 0) wide_screen_below_comments (input_of wide_screen 54) }
    ensures not_wide { IsFirstBadIn (alone 0) (lines (without_version wide_screen_script)) 1 Range }
    ensures replaced { SpellsInput (alone 6) hook_replaced_script (input_of hook_replaced 117) }
    ensures not_replaced { IsFirstBadIn (alone 6) (lines (without_version hook_replaced_script)) 4 UnknownWord }
    ensures version_1 { IsFirstBadIn (alone 6) (lines hook_replaced_in_version_1) 1 FormReason }
    ensures behind_screen { IsFirstBadIn (alone 6) (lines version_behind_screen) 2 UnknownWord }
    ensures own_again { IsFirstBadIn (alone 6) (lines own_hook_again) 5 HookUsed }
{}

/// Hooks of either of two layers, one with a bitmap of its own, are replaced in a hold and outside of it.
pub fn hooks_are_replaced_in_holds()
    ensures { SpellsInput (alone 6) hooks_in_hold_script (input_of hooks_in_hold_plan 144) }
{}
