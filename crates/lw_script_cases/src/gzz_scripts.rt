//! Scripts with windows of two layers: what they stand for, and which of their lines are bad, for which first reason.
#![tactic(auto, unfolding(crate::proofs::Computing::reading_areas))]

ghost use Rattle.std.specs.Prelude.{◌≡◌, ◌++◌, None, Some, codes};
ghost use Rattle.lw_grammar.specs.declared.reason.Reason.TheVariants.{UnknownWord, Misplaced, Form as FormReason, Range};
ghost use Rattle.lw_grammar.specs.declared.reason.Reason.TheVariants.{NoName, DoubleName, Gzz, Group, TooMany};
ghost use Rattle.lw_grammar.specs.Script.{SpellsInput};
ghost use Rattle.lw_script_cases.specs.WholeScripts.{alone, with_order, with_report};
ghost use Rattle.lw_script_cases.specs.SpelledPlans.{input_of};
ghost use Rattle.lw_script_cases.specs.Refused.{AreRefused};
ghost use Rattle.lw_script_cases.specs.LinesBelow.{reason_below};
ghost use Rattle.lw_script_cases.specs.GzzScripts.{filled_script, filled, boxed_script, boxed, all_lines_script, all_lines};
ghost use Rattle.lw_script_cases.specs.GzzScripts.{moved_outer, closed_unknown, unknown_gzz, misplaced_gzz, bad_gopen_forms};
ghost use Rattle.lw_script_cases.specs.GzzScripts.{bad_gzz_forms, far_boxes, far_on_paired, unknown_pairs, names_again};
ghost use Rattle.lw_script_cases.specs.GzzScripts.{parting, misgrouped_gzz, free_lines, AreAllowed, paired, other_names};
ghost use Rattle.lw_script_cases.specs.GzzScripts.{calls_made, held_after, layers_named, reason_at};

/// Each line is a group of its own, and an opening makes a pair.
pub fn windows_of_two_are_groups()
    ensures filled { SpellsInput (alone 0) filled_script (input_of filled 89) }
    ensures boxed { SpellsInput (alone 0) boxed_script (input_of boxed 106) }
    ensures all { SpellsInput (alone 0) all_lines_script (input_of all_lines 186) }
{}

/// Each reason for which a line of such a window is bad.
pub fn bad_windows_of_two_are_refused()
    ensures unknown { AreRefused UnknownWord unknown_gzz }
    ensures misplaced { AreRefused Misplaced misplaced_gzz }
    ensures openings { AreRefused FormReason bad_gopen_forms }
    ensures forms { AreRefused FormReason bad_gzz_forms }
    ensures boxes { AreRefused Range far_boxes }
    ensures numbers { AreRefused Range far_on_paired }
    ensures closed { AreRefused NoName closed_unknown }
    ensures names { AreRefused NoName unknown_pairs }
    ensures again { AreRefused DoubleName names_again }
    ensures groups { AreRefused Group misgrouped_gzz }
{}

/// No line may part the two layers; all else is free.
pub fn no_line_parts_a_window()
    ensures moved { AreRefused Gzz moved_outer }
    ensures refused { AreRefused Gzz parting }
    ensures free { AreAllowed free_lines }
{}

/// Each call of such a line counts, and each new name.
pub fn calls_of_windows_count()
    ensures last { reason_at (calls_made 16382) (codes "gfront g") ≡ None }
    ensures too_many { reason_at (calls_made 16383) (codes "gfront g") ≡ Some TooMany }
    ensures last_opening { reason_at (calls_made 16381) (codes "gopen h j smart front 0 0 16 20 ''") ≡ None }
    ensures many_openings { reason_at (calls_made 16382) (codes "gopen h j smart front 0 0 16 20 ''") ≡ Some TooMany }
    ensures last_names { reason_at (layers_named 124) (codes "gopen h j smart front 0 0 16 20 ''") ≡ None }
    ensures many_names { reason_at (layers_named 125) (codes "gopen h j smart front 0 0 16 20 ''") ≡ Some TooMany }
    ensures known { reason_at (layers_named 126) (codes "ginfront g n0") ≡ None }
    ensures many_places { reason_at (layers_named 126) (codes "ginfront g m") ≡ Some TooMany }
{}

/// Calls are counted where nothing else is bad.
pub fn calls_of_windows_are_counted_last()
    ensures boxes { reason_at (calls_made 16384) (codes "gbox g 0 0 8 20") ≡ Some Range }
    ensures names { reason_at (calls_made 16384) (codes "gfront h") ≡ Some NoName }
    ensures again { reason_at (calls_made 16384) (codes "gopen g j smart front 0 0 16 20 ''") ≡ Some DoubleName }
    ensures between { reason_at (calls_made 16384) (codes "ginfront g g") ≡ Some Gzz }
    ensures parting { reason_at (calls_made 16384) (codes "move g 1 0") ≡ Some Gzz }
    ensures groups { reason_at (held_after 16384) (codes "gfront g") ≡ Some Group }
{}

/// Either layer may get another hook, and have the name of a task, a pattern or a bitmap.
pub fn hooks_and_names_are_free()
    ensures outer { reason_below (alone 2) paired (codes "hook g 0") ≡ None }
    ensures inner { reason_below (alone 2) paired (codes "hook i 1") ≡ None }
    ensures of_task { reason_below (alone 0) other_names (codes "gopen a b smart front 0 0 16 20 ''") ≡ None }
    ensures of_pattern { reason_below (alone 0) other_names (codes "gopen p q smart front 0 0 16 20 ''") ≡ None }
{}

/// Such lines stand in scripts with an order and with a report too.
pub fn windows_of_two_stand_in_each_form()
    ensures ordered { reason_below (with_order 0) paired (codes "gfront g") ≡ None }
    ensures reported { reason_below (with_report 0) paired (codes "gclose g") ≡ None }
{}
