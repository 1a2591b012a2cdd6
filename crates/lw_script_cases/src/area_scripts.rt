//! Scripts with patterns and areas: what they stand for, and which of their lines are bad, for which first reason.
#![tactic(auto, unfolding(crate::proofs::Computing::reading_areas))]

ghost use Rattle.std.specs.Prelude.{◌≡◌, ◌++◌, [], None, Some, codes};
ghost use Rattle.lw_grammar.specs.declared.reason.Reason.TheVariants.{UnknownWord, Misplaced, Form as FormReason, Range};
ghost use Rattle.lw_grammar.specs.declared.reason.Reason.TheVariants.{NoName, DoubleName, Group, TooMany};
ghost use Rattle.lw_grammar.specs.Script.{SpellsInput};
ghost use Rattle.lw_script_cases.specs.WholeScripts.{IsSpelled, alone, script, in_version_2};
ghost use Rattle.lw_script_cases.specs.SpelledPlans.{input_of};
ghost use Rattle.lw_script_cases.specs.Refused.{AreRefused};
ghost use Rattle.lw_script_cases.specs.AreaScripts.{triangle_script, triangle, square_script, square, empty_script, empty_plan};
ghost use Rattle.lw_script_cases.specs.AreaScripts.{pattern_script, checkered, locked_script, locked, updated_script, updated};
ghost use Rattle.lw_script_cases.specs.AreaScripts.{first_named_script, first_named, all_patterns, thirty_two_points};
ghost use Rattle.lw_script_cases.specs.AreaScripts.{unknown_areas, misplaced_areas, bad_area_forms, far_areas};
ghost use Rattle.lw_script_cases.specs.AreaScripts.{unknown_patterns, patterns_again, misgrouped_areas, many_patterns};
ghost use Rattle.lw_script_cases.specs.AreaScripts.{after_calls, after_names, reason_after};

/// An area is a group of fills of its own, one for each rectangle of its canonical list; without a pixel it is nothing.
pub fn areas_are_fills()
    ensures triangle { SpellsInput (alone 0) triangle_script (input_of triangle 83) }
    ensures square { SpellsInput (alone 0) square_script (input_of square 87) }
    ensures empty { SpellsInput (alone 0) empty_script (input_of empty_plan 83) }
    ensures pattern { SpellsInput (alone 0) pattern_script (input_of checkered 112) }
{}

/// In a lock or an update of its layer it joins that. Without a pixel it gives its layer no slot.
pub fn areas_join_their_groups()
    ensures locked { SpellsInput (alone 0) locked_script (input_of locked 118) }
    ensures updated { SpellsInput (alone 0) updated_script (input_of updated 134) }
    ensures first_named { SpellsInput (alone 0) first_named_script (input_of first_named 106) }
{}

/// Patterns have 1, 2, 4, 8 or 16 words, and areas up to 32 points.
pub fn patterns_and_points_are_counted()
    ensures patterns { IsSpelled (alone 0) all_patterns }
    ensures points { IsSpelled (alone 0)
        (in_version_2 ++ script (codes "area w") ++ thirty_two_points ++ script (codes "/end/")) }
{}

/// Each reason for which a line of a pattern or an area is bad.
pub fn bad_areas_are_refused()
    ensures unknown { AreRefused UnknownWord unknown_areas }
    ensures misplaced { AreRefused Misplaced misplaced_areas }
    ensures forms { AreRefused FormReason bad_area_forms }
    ensures far { AreRefused Range far_areas }
    ensures patterns { AreRefused NoName unknown_patterns }
    ensures again { AreRefused DoubleName patterns_again }
    ensures groups { AreRefused Group misgrouped_areas }
    ensures many { AreRefused TooMany many_patterns }
{}

/// The fills of an area count as calls, and its layer as a name where it has a pixel.
pub fn fills_count_as_calls()
    ensures last { reason_after (after_calls 16380) (codes "area w 0 0 8 0 0 4") ≡ None }
    ensures too_many { reason_after (after_calls 16381) (codes "area w 0 0 8 0 0 4") ≡ Some TooMany }
    ensures empty { reason_after (after_calls 16384) (codes "area w 0 0 4 0 0 0") ≡ None }
    ensures last_name { reason_after (after_names 127) (codes "area w 0 0 8 0 0 4") ≡ None }
    ensures new_name { reason_after (after_names 128) (codes "area w 0 0 8 0 0 4") ≡ Some TooMany }
    ensures old_name { reason_after (after_names 128) (codes "area n0 0 0 8 0 0 4") ≡ None }
    ensures empty_name { reason_after (after_names 128) (codes "area w 0 0 4 0 0 0") ≡ None }
{}
