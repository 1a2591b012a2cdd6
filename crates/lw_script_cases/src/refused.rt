//! Refused scripts in tables, by their first reasons.

ghost use Rattle.lw_grammar.specs.declared.reason.Reason.TheVariants.{BadByte, Spacing, Quote, UnknownWord, Misplaced};
ghost use Rattle.lw_grammar.specs.declared.reason.Reason.TheVariants.{Form as FormReason, Range, NoName, DoubleName, Group};
ghost use Rattle.lw_grammar.specs.declared.reason.Reason.TheVariants.{NoHook, Padding, Missing};
ghost use Rattle.lw_script_cases.specs.Refused.{AreRefused, bad_bytes, bad_spacing, bad_quotes, unknown_words, misplaced};
ghost use Rattle.lw_script_cases.specs.Refused.{bad_forms, out_of_range, no_names, double_names, bad_groups, no_hooks};
ghost use Rattle.lw_script_cases.specs.Refused.{bad_padding, unfinished};

/// Refused for a byte that stands in no line.
pub fn bytes_are_printable()
    ensures { AreRefused BadByte bad_bytes }
{}

/// Refused for empty words.
pub fn words_are_spaced_by_one()
    ensures { AreRefused Spacing bad_spacing }
{}

/// Refused for quotes inside words, and texts that go on after their end.
pub fn texts_are_last_words()
    ensures { AreRefused Quote bad_quotes }
{}

/// Refused for words that begin no line.
pub fn lines_begin_with_verbs()
    ensures { AreRefused UnknownWord unknown_words }
{}

/// Refused for lines in a part of the script where they don't stand.
pub fn lines_stand_in_their_parts()
    ensures { AreRefused Misplaced misplaced }
{}

/// Refused for words that fit no form of their verb.
pub fn words_fit_their_forms()
    ensures { AreRefused FormReason bad_forms }
{}

/// Refused for numbers outside their ranges.
pub fn numbers_are_in_range()
    ensures { AreRefused Range out_of_range }
{}

/// Refused for bitmaps that aren't named above.
pub fn bitmaps_are_named_above()
    ensures { AreRefused NoName no_names }
{}

/// Refused for a second bitmap or a second task of one name, or a second glyph of one code.
pub fn names_are_given_once()
    ensures { AreRefused DoubleName double_names }
{}

/// Refused for lines that may not stand in their group, or end none.
pub fn groups_are_not_nested()
    ensures { AreRefused Group bad_groups }
{}

/// Refused for hooks that aren't handed in.
pub fn hooks_are_handed_in()
    ensures { AreRefused NoHook no_hooks }
{}

/// Refused for a padding bit of a row that is 1.
pub fn padding_is_zero()
    ensures { AreRefused Padding bad_padding }
{}

/// Refused for an end before the script's.
pub fn scripts_end_behind_a_task()
    ensures { AreRefused Missing unfinished }
{}
