//! Whole inputs that scripts spell.

ghost use Rattle.lw_grammar.specs.Script.{SpellsInput};
ghost use Rattle.lw_script_cases.specs.WholeScripts.{alone, with_order, with_report};
ghost use Rattle.lw_script_cases.specs.CanonicalTexts.{further_calls, further_calls_text};
ghost use Rattle.lw_script_cases.specs.SpelledPlans.{input_of, second_layer_script, second_layer_plan, windows_script};
ghost use Rattle.lw_script_cases.specs.SpelledPlans.{windows_plan, ordered_script, ordered_input, idle_plan, reported_script};
ghost use Rattle.lw_script_cases.specs.SpelledPlans.{report_at_end, report_without_feed, comment_at_end, comment_without_feed};

/// The text of the further calls spells their plan.
pub fn further_calls_are_spelled()
    ensures { SpellsInput (alone 0) further_calls_text (input_of further_calls 438) }
{}

/// Each verb makes its call, on the layer that its line names, which isn't the first.
pub fn verbs_make_calls_on_the_second_layer()
    ensures { SpellsInput (alone 0) second_layer_script (input_of second_layer_plan 623) }
{}

/// Each optional word of a window makes what it says and no more, and names have all letters and digits.
pub fn windows_have_their_optional_words()
    ensures { SpellsInput (alone 1) windows_script (input_of windows_plan 439) }
{}

/// The numbers of an order are those of all its lines, up to 15.
pub fn order_goes_over_its_lines()
    ensures { SpellsInput (with_order 0) ordered_script ordered_input }
{}

/// Bytes behind a line `report` are left, and no others; a last line may lack its line feed.
pub fn scripts_end_at_their_last_line()
    ensures reported { SpellsInput (with_report 0) reported_script (input_of idle_plan 32) }
    ensures at_end { SpellsInput (with_report 0) report_at_end (input_of idle_plan 32) }
    ensures without_feed { SpellsInput (with_report 0) report_without_feed (input_of idle_plan 31) }
    ensures comment { SpellsInput (alone 0) comment_at_end (input_of idle_plan 32) }
    ensures comment_without_feed { SpellsInput (alone 0) comment_without_feed (input_of idle_plan 31) }
{}
