ghost use Rattle.lw_grammar.specs.Laws.{InputsAreDecided, ReadingGivesSpelledInputs, ReadingFailsAtFirstBadLines};
ghost use Rattle.lw_grammar.specs.Laws.{SpelledInputsAreRunnable};

/// A law of the grammar of scripts, which does nothing: any bytes, read with any number of hooks as
/// a script alone, with an order or with a report, either have a first bad line, with one number and one reason, or they
/// spell an input, and one only.
pub fn inputs_are_decided()
    ensures { InputsAreDecided }
{}

/// A law of the grammar of scripts, which does nothing: reading bytes line by line gives an input exactly where they spell it.
pub fn reading_gives_spelled_inputs()
    ensures { ReadingGivesSpelledInputs }
{}

/// A law of the grammar of scripts, which does nothing: reading bytes line by line fails exactly where there is a first bad line,
/// with its number and its first reason.
pub fn reading_fails_at_first_bad_lines()
    ensures { ReadingFailsAtFirstBadLines }
{}

/// A law of the grammar of scripts, which does nothing: an input that bytes spell may be run. `IsPlan` holds of its plan, which
/// has the hooks that were handed in, and its order has numbers that tasks may have.
pub fn spelled_inputs_are_runnable()
    ensures { SpelledInputsAreRunnable }
{}
