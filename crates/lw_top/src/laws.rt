//! Laws of a run and of its answers: each function does nothing, and its contract is the law.

ghost use Rattle.lw_top.specs.Damage.{TextsTellDamageByHistory};
ghost use Rattle.lw_top.specs.Laws.{AnswersTell, BitmapsAreDecided, DisplaysAreDecided, OutcomesAreDecided};
ghost use Rattle.lw_top.specs.Run.{CallsStandOnce, OneTaskHasOneOrder, ReportsTellTheirOrder};

/// In a legal order, and so in the one that a report prints, each task's calls stand once, and in their order, and nothing else
/// does.
pub fn calls_stand_once_and_in_order()
    ensures { CallsStandOnce }
{}

/// Two reports of the same text, each of a plan in a legal order, are of one order: so a report tells which order it is of.
pub fn reports_tell_their_order()
    ensures { ReportsTellTheirOrder }
{}

/// A plan of one task has one legal order, each number in it its own, so `run` has one report for it.
pub fn one_task_has_one_order()
    ensures { OneTaskHasOneOrder }
{}

/// A command has an outcome on each input, and one only, but that `run` reports one of a script's legal orders.
pub fn outcomes_are_decided()
    ensures { OutcomesAreDecided }
{}

/// An input has an outcome where its picture is written as a bitmap of a name, and one only.
pub fn bitmaps_are_decided()
    ensures { BitmapsAreDecided }
{}

/// An input has an outcome where the display in it is shown, and one only.
pub fn displays_are_decided()
    ensures { DisplaysAreDecided }
{}

/// What `layers` promises tells, of each answer, what it has to do with the input and what was written; of each input, what
/// comes unless a stream failed or memory ran out; and both of all that a source had left, where it exposes its bytes.
pub fn answers_tell()
    ensures { AnswersTell }
{}

/// A report that is due for `run` or `replay` has of each simple layer the damage that is told by the history of the order that
/// it prints.
pub fn texts_tell_damage_by_history()
    ensures { TextsTellDamageByHistory }
{}
