ghost use Rattle.lw_c_desk.specs.Laws.{HandlesStandForTheMachine, ReadingsTellWhatChanged};

/// A law of handles, which does nothing: after any calls, and readings of where its screen changed, the desk of a handle that was
/// opened stands for the machine's desk after those calls that were done, in their order. So the clauses of all calls and
/// readers, which speak of each desk for which it stands, always speak of one.
pub fn handles_stand_for_the_machine()
    ensures { HandlesStandForTheMachine }
{}

/// A law of handles, which does nothing: a pixel in none of the rectangles of a reading shows what it showed when they were last
/// read, or when the desk was opened, whatever calls were made since then.
pub fn readings_tell_what_changed()
    ensures { ReadingsTellWhatChanged }
{}
