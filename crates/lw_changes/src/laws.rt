ghost use Rattle.lw_changes.specs.Laws.{CallsChangeWhatTheyTouch, OtherCallsLeaveTheScreen, RunsChangeWhatTheyTouch};
ghost use Rattle.lw_changes.specs.Laws.{RefusalsLeaveTheDesk, GrownListsCover, GrownListsStay};

/// A law of the machine, which does nothing: each pixel of the screen that lies in none of the rectangles that a call touches
/// shows the same pen before and after it.
pub fn calls_change_what_they_touch()
    ensures { CallsChangeWhatTheyTouch }
{}

/// The same of calls that touch no layer: they leave the whole screen.
pub fn other_calls_leave_the_screen()
    ensures { OtherCallsLeaveTheScreen }
{}

/// The same of a history of calls that fit: what the screen shows in none of the rectangles that its calls touch is what it
/// showed before them.
pub fn runs_change_what_they_touch()
    ensures { RunsChangeWhatTheyTouch }
{}

/// A call whose reply refuses it leaves the whole desk.
pub fn refusals_leave_the_desk()
    ensures { RefusalsLeaveTheDesk }
{}

/// The same of a list of rectangles to which one more is noted: it goes on covering what it covered, and covers that one.
pub fn grown_lists_cover()
    ensures { GrownListsCover }
{}

/// It goes no further than these do.
pub fn grown_lists_stay()
    ensures { GrownListsStay }
{}
