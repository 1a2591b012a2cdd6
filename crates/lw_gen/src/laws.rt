ghost use Rattle.lw_gen.specs.Laws.{DemosArePlans, DrawsTheseCalls};

/// The plan of a demo of 1 to 16 tasks may be run, whatever its number.
pub fn demos_are_plans()
    ensures { DemosArePlans }
{}

/// First calls and last ones that the two tasks of demo 7 draw, worked out apart from the definitions.
pub fn demos_draw_these_calls()
    ensures { DrawsTheseCalls }
{}
