//! What is refused.
#![tactic(auto, unfolding(crate::proofs::Computing::computing))]

ghost use Rattle.std.specs.Prelude.{◌≡◌, []};
ghost use Rattle.lw_calls.specs.Entries.{only_order};
ghost use Rattle.lw_machine.specs.Report.{run_report};
ghost use Rattle.lw_cases.specs.Refusals.{refused_calls, refused_calls_report, backdrop_closed, backdrop_closed_report};
ghost use Rattle.lw_cases.specs.Refusals.{first_causes, first_causes_report, made_too_small, made_too_small_report};

/// Refused calls change nothing, and a fill is cut at the layer's edge.
pub fn refused_calls_change_nothing()
    ensures { run_report refused_calls [] (only_order refused_calls) ≡ refused_calls_report }
{}

/// A backdrop layer isn't moved, and a name opens once.
pub fn name_opens_once()
    ensures { run_report backdrop_closed [] (only_order backdrop_closed) ≡ backdrop_closed_report }
{}

/// Of several causes the first is told.
pub fn first_cause_is_told()
    ensures { run_report first_causes [] (only_order first_causes) ≡ first_causes_report }
{}

/// A frame needs its room, and a portion its bitmap.
pub fn made_layers_have_room()
    ensures { run_report made_too_small [] (only_order made_too_small) ≡ made_too_small_report }
{}
