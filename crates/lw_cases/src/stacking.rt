//! Which layer is before which.
#![tactic(auto, unfolding(crate::proofs::Computing::computing))]

ghost use Rattle.std.specs.Prelude.{◌≡◌, []};
ghost use Rattle.lw_calls.specs.Entries.{only_order};
ghost use Rattle.lw_machine.specs.Report.{run_report};
ghost use Rattle.lw_cases.specs.Stacking.{put_in_front, put_in_front_report, put_first, put_first_report, backdrop_in_front};
ghost use Rattle.lw_cases.specs.Stacking.{backdrop_in_front_report, put_behind, put_behind_report, backdrops_created};
ghost use Rattle.lw_cases.specs.Stacking.{backdrops_created_report};

/// A layer goes directly before another, and not before itself.
pub fn layer_goes_before_another()
    ensures put_in_front { run_report put_in_front [] (only_order put_in_front) ≡ put_in_front_report }
    ensures put_first { run_report put_first [] (only_order put_first) ≡ put_first_report }
{}

/// A backdrop layer stays where it is, and nothing else goes behind it.
pub fn backdrop_stays_behind()
    ensures backdrop_in_front { run_report backdrop_in_front [] (only_order backdrop_in_front) ≡ backdrop_in_front_report }
    ensures put_behind { run_report put_behind [] (only_order put_behind) ≡ put_behind_report }
{}

/// A new backdrop layer goes before or behind the other backdrop layers, and behind all others.
pub fn backdrop_joins_backdrops()
    ensures { run_report backdrops_created [] (only_order backdrops_created) ≡ backdrops_created_report }
{}
