//! The worked plans are plans that a script can spell.
#![tactic(auto, unfolding(crate::proofs::Computing::computing))]

ghost use Rattle.std.specs.Prelude.{◌≡◌, true};
ghost use Rattle.std.specs.List.{list_all};
ghost use Rattle.lw_cases.specs.Fitting.{worked_plans, fits_its_sizes};

/// Every number of a worked plan is in its range, every slot and hook that it names is there, and its groups may stand.
pub fn worked_plans_fit()
    ensures { list_all fits_its_sizes worked_plans ≡ true }
{}
