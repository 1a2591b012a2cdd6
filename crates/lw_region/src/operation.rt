ghost use Rattle.std.specs.Prelude.{◌≡◌};
ghost use Rattle.lw_region.specs.Operations.{holds};

// A set operation, as the rule on whether one pixel is in the result.
#[derive(Clone, Copy)]
pub(crate) enum Operation {
    Union,
    Intersection,
    SymmetricDifference,
    // The pixels of the first set that the second has not.
    Difference,
}

impl Operation {
    pub(crate) fn holds(self, in_first: bool, in_second: bool) -> bool
        ensures { result ≡ holds self in_first in_second }
    {
        match self {
            Operation::Union => in_first || in_second,
            Operation::Intersection => in_first && in_second,
            Operation::SymmetricDifference => in_first != in_second,
            Operation::Difference => in_first && !in_second,
        }
    }
}
