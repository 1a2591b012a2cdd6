// A quotient, rounded down, of a total that gains the same at each step: divided once, and then stepped by sums alone.

ghost use Rattle.std.specs.Prelude.{◌<◌};

// The total over the divisor, as a value and the rest, and what it gains at each step over the divisor, as a whole and a part.
#[derive(Clone, Copy)]
pub(crate) struct Quotient {
    pub divisor: u64,
    pub value: u64,
    rest: u64,
    whole: u64,
    part: u64,
    ghost rest_below: { rest < divisor },
    ghost part_below: { part < divisor },
}

impl Quotient {
    ghost use Rattle.std.specs.Prelude.{◌+◌, ◌-◌, ◌*◌, ◌^◌, ◌<◌, ◌≤◌};
    ghost use Rattle.lw_draw.specs.Quotients.{total_of, gain_of, IsQuotient};

    // The quotient of a total that is to gain this much at each step.
    pub(crate) fn new(total: u64, gain: u64, divisor: u64) -> Quotient
        requires { 0 < divisor }
        ensures { IsQuotient total gain divisor result }
    {
        Quotient {
            divisor,
            value: total / divisor,
            rest: total % divisor,
            whole: gain / divisor,
            part: gain % divisor,
        }
    }

    // One step on.
    pub(crate) fn next(self) -> Quotient
        requires { total_of self + gain_of self < 2 ^ 40 }
        ensures { IsQuotient (total_of self + gain_of self) (gain_of self) self.divisor result }
    {
        let value = self.value + self.whole;
        let rest = self.rest + self.part;
        if rest < self.divisor {
            self.at(value, rest)
        } else {
            self.at(value + 1, rest - self.divisor)
        }
    }

    // One step back.
    pub(crate) fn prior(self) -> Quotient
        requires { gain_of self ≤ total_of self }
        ensures { IsQuotient (total_of self - gain_of self) (gain_of self) self.divisor result }
    {
        let value = self.value - self.whole;
        if self.part <= self.rest {
            self.at(value, self.rest - self.part)
        } else {
            self.at(value - 1, self.rest + (self.divisor - self.part))
        }
    }

    // The quotient of another total.
    fn at(self, value: u64, rest: u64) -> Quotient
        requires { rest < self.divisor }
        ensures { IsQuotient (self.divisor * value + rest) (gain_of self) self.divisor result }
    {
        Quotient {
            divisor: self.divisor,
            value,
            rest,
            whole: self.whole,
            part: self.part,
        }
    }
}
