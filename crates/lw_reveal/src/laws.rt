ghost use Rattle.lw_reveal.specs.Counted.{CountedLaw};

/// Which pixels count as kept, by the machine's definition. This function does nothing, and its contract is the law.
pub fn counted_law()
    ensures { CountedLaw }
{}
