// Laws for the crates above: each function does nothing, and its contract is the law.

ghost use Rattle.lw_strips.specs.Laying.{LayingLaw, PlacesLaw, WorkedExample};
ghost use Rattle.lw_strips.specs.Exchange.{CountingLaw, ExchangeLaw};

/// Laying strips in two steps, the ones in front last, is laying all of them. What is laid on a blank bitmap is composed.
pub fn laying_law()
    ensures { LayingLaw }
{}

/// What is composed of disjoint strips has each strip's pens at its places, and so has a screen that is assembled of them.
pub fn places_law()
    ensures { PlacesLaw }
{}

/// How the number of strips of a rectangle in a pool changes, and that a pool without any is empty.
pub fn counting_law()
    ensures { CountingLaw }
{}

/// In a list of pieces all owners together lose and gain each rectangle as often as it is there, and the list of the rectangles
/// that one owner loses or gains has each as often as it does.
pub fn exchange_law()
    ensures { ExchangeLaw }
{}

/// What the definitions give for strips that were worked out by hand.
pub fn worked_example_law()
    ensures { WorkedExample }
{}
