ghost use Rattle.lw_arrange.specs.Counted.{ArrangedSlotsHaveFewRectangles};

/// What `prepare` makes ready of a slot, and `commit` leaves of it, has at most (2n + 3) (2n + 3) rectangles, visible and hidden
/// together, where n layers are in front of its layer after the arrangement, and at most (2n + 1) (2n + 1) where all of the layer
/// lies on the screen.
pub fn arranged_slots_have_few_rectangles()
    ensures { ArrangedSlotsHaveFewRectangles }
{}
