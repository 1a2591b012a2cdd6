ghost use Rattle.lw_bounds.specs.Cuts.{RectanglesUnderCutsAreFew, RectanglesUnderCoversAreFew, RectanglesOnScreensAreFew};
ghost use Rattle.lw_bounds.specs.Desks.{RectanglesAreFew};
ghost use Rattle.lw_bounds.specs.Fronts.{CountedExamples, RectanglesInListsAreFew};

/// Where the visible pixels of some bounds change at these columns and rows alone, visible and hidden rectangles together are at
/// most the product of one more than each number.
pub fn rectangles_under_cuts_are_few()
    ensures { RectanglesUnderCutsAreFew }
{}

/// Under n covers, bounds have at most (2n + 1) (2n + 1) rectangles, visible and hidden together.
pub fn rectangles_under_covers_are_few()
    ensures { RectanglesUnderCoversAreFew }
{}

/// Under n covers, bounds of which a screen shows a part have at most (2n + 3) (2n + 3) rectangles, visible and hidden together.
pub fn rectangles_on_screens_are_few()
    ensures { RectanglesOnScreensAreFew }
{}

/// A layer with n layers in front of it in a list has at most (2n + 3) (2n + 3) rectangles, visible and hidden together, and at
/// most (2n + 1) (2n + 1) where all of it lies on the screen.
pub fn rectangles_in_lists_are_few()
    ensures { RectanglesInListsAreFew }
{}

/// What the definitions count in small examples, worked out by hand.
pub fn counted_examples()
    ensures { CountedExamples }
{}

/// On a sound desk a layer with n layers in front of it has at most (2n + 3) (2n + 3) rectangles, visible and hidden together,
/// and at most (2n + 1) (2n + 1) in version 1.
pub fn rectangles_are_few()
    ensures { RectanglesAreFew }
{}
