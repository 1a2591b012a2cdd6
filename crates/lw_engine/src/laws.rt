ghost use Rattle.lw_engine.specs.Counted.{CellsHaveFewRectangles};
ghost use Rattle.lw_engine.specs.Owners.{StripsMakeTheScreen};

/// A layer with n layers in front of it is cut into at most (2n + 3) (2n + 3) rectangles, visible and hidden together, and into
/// at most (2n + 1) (2n + 1) where all of it lies on the screen: so after each call, since the cells then stand for the slots of
/// a desk with LayerInfo.
pub fn cells_have_few_rectangles()
    ensures { CellsHaveFewRectangles }
{}

/// Each place of the screen is in exactly one strip of all that the slots and the desktop have, and in one of the layer that is
/// on top there, or of the desktop where no layer is; what the screen shows is assembled of these strips. A live layer's visible
/// and hidden rectangles have no place in common and together are its bounds, and it is on top in all of a visible one, and
/// nowhere in a hidden one. Each visible one has a buffer, its strip's; and of the hidden ones none in a simple layer, each one
/// in a smart layer, and none in a super-bitmap layer, which has its own bitmap. So before the first call, after each call and
/// each that ran out of memory, and once a desk is closed, since LayerInfo and the slots then stand for a desk (`Slot::strips`
/// and `Info::desktop` lend the strips, `Layer::lines` the buffers by number).
pub fn strips_make_the_screen()
    ensures { StripsMakeTheScreen }
{}
