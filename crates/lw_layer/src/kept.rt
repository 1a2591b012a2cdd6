// The pixels that a layer keeps, as a region.

ghost use Rattle.std.specs.Prelude.{◌≡◌, pos, ◌+ℤ◌, ◌≤◌, IfOk};
ghost use Rattle.lw_region.specs.Rectangle.{IsOrdered, width, height};
ghost use Rattle.lw_region.specs.Banded.{IsCanonical};
ghost use Rattle.lw_cliprects.specs.Parts.{LieIn};
ghost use Rattle.lw_layer.specs.Keeping.{AreKept};

use lw_calls::Kind;
use lw_region::{Rect, Region, moved_region};
use std::alloc::{AllocError, Global};
use std::slice;

/// The pixels that a layer with these bounds and these visible rectangles of the screen keeps, in layer coordinates; of a
/// super-bitmap layer none, since none of its pixels is ever damaged or filled.
pub fn kept_region(
    alloc: Global,
    kind: Kind,
    bounds: &Rect,
    visible: &[Rect],
) -> Result<Region, AllocError>
    requires canonical { IsCanonical visible.now }
    requires inside { LieIn bounds.now visible.now }
    requires wide { width bounds.now ≤ 2048 }
    requires high { height bounds.now ≤ 2048 }
    ensures kept { IfOk result (λ kept. AreKept kind bounds.now visible.now kept) }
    ensures ordered { IsOrdered bounds.now }
{
    let dx = back(bounds.min_x());
    let dy = back(bounds.min_y());
    match kind {
        Kind::Simple => moved_region(alloc, visible, dx, dy),
        Kind::Smart => moved_region(alloc, slice::from_ref(bounds), dx, dy),
        Kind::SuperBitmap => Ok(Region::new(alloc)),
    }
}

// By how much the place is moved to get to 0.
fn back(place: i16) -> i32
    ensures { place +ℤ result ≡ pos 0 }
{
    -i32::from(place)
}
