ghost use Rattle.std.specs.Prelude.{◌≡◌, ◌≤◌, ◌++◌, map, length, drop};
ghost use Rattle.lw_c_rectangles.specs.Bounds.{bounds_of};

use crate::bounds::{Bounds, bounds_of};
use lw_region::Rect;

/// Writes rectangles at the head of an array.
pub fn write_out(rects: &[Rect], out: &mut [Bounds])
    requires { length rects.now ≤ length out.old }
    ensures { out.new ≡ map bounds_of rects.now ++ drop (length rects.now) out.old }
{
    for place in 0..rects.len() {
        out[place] = bounds_of(&rects[place]);
    }
}
