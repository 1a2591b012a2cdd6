ghost use Rattle.std.specs.Prelude.{◌≡◌, false, ◌↔◌, ◌≤◌, ◌-ℤ◌, ◌≤ℤ◌, ℕ, ℤ, pos, IfSome, IsNone};
ghost use Rattle.lw_region.specs.Rectangle.{has_pixel};
ghost use Rattle.lw_machine.specs.Kept.{holds_at, in_inner};

use lw_region::Rect;

/// How many columns a frame has on the left, and as many on the right.
pub(crate) const SIDE: i16 = 4;
/// How many rows a frame has at the top.
pub(crate) const TOP: i16 = 11;
/// How many rows a frame has at the bottom.
pub(crate) const BOTTOM: i16 = 2;

/// The inner rectangle of a layer `w` wide and `h` high, in layer coordinates: what the frame leaves of a framed window, and all
/// of any other layer; `None` exactly where that is no pixel.
pub fn inner(w: u32, h: u32, framed: bool) -> Option<Rect>
    requires width { w ≤ 32768 }
    requires height { h ≤ 32768 }
    ensures pixels { IfSome result (λ r. (x y : ℤ) → has_pixel r x y ≡ holds_at (in_inner framed w h) x y) }
    ensures none { IsNone result ↔ ((x y : ℕ) → in_inner framed w h x y ≡ false) }
{
    if framed {
        Rect::new(SIDE, TOP, last(w) - SIDE, last(h) - BOTTOM)
    } else {
        Rect::new(0, 0, last(w), last(h))
    }
}

/// The last of `count` columns or rows that begin at 0, or -1 without any.
pub(crate) fn last(count: u32) -> i16
    requires { count ≤ 32768 }
    ensures { result ≡ pos count -ℤ pos 1 }
{
    (count as i32 - 1) as i16
}
