ghost use Rattle.std.specs.Prelude.{◌≡◌, ◌≤◌, ◌≤ℤ◌};
ghost use Rattle.lw_region.specs.Rectangle.{Rectangle};
ghost use Rattle.lw_machine.specs.Reveal.{frame_pen, title_pen};
ghost use Rattle.lw_windows.specs.Frames.{frame_fills, AreFrame, LeaveInner};

use crate::bounds::{BOTTOM, SIDE, TOP, last};
use lw_region::Rect;

/// How the frame of a window is painted, in layer coordinates: the top, left, right and bottom fill with one pen, and then the
/// title's letters with another.
#[derive(Clone, Copy, Debug, PartialEq, Eq)]
pub struct Frame {
    pub fills: [Rect; 4],
    pub pen: u8,
    pub letters: u8,
}

/// The frame of a window `w` wide and `h` high. Each pixel of the window lies in one fill, or in the inner rectangle.
pub fn frame_of(w: u32, h: u32, active: bool) -> Frame
    requires least_width { 9 ≤ w }
    requires least_height { 14 ≤ h }
    requires width { w ≤ 32768 }
    requires height { h ≤ 32768 }
    ensures bounds { result.fills ≡ frame_fills w h }
    ensures frame { AreFrame w h result.fills }
    ensures once { LeaveInner w h result.fills }
    ensures pen { result.pen ≡ frame_pen active }
    ensures letters { result.letters ≡ title_pen active }
{
    let fills = fills_of(w, h);
    if active {
        Frame {
            fills,
            pen: 1,
            letters: 0,
        }
    } else {
        Frame {
            fills,
            pen: 2,
            letters: 1,
        }
    }
}

// The fills, from the top one on.
fn fills_of(w: u32, h: u32) -> [Rect; 4]
    requires least_width { 9 ≤ w }
    requires least_height { 14 ≤ h }
    requires width { w ≤ 32768 }
    requires height { h ≤ 32768 }
    ensures bounds { result ≡ frame_fills w h }
    ensures frame { AreFrame w h result }
    ensures once { LeaveInner w h result }
{
    let right = last(w);
    let bottom = last(h);
    [
        filled(0, 0, right, TOP - 1),
        filled(0, TOP, SIDE - 1, bottom),
        filled(right - SIDE + 1, TOP, right, bottom),
        filled(SIDE, bottom - BOTTOM + 1, right - SIDE, bottom),
    ]
}

// The rectangle with these bounds, which the caller knows to be in order.
fn filled(min_x: i16, min_y: i16, max_x: i16, max_y: i16) -> Rect
    requires columns { min_x ≤ℤ max_x }
    requires rows { min_y ≤ℤ max_y }
    ensures { result ≡ record { min_x = min_x; min_y = min_y; max_x = max_x; max_y = max_y } }
{
    match Rect::new(min_x, min_y, max_x, max_y) {
        Some(made) => made,
        None => unreachable!(),
    }
}
