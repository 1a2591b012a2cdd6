// What a row of pixels and a rectangle have in common, as the bits and columns that the row kernels take.

ghost use Rattle.std.specs.Prelude.{◌≡◌, ℕ, ◌*◌, ◌<◌, false, min, pos, ◌+ℤ◌, MatchOption};
ghost use Rattle.lw_region.specs.Rectangle.{has_pixel};
ghost use Rattle.lw_buffers.specs.Shared.{IsDistance, IsShared};

use lw_region::Rect;

// So many pixels of a row from one bit on, and of a line of a bitmap from one column on.
#[derive(Clone, Copy)]
pub(crate) struct Part {
    pub(crate) bit: u32,
    pub(crate) line: u32,
    pub(crate) column: u32,
    pub(crate) count: u32,
}

// What a rectangle has of the pixels of row `y` from column `x` on, which are the bits of so many bytes; `None` where that
// is nothing.
pub(crate) fn shared_part(rect: &Rect, x: i32, y: i32, length: usize) -> Option<Part>
    ensures { MatchOption result
        ((i : ℕ) → i < 8 * length → has_pixel rect.now (x +ℤ pos i) y ≡ false)
        (λ part. IsShared rect.now x y (8 * length) part) }
{
    let left = i32::from(rect.min_x());
    let top = i32::from(rect.min_y());
    if y < top || i32::from(rect.max_y()) < y {
        return None;
    }
    let bit = distance(x, left);
    let end = first_of(distance(x, i32::from(rect.max_x()) + 1), length);
    if end <= bit {
        return None;
    }
    Some(Part {
        bit,
        line: distance(top, y),
        column: distance(left, x),
        count: end - bit,
    })
}

// How far `to` is after `from`, and 0 where it is before it.
#[tactic(auto, using(std::proofs::lemmas::Int::ints))]
fn distance(from: i32, to: i32) -> u32
    ensures { IsDistance from to result }
{
    if to < from {
        return 0;
    }
    (i64::from(to) - i64::from(from)) as u32
}

// The bit, or the end of a row of so many bytes where that comes first.
fn first_of(bit: u32, length: usize) -> u32
    ensures { result ≡ min bit (8 * length) }
{
    (bit as usize).min(length.saturating_mul(8)) as u32
}
