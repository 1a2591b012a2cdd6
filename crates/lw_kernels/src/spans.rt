// Bits of a row, by the bytes that they begin and end in.

ghost use Rattle.std.specs.Prelude.{◌≡◌, ℕ, ◌+◌, ◌-◌, ◌/◌, ◌%◌, ◌<◌, ◌==◌, ◌&&◌, if◌then◌else◌, length};
ghost use Rattle.std.specs.Int.{bit_at};
ghost use Rattle.lw_planes.specs.Row.{row_bit};
ghost use Rattle.lw_kernels.specs.Spans.{IsSpan};

use crate::bytes::{mask, picked};

// The bits of a row from `from` on, before `end`: those before `cut` are in byte `first`, those from `rest` on in byte
// `last`, and the ones between are the bytes from `next` on, before `last`. Each end has a mask. Where one byte has all
// of the bits, none are left for the second mask.
#[derive(Clone, Copy)]
pub(crate) struct Span {
    pub(crate) from: usize,
    pub(crate) cut: usize,
    pub(crate) rest: usize,
    pub(crate) end: usize,
    pub(crate) first: usize,
    pub(crate) next: usize,
    pub(crate) last: usize,
    pub(crate) head: u8,
    pub(crate) tail: u8,
}

// The span of `count` bits from bit `from` on.
#[inline(always)]
pub(crate) fn span_of(from: u32, count: u32) -> Span
    requires { 0 < count }
    ensures from { result.from ≡ from }
    ensures end { result.end ≡ from + count }
    ensures span { IsSpan result }
{
    let from = from as usize;
    let end = from + count as usize;
    let first = from / 8;
    let last = (end - 1) / 8;
    let cut = end.min(8 * first + 8);
    let rest = cut.max(8 * last);
    Span {
        from,
        cut,
        rest,
        end,
        first,
        next: last.min(first + 1),
        last,
        head: mask(from, cut, first),
        tail: mask(rest, end, last),
    }
}

// Gives the bits of a byte that the mask names those of this value.
#[inline(always)]
pub(crate) fn put_masked(bytes: &mut [u8], index: usize, mask: u8, value: u8)
    requires { index < length bytes.old }
    ensures { (p : ℕ) → row_bit bytes.new p ≡ (if p / 8 == index && bit_at mask (7 - p % 8) == 1
        then bit_at value (7 - p % 8)
        else row_bit bytes.old p) }
{
    bytes[index] = picked(mask, value, bytes[index]);
}
