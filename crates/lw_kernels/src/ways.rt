// How the sources of a blit come to their bits, worked out once for all of its rows.

ghost use Rattle.std.specs.Prelude.{◌≡◌, ℕ, ◌+◌, ◌-◌, ◌*◌, ◌/◌, ◌%◌, ◌^◌, ◌<◌, ◌≤◌, ◌==◌, ◌&&◌, true, if◌then◌else◌, bit_and};
ghost use Rattle.std.specs.Prelude.{length};
ghost use Rattle.std.specs.Int.{bit_at};
ghost use Rattle.lw_planes.specs.Row.{row_bit};
ghost use Rattle.lw_planes.specs.Minterm.{minterm_bit};
ghost use Rattle.lw_kernels.specs.Spans.{IsWay};

use crate::bytes::minterm_byte;
use crate::combining::COPY_MINTERM;
use crate::spans::{Span, put_masked};

// Whether a blit copies, and whether its sources stand in their bytes as the bits of its span do in theirs.
#[derive(Clone, Copy)]
pub(crate) struct Way {
    pub(crate) copies: bool,
    pub(crate) whole: bool,
}

#[inline(always)]
pub(crate) fn make_way(copies: bool, whole: bool) -> Way
    ensures copies { result.copies ≡ copies }
    ensures whole { result.whole ≡ whole }
{
    Way { copies, whole }
}

// Whether a minterm is one of a copy.
#[inline(always)]
pub(crate) fn is_copy(minterm: u8) -> bool
    ensures { result ≡ true → bit_and minterm 240 ≡ 192 }
{
    minterm & 0xf0 == COPY_MINTERM
}

// The way of a blit whose sources begin at this bit of their row.
#[inline(always)]
pub(crate) fn way_of(minterm: u8, span: Span, place: usize) -> Way
    ensures { IsWay minterm span place result }
{
    Way {
        copies: is_copy(minterm),
        whole: place % 8 == span.from % 8,
    }
}

// The bits of a row from bit `place` past byte `at` on, before bit `end` past it, moved to a byte from its bit `lead` on.
// Two bytes of the row have them, or one that stands as they are to.
#[inline(always)]
pub(crate) fn bits_from(
    row: &[u8],
    at: usize,
    place: usize,
    end: usize,
    lead: usize,
    whole: bool,
) -> u8
    requires low { lead < 8 }
    requires some { 0 < end }
    requires near { place < 2 ^ 42 }
    requires near_end { end < 2 ^ 42 }
    requires inside { 8 * at + end ≤ 8 * length row.now }
    requires whole { whole ≡ true → place % 8 ≡ lead }
    ensures { (j : ℕ) → lead ≤ j → j < 8 → place + (j - lead) < end
        → bit_at result (7 - j) ≡ row_bit row.now (8 * at + place + (j - lead)) }
{
    let last = (end - 1) / 8;
    let first = last.min(place / 8);
    if whole {
        row[at + first]
    } else {
        let pair = u16::from(row[at + first]) * 256 + u16::from(row[at + last.min(first + 1)]);
        ((pair >> (8 - place % 8 + lead)) & 0xff) as u8
    }
}

// Which bit of its byte a place is: its first one where the bits stand as they are to.
#[inline(always)]
pub(crate) fn shift_of(place: usize, whole: bool) -> usize
    ensures most { result ≤ place % 8 }
    ensures is { (whole ≡ true → place % 8 ≡ 0) → result ≡ place % 8 }
{
    if whole { 0 } else { place % 8 }
}

// Gives the bits of a byte that the mask names the minterm's values for those of `source` and for themselves.
#[inline(always)]
pub(crate) fn put_blit(
    bytes: &mut [u8],
    index: usize,
    mask: u8,
    source: u8,
    minterm: u8,
    copies: bool,
)
    requires inside { index < length bytes.old }
    requires copies { copies ≡ true → bit_and minterm 240 ≡ 192 }
    ensures { (p : ℕ) → row_bit bytes.new p ≡ (if p / 8 == index && bit_at mask (7 - p % 8) == 1
        then minterm_bit minterm (bit_at source (7 - p % 8)) (row_bit bytes.old p)
        else row_bit bytes.old p) }
{
    let value = blit_byte(minterm, source, bytes[index], copies);
    put_masked(bytes, index, mask, value);
}

// The minterm's value for each source bit and old bit of two bytes.
#[inline(always)]
fn blit_byte(minterm: u8, source: u8, old: u8, copies: bool) -> u8
    requires { copies ≡ true → bit_and minterm 240 ≡ 192 }
    ensures { (i : ℕ) → i < 8 → bit_at result i ≡ minterm_bit minterm (bit_at source i) (bit_at old i) }
{
    if copies {
        source
    } else {
        minterm_byte(minterm, source, old)
    }
}
