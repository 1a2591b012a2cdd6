ghost use Rattle.std.specs.Prelude.{◌≡◌, ℕ, ◌+◌, ◌-◌, ◌*◌, ◌/◌, ◌^◌, ◌<◌, ◌≤◌, ◌&&◌, nat_lt, true, if◌then◌else◌, bit_and};
ghost use Rattle.std.specs.Prelude.{length, slice_index};
ghost use Rattle.std.specs.Int.{bit_at};
ghost use Rattle.lw_planes.specs.Row.{row_bit, row_bits};
ghost use Rattle.lw_planes.specs.Minterm.{minterm_bit};
ghost use Rattle.lw_kernels.specs.Kernel.{blit_bit, is_between, is_named, place_in, with_named};
ghost use Rattle.lw_kernels.specs.Spans.{IsSpan, IsWay};

use crate::bytes::{minterm_byte, shifted};
use crate::columns::{copy_columns, goes_by_columns};
use crate::copying::copy_bytes;
use crate::spans::{Span, span_of};
use crate::ways::{Way, bits_from, make_way, put_blit, shift_of, way_of};

/// The minterm of a copy: the value is the source bit B, whatever the old value C is.
pub const COPY_MINTERM: u8 = 0xc0;

/// Blits `count` bits of one row onto those of another: each bit from `to_bit` on becomes the minterm's
/// value for its source bit B, which stands as far from `source_bit` in the source, and its old value
/// C. Minterm bit 0x80 is the value for B and C, 0x40 for B and not C, 0x20 for C and not B, 0x10 for
/// neither; the other bits of `minterm` are not read. All bits named are in their rows, and each other
/// bit of `to` stays as it was.
pub fn combine(to: &mut [u8], to_bit: u32, source: &[u8], source_bit: u32, count: u32, minterm: u8)
    requires to_inside { to_bit + count ≤ 8 * length to.old }
    requires source_inside { source_bit + count ≤ 8 * length source.now }
    ensures bits { row_bits to.new ≡ with_named (row_bits to.old) to_bit count
        (blit_bit minterm (slice_index (row_bits source.now)) source_bit (slice_index (row_bits to.old)) to_bit) }
    ensures each { (x : ℕ) → row_bit to.new x ≡ (if is_named to_bit count x
        then blit_bit minterm (row_bit source.now) source_bit (row_bit to.old) to_bit x
        else row_bit to.old x) }
{
    if count > 0 {
        let (span, place) = (span_of(to_bit, count), source_bit as usize);
        blit_line(to, span, source, place, minterm);
    }
}

// The bits of a span, with the sources from bit `place` on. Each way has code of its own, as in `combine_rows`.
#[inline(always)]
fn blit_line(to: &mut [u8], span: Span, source: &[u8], place: usize, minterm: u8)
    requires span { IsSpan span }
    requires near { span.end < 2 ^ 40 }
    requires near_source { place < 2 ^ 40 }
    requires inside { span.end ≤ 8 * length to.old }
    requires source_inside { place + (span.end - span.from) ≤ 8 * length source.now }
    ensures { (p : ℕ) → row_bit to.new p ≡ (if is_between span.from span.end p
        then blit_bit minterm (row_bit source.now) place (row_bit to.old) span.from p
        else row_bit to.old p) }
{
    let whole = make_way(true, true);
    let across = make_way(true, false);
    let other = make_way(false, false);
    let found = way_of(minterm, span, place);
    if found.copies && found.whole {
        combine_line(to, 0, span, source, 0, place, minterm, whole);
    } else if found.copies {
        combine_line(to, 0, span, source, 0, place, minterm, across);
    } else {
        combine_line(to, 0, span, source, 0, place, minterm, other);
    }
}

/// As `combine`, in each of the first `rows` rows of `to_step` bytes, with the row of the same number of
/// `source_step` bytes for its source. All bits named are in their rows, all rows are in the bytes, and
/// each other bit of `to` stays as it was.
pub fn combine_rows(
    to: &mut [u8],
    to_step: usize,
    to_bit: u32,
    source: &[u8],
    source_step: usize,
    source_bit: u32,
    rows: u32,
    count: u32,
    minterm: u8,
)
    requires to_inside { to_bit + count ≤ 8 * to_step }
    requires to_all { rows * to_step ≤ length to.old }
    requires source_inside { source_bit + count ≤ 8 * source_step }
    requires source_all { rows * source_step ≤ length source.now }
    ensures { (y x : ℕ) → x < 8 * to_step → row_bit to.new (place_in to_step y x) ≡ (if nat_lt y rows && is_named to_bit count x
        then minterm_bit minterm (row_bit source.now (place_in source_step y (source_bit + (x - to_bit))))
        (row_bit to.old (place_in to_step y x))
        else row_bit to.old (place_in to_step y x)) }
{
    if goes_by_columns(
        to_step,
        to_bit,
        source_step,
        source_bit,
        rows,
        count,
        minterm,
    ) {
        copy_columns(
            to,
            to_step,
            to_bit,
            source,
            source_step,
            source_bit,
            rows,
            count,
        );
    } else {
        combine_spans(
            to,
            to_step,
            to_bit,
            source,
            source_step,
            source_bit,
            rows,
            count,
            minterm,
        );
    }
}

// As `combine_rows`, row by row. A call of its own, as those that `copy_columns` makes are.
#[inline(never)]
fn combine_spans(
    to: &mut [u8],
    to_step: usize,
    to_bit: u32,
    source: &[u8],
    source_step: usize,
    source_bit: u32,
    rows: u32,
    count: u32,
    minterm: u8,
)
    requires to_inside { to_bit + count ≤ 8 * to_step }
    requires to_all { rows * to_step ≤ length to.old }
    requires source_inside { source_bit + count ≤ 8 * source_step }
    requires source_all { rows * source_step ≤ length source.now }
    ensures { (y x : ℕ) → x < 8 * to_step → row_bit to.new (place_in to_step y x) ≡ (if nat_lt y rows && is_named to_bit count x
        then minterm_bit minterm (row_bit source.now (place_in source_step y (source_bit + (x - to_bit))))
        (row_bit to.old (place_in to_step y x))
        else row_bit to.old (place_in to_step y x)) }
{
    if count > 0 {
        let (span, place) = (span_of(to_bit, count), source_bit as usize);
        let whole = make_way(true, true);
        let across = make_way(true, false);
        let other = make_way(false, false);
        let found = way_of(minterm, span, place);
        if found.copies && found.whole {
            lines(
                to,
                to_step,
                span,
                source,
                source_step,
                place,
                rows,
                minterm,
                whole,
            );
        } else if found.copies {
            lines(
                to,
                to_step,
                span,
                source,
                source_step,
                place,
                rows,
                minterm,
                across,
            );
        } else {
            lines(
                to,
                to_step,
                span,
                source,
                source_step,
                place,
                rows,
                minterm,
                other,
            );
        }
    }
}

// The bits of a span in each row, with the sources from bit `place` of each row on. Each way has a loop of its own,
// since the compiler leaves out what a known one doesn't need.
#[inline(always)]
fn lines(
    to: &mut [u8],
    to_step: usize,
    span: Span,
    source: &[u8],
    source_step: usize,
    place: usize,
    rows: u32,
    minterm: u8,
    way: Way,
)
    requires span { IsSpan span }
    requires way { IsWay minterm span place way }
    requires to_inside { span.end ≤ 8 * to_step }
    requires to_all { rows * to_step ≤ length to.old }
    requires source_inside { place + (span.end - span.from) ≤ 8 * source_step }
    requires source_all { rows * source_step ≤ length source.now }
    requires near { span.end < 2 ^ 40 }
    requires near_source { place < 2 ^ 40 }
    ensures { (y x : ℕ) → x < 8 * to_step
        → row_bit to.new (place_in to_step y x) ≡ (if nat_lt y rows && is_between span.from span.end x
        then minterm_bit minterm (row_bit source.now (place_in source_step y (place + (x - span.from))))
        (row_bit to.old (place_in to_step y x))
        else row_bit to.old (place_in to_step y x)) }
{
    for row in 0..rows {
        let at = row as usize * to_step;
        let start = row as usize * source_step;
        combine_line(to, at, span, source, start, place, minterm, way);
    }
}

// The bits of a span in the row that begins at byte `at`, with the sources from bit `place` past byte `start` on. Whole
// bytes go without masks. They come last, so that nothing is kept for later where `memcpy` writes them.
#[inline(always)]
fn combine_line(
    to: &mut [u8],
    at: usize,
    span: Span,
    source: &[u8],
    start: usize,
    place: usize,
    minterm: u8,
    way: Way,
)
    requires span { IsSpan span }
    requires way { IsWay minterm span place way }
    requires near { span.end < 2 ^ 40 }
    requires near_source { place < 2 ^ 40 }
    requires inside { 8 * at + span.end ≤ 8 * length to.old }
    requires source_inside { 8 * start + place + (span.end - span.from) ≤ 8 * length source.now }
    ensures { (p : ℕ) → row_bit to.new p ≡ (if is_between (8 * at + span.from) (8 * at + span.end) p
        then blit_bit minterm (row_bit source.now) (8 * start + place) (row_bit to.old) (8 * at + span.from) p
        else row_bit to.old p) }
{
    let end = place + (span.end - span.from);
    let head = bits_from(source, start, place, end, span.from % 8, way.whole);
    put_blit(to, at + span.first, span.head, head, minterm, way.copies);
    let late = place + (span.rest - span.from);
    let tail = bits_from(source, start, late, end, span.rest % 8, way.whole);
    put_blit(to, at + span.last, span.tail, tail, minterm, way.copies);
    let middle = place + (span.cut - span.from);
    let shift = shift_of(middle, way.whole);
    combine_bytes(
        to,
        at + span.next,
        at + span.last,
        source,
        start + middle / 8,
        shift,
        minterm,
        way.copies,
    );
}

// The bytes from `first` on, before `last`.
#[inline(always)]
fn combine_bytes(
    to: &mut [u8],
    first: usize,
    last: usize,
    source: &[u8],
    start: usize,
    shift: usize,
    minterm: u8,
    copies: bool,
)
    requires low { shift < 8 }
    requires copies { copies ≡ true → bit_and minterm 240 ≡ 192 }
    requires ordered { first ≤ last }
    requires inside { last ≤ length to.old }
    requires source_inside { 8 * start + shift + 8 * (last - first) ≤ 8 * length source.now }
    ensures { (x : ℕ) → row_bit to.new x ≡ (if is_between (8 * first) (8 * last) x
        then blit_bit minterm (row_bit source.now) (8 * start + shift) (row_bit to.old) (8 * first) x
        else row_bit to.old x) }
{
    if copies {
        copy_bytes(to, first, last, source, start, shift);
    } else if shift == 0 {
        combine_whole(to, first, last, source, start, minterm);
    } else {
        combine_shifted(to, first, last, source, start, shift, minterm);
    }
}

// From byte `start` of the source on. Each minterm has a loop of its own, in which no bit of it is looked at.
pub(crate) fn combine_whole(
    to: &mut [u8],
    first: usize,
    last: usize,
    source: &[u8],
    start: usize,
    minterm: u8,
)
    requires ordered { first ≤ last }
    requires inside { last ≤ length to.old }
    requires source_inside { start + (last - first) ≤ length source.now }
    ensures { (x : ℕ) → row_bit to.new x ≡ (if is_between (8 * first) (8 * last) x
        then blit_bit minterm (row_bit source.now) (8 * start) (row_bit to.old) (8 * first) x
        else row_bit to.old x) }
{
    match minterm >> 4 {
        0 => combine_by(to, first, last, source, start, 0x00),
        1 => combine_by(to, first, last, source, start, 0x10),
        2 => combine_by(to, first, last, source, start, 0x20),
        3 => combine_by(to, first, last, source, start, 0x30),
        4 => combine_by(to, first, last, source, start, 0x40),
        5 => combine_by(to, first, last, source, start, 0x50),
        6 => combine_by(to, first, last, source, start, 0x60),
        7 => combine_by(to, first, last, source, start, 0x70),
        8 => combine_by(to, first, last, source, start, 0x80),
        9 => combine_by(to, first, last, source, start, 0x90),
        10 => combine_by(to, first, last, source, start, 0xa0),
        11 => combine_by(to, first, last, source, start, 0xb0),
        12 => combine_by(to, first, last, source, start, 0xc0),
        13 => combine_by(to, first, last, source, start, 0xd0),
        14 => combine_by(to, first, last, source, start, 0xe0),
        _ => combine_by(to, first, last, source, start, 0xf0),
    }
}

// As `combine_whole`, for each minterm with the same upper four bits.
#[inline(always)]
fn combine_by(to: &mut [u8], first: usize, last: usize, source: &[u8], start: usize, minterm: u8)
    requires ordered { first ≤ last }
    requires inside { last ≤ length to.old }
    requires source_inside { start + (last - first) ≤ length source.now }
    ensures { (m x : ℕ) → m / 16 ≡ minterm / 16 → row_bit to.new x ≡ (if is_between (8 * first) (8 * last) x
        then blit_bit m (row_bit source.now) (8 * start) (row_bit to.old) (8 * first) x
        else row_bit to.old x) }
{
    for index in first..last {
        to[index] = minterm_byte(minterm, source[start + (index - first)], to[index]);
    }
}

// From bit `shift` of byte `start` of the source on.
fn combine_shifted(
    to: &mut [u8],
    first: usize,
    last: usize,
    source: &[u8],
    start: usize,
    shift: usize,
    minterm: u8,
)
    requires some { 0 < shift }
    requires low { shift < 8 }
    requires ordered { first ≤ last }
    requires inside { last ≤ length to.old }
    requires source_inside { start + (last - first) < length source.now }
    ensures { (x : ℕ) → row_bit to.new x ≡ (if is_between (8 * first) (8 * last) x
        then blit_bit minterm (row_bit source.now) (8 * start + shift) (row_bit to.old) (8 * first) x
        else row_bit to.old x) }
{
    for index in first..last {
        let at = start + (index - first);
        let bits = shifted(source[at], source[at + 1], shift);
        to[index] = minterm_byte(minterm, bits, to[index]);
    }
}
