// Blits within the same bytes.

ghost use Rattle.std.specs.Prelude.{◌≡◌, ℕ, ◌+◌, ◌-◌, ◌*◌, ◌^◌, ◌<◌, ◌≤◌, ◌&&◌, true, if◌then◌else◌, bit_and, length};
ghost use Rattle.std.specs.Prelude.{slice_index};
ghost use Rattle.lw_planes.specs.Row.{row_bit, row_bits};
ghost use Rattle.lw_planes.specs.Minterm.{minterm_bit};
ghost use Rattle.lw_kernels.specs.Kernel.{blit_bit, is_between, is_named, place_in, with_named};
ghost use Rattle.lw_kernels.specs.Spans.{IsSpan, IsWay};

use crate::bytes::minterm_byte;
use crate::combining::combine_whole;
use crate::copying::copy_bytes;
use crate::moving::move_bytes;
use crate::spans::{Span, span_of};
use crate::ways::{Way, bits_from, make_way, put_blit, shift_of, way_of};

// The bytes that a blit other than a copy fetches at a time.
const PIECE: usize = 256;

// No more bytes than this are one piece, with less room.
const SHORT: usize = 64;

// Fewer bytes go one by one.
const MANY: usize = 4;

/// Blits `count` bits of a row from `source_bit` on onto those of the same row from `to_bit` on, as
/// `combine` does. The sources are the bits as they were before the call. All bits named are in the row,
/// and each bit that is not written stays as it was.
pub fn combine_within(row: &mut [u8], to_bit: u32, source_bit: u32, count: u32, minterm: u8)
    requires to_inside { to_bit + count ≤ 8 * length row.old }
    requires source_inside { source_bit + count ≤ 8 * length row.old }
    ensures bits { row_bits row.new ≡ with_named (row_bits row.old) to_bit count
        (blit_bit minterm (slice_index (row_bits row.old)) source_bit (slice_index (row_bits row.old)) to_bit) }
    ensures each { (x : ℕ) → row_bit row.new x ≡ (if is_named to_bit count x
        then blit_bit minterm (row_bit row.old) source_bit (row_bit row.old) to_bit x
        else row_bit row.old x) }
{
    if count > 0 {
        let (span, place) = (span_of(to_bit, count), source_bit as usize);
        let way = way_of(minterm, span, place);
        line_within(row, 0, span, 0, place, minterm, way);
    }
}

/// Where a block of bits begins: in which row, and at which bit of it.
#[derive(Clone, Copy)]
pub struct Corner {
    /// The number of the row, from 0.
    pub row: u32,
    /// The bit of the row.
    pub bit: u32,
}

/// Blits a block of `rows` rows of `count` bits onto another one of the same bytes, as `combine_rows`
/// does. The bytes are rows of `step` bytes, and the blocks begin at `to` and at `source`. The sources are
/// the bits as they were before the call, however the blocks overlap. All bits named are in their rows,
/// all rows are in the bytes, and each other bit stays as it was.
pub fn combine_rows_within(
    bytes: &mut [u8],
    step: usize,
    to: Corner,
    source: Corner,
    rows: u32,
    count: u32,
    minterm: u8,
)
    requires to_inside { to.bit + count ≤ 8 * step }
    requires to_all { (to.row + rows) * step ≤ length bytes.old }
    requires source_inside { source.bit + count ≤ 8 * step }
    requires source_all { (source.row + rows) * step ≤ length bytes.old }
    ensures { (y x : ℕ) → x < 8 * step
        → row_bit bytes.new (place_in step y x) ≡ (if is_named to.row rows y && is_named to.bit count x
        then minterm_bit minterm (row_bit bytes.old (place_in step (source.row + (y - to.row)) (source.bit + (x - to.bit))))
        (row_bit bytes.old (place_in step y x))
        else row_bit bytes.old (place_in step y x)) }
{
    if count > 0 {
        let (span, place) = (span_of(to.bit, count), source.bit as usize);
        let whole = make_way(true, true);
        let across = make_way(true, false);
        let other = make_way(false, false);
        let found = way_of(minterm, span, place);
        if found.copies && found.whole {
            rows_within(bytes, step, span, to.row, source, rows, minterm, whole);
        } else if found.copies {
            rows_within(bytes, step, span, to.row, source, rows, minterm, across);
        } else {
            rows_within(bytes, step, span, to.row, source, rows, minterm, other);
        }
    }
}

// The bits of a span in each row from row `to` on.
#[inline(always)]
fn rows_within(
    bytes: &mut [u8],
    step: usize,
    span: Span,
    to: u32,
    source: Corner,
    rows: u32,
    minterm: u8,
    way: Way,
)
    requires span { IsSpan span }
    requires way { IsWay minterm span source.bit way }
    requires to_inside { span.end ≤ 8 * step }
    requires to_all { (to + rows) * step ≤ length bytes.old }
    requires source_inside { source.bit + (span.end - span.from) ≤ 8 * step }
    requires source_all { (source.row + rows) * step ≤ length bytes.old }
    requires near { span.end < 2 ^ 40 }
    ensures { (y x : ℕ) → x < 8 * step
        → row_bit bytes.new (place_in step y x) ≡ (if is_named to rows y && is_between span.from span.end x
        then minterm_bit minterm (row_bit bytes.old (place_in step (source.row + (y - to)) (source.bit + (x - span.from))))
        (row_bit bytes.old (place_in step y x))
        else row_bit bytes.old (place_in step y x)) }
{
    if to <= source.row {
        rows_down(bytes, step, span, to, source, rows, minterm, way);
    } else {
        rows_up(bytes, step, span, to, source, rows, minterm, way);
    }
}

// Row after row downwards: no source stands in an earlier row than its destination.
#[inline(always)]
fn rows_down(
    bytes: &mut [u8],
    step: usize,
    span: Span,
    to: u32,
    source: Corner,
    rows: u32,
    minterm: u8,
    way: Way,
)
    requires span { IsSpan span }
    requires way { IsWay minterm span source.bit way }
    requires to_inside { span.end ≤ 8 * step }
    requires to_all { (to + rows) * step ≤ length bytes.old }
    requires source_inside { source.bit + (span.end - span.from) ≤ 8 * step }
    requires near { span.end < 2 ^ 40 }
    requires source_all { (source.row + rows) * step ≤ length bytes.old }
    requires after { to ≤ source.row }
    ensures { (y x : ℕ) → x < 8 * step
        → row_bit bytes.new (place_in step y x) ≡ (if is_named to rows y && is_between span.from span.end x
        then minterm_bit minterm (row_bit bytes.old (place_in step (source.row + (y - to)) (source.bit + (x - span.from))))
        (row_bit bytes.old (place_in step y x))
        else row_bit bytes.old (place_in step y x)) }
{
    for row in 0..rows {
        let at = (to as usize + row as usize) * step;
        let from = (source.row as usize + row as usize) * step;
        line_within(bytes, at, span, from, source.bit as usize, minterm, way);
    }
}

// Row after row upwards: no source stands in a later row than its destination.
#[inline(always)]
fn rows_up(
    bytes: &mut [u8],
    step: usize,
    span: Span,
    to: u32,
    source: Corner,
    rows: u32,
    minterm: u8,
    way: Way,
)
    requires span { IsSpan span }
    requires way { IsWay minterm span source.bit way }
    requires to_inside { span.end ≤ 8 * step }
    requires to_all { (to + rows) * step ≤ length bytes.old }
    requires source_inside { source.bit + (span.end - span.from) ≤ 8 * step }
    requires near { span.end < 2 ^ 40 }
    requires source_all { (source.row + rows) * step ≤ length bytes.old }
    requires before { source.row ≤ to }
    ensures { (y x : ℕ) → x < 8 * step
        → row_bit bytes.new (place_in step y x) ≡ (if is_named to rows y && is_between span.from span.end x
        then minterm_bit minterm (row_bit bytes.old (place_in step (source.row + (y - to)) (source.bit + (x - span.from))))
        (row_bit bytes.old (place_in step y x))
        else row_bit bytes.old (place_in step y x)) }
{
    for row in (0..rows).rev() {
        let at = (to as usize + row as usize) * step;
        let from = (source.row as usize + row as usize) * step;
        line_within(bytes, at, span, from, source.bit as usize, minterm, way);
    }
}

// The bits of a span in the row that begins at byte `at`, with the sources from bit `place` past byte `source` on. Those of
// both ends are read before any byte is written.
#[inline(always)]
fn line_within(
    bytes: &mut [u8],
    at: usize,
    span: Span,
    source: usize,
    place: usize,
    minterm: u8,
    way: Way,
)
    requires span { IsSpan span }
    requires way { IsWay minterm span place way }
    requires near { span.end < 2 ^ 40 }
    requires near_source { place < 2 ^ 40 }
    requires inside { 8 * at + span.end ≤ 8 * length bytes.old }
    requires source_inside { 8 * source + place + (span.end - span.from) ≤ 8 * length bytes.old }
    ensures { (p : ℕ) → row_bit bytes.new p ≡ (if is_between (8 * at + span.from) (8 * at + span.end) p
        then blit_bit minterm (row_bit bytes.old) (8 * source + place) (row_bit bytes.old) (8 * at + span.from) p
        else row_bit bytes.old p) }
{
    let end = place + (span.end - span.from);
    let head = bits_from(bytes, source, place, end, span.from % 8, way.whole);
    let late = place + (span.rest - span.from);
    let tail = bits_from(bytes, source, late, end, span.rest % 8, way.whole);
    let middle = place + (span.cut - span.from);
    let shift = shift_of(middle, way.whole);
    within_bytes(
        bytes,
        at + span.next,
        at + span.last,
        source + middle / 8,
        shift,
        minterm,
        way.copies,
    );
    put_blit(bytes, at + span.first, span.head, head, minterm, way.copies);
    put_blit(bytes, at + span.last, span.tail, tail, minterm, way.copies);
}

// The bytes from `first` on, before `last`.
#[inline(always)]
fn within_bytes(
    row: &mut [u8],
    first: usize,
    last: usize,
    start: usize,
    shift: usize,
    minterm: u8,
    copies: bool,
)
    requires low { shift < 8 }
    requires copies { copies ≡ true → bit_and minterm 240 ≡ 192 }
    requires ordered { first ≤ last }
    requires inside { last ≤ length row.old }
    requires source_inside { 8 * start + shift + 8 * (last - first) ≤ 8 * length row.old }
    ensures { (x : ℕ) → row_bit row.new x ≡ (if is_between (8 * first) (8 * last) x
        then blit_bit minterm (row_bit row.old) (8 * start + shift) (row_bit row.old) (8 * first) x
        else row_bit row.old x) }
{
    if copies {
        move_bytes(row, first, last, start, shift);
    } else if last - first >= MANY {
        within_many(row, first, last, start, shift, minterm);
    } else if first <= start {
        bytes_forwards(row, first, last, start, shift, minterm);
    } else {
        bytes_backwards(row, first, last, start, shift, minterm);
    }
}

// As `within_bytes`.
fn within_many(row: &mut [u8], first: usize, last: usize, start: usize, shift: usize, minterm: u8)
    requires low { shift < 8 }
    requires ordered { first ≤ last }
    requires inside { last ≤ length row.old }
    requires source_inside { 8 * start + shift + 8 * (last - first) ≤ 8 * length row.old }
    ensures { (x : ℕ) → row_bit row.new x ≡ (if is_between (8 * first) (8 * last) x
        then blit_bit minterm (row_bit row.old) (8 * start + shift) (row_bit row.old) (8 * first) x
        else row_bit row.old x) }
{
    if last - first <= SHORT {
        within_short(row, first, last, start, shift, minterm);
    } else if first <= start {
        pieces_forwards(row, first, last, start, shift, minterm);
    } else {
        pieces_backwards(row, first, last, start, shift, minterm);
    }
}

// As `within_bytes`, for one piece with little room.
fn within_short(row: &mut [u8], first: usize, last: usize, start: usize, shift: usize, minterm: u8)
    requires low { shift < 8 }
    requires ordered { first ≤ last }
    requires short { last - first ≤ 64 }
    requires inside { last ≤ length row.old }
    requires source_inside { 8 * start + shift + 8 * (last - first) ≤ 8 * length row.old }
    ensures { (x : ℕ) → row_bit row.new x ≡ (if is_between (8 * first) (8 * last) x
        then blit_bit minterm (row_bit row.old) (8 * start + shift) (row_bit row.old) (8 * first) x
        else row_bit row.old x) }
{
    let mut fetched = [0; SHORT];
    combine_piece(row, first, last, start, shift, minterm, &mut fetched);
}

// Byte after byte to the right: no source stands left of its destination.
#[inline(always)]
fn bytes_forwards(
    row: &mut [u8],
    first: usize,
    last: usize,
    start: usize,
    shift: usize,
    minterm: u8,
)
    requires low { shift < 8 }
    requires ordered { first ≤ last }
    requires inside { last ≤ length row.old }
    requires source_inside { 8 * start + shift + 8 * (last - first) ≤ 8 * length row.old }
    requires leftwards { first ≤ start }
    ensures { (x : ℕ) → row_bit row.new x ≡ (if is_between (8 * first) (8 * last) x
        then blit_bit minterm (row_bit row.old) (8 * start + shift) (row_bit row.old) (8 * first) x
        else row_bit row.old x) }
{
    for index in first..last {
        let bits = bits_from(row, start + (index - first), shift, shift + 8, 0, false);
        row[index] = minterm_byte(minterm, bits, row[index]);
    }
}

// Byte after byte to the left: no source stands right of its destination.
#[inline(always)]
fn bytes_backwards(
    row: &mut [u8],
    first: usize,
    last: usize,
    start: usize,
    shift: usize,
    minterm: u8,
)
    requires low { shift < 8 }
    requires ordered { first ≤ last }
    requires inside { last ≤ length row.old }
    requires source_inside { 8 * start + shift + 8 * (last - first) ≤ 8 * length row.old }
    requires rightwards { start < first }
    ensures { (x : ℕ) → row_bit row.new x ≡ (if is_between (8 * first) (8 * last) x
        then blit_bit minterm (row_bit row.old) (8 * start + shift) (row_bit row.old) (8 * first) x
        else row_bit row.old x) }
{
    for index in (first..last).rev() {
        let bits = bits_from(row, start + (index - first), shift, shift + 8, 0, false);
        row[index] = minterm_byte(minterm, bits, row[index]);
    }
}

// Piece after piece to the right: no source stands left of its destination.
fn pieces_forwards(
    row: &mut [u8],
    first: usize,
    last: usize,
    start: usize,
    shift: usize,
    minterm: u8,
)
    requires low { shift < 8 }
    requires ordered { first ≤ last }
    requires inside { last ≤ length row.old }
    requires source_inside { 8 * start + shift + 8 * (last - first) ≤ 8 * length row.old }
    requires leftwards { first ≤ start }
    ensures { (x : ℕ) → row_bit row.new x ≡ (if is_between (8 * first) (8 * last) x
        then blit_bit minterm (row_bit row.old) (8 * start + shift) (row_bit row.old) (8 * first) x
        else row_bit row.old x) }
{
    let mut fetched = [0; PIECE];
    for number in 0..(last - first).div_ceil(PIECE) {
        let from = first + PIECE * number;
        let end = last.min(from + PIECE);
        combine_piece(
            row,
            from,
            end,
            start + (from - first),
            shift,
            minterm,
            &mut fetched,
        );
    }
}

// Piece after piece to the left: no source stands right of its destination.
fn pieces_backwards(
    row: &mut [u8],
    first: usize,
    last: usize,
    start: usize,
    shift: usize,
    minterm: u8,
)
    requires low { shift < 8 }
    requires ordered { first ≤ last }
    requires inside { last ≤ length row.old }
    requires source_inside { 8 * start + shift + 8 * (last - first) ≤ 8 * length row.old }
    requires rightwards { start < first }
    ensures { (x : ℕ) → row_bit row.new x ≡ (if is_between (8 * first) (8 * last) x
        then blit_bit minterm (row_bit row.old) (8 * start + shift) (row_bit row.old) (8 * first) x
        else row_bit row.old x) }
{
    let mut fetched = [0; PIECE];
    for number in (0..(last - first).div_ceil(PIECE)).rev() {
        let from = first + PIECE * number;
        let end = last.min(from + PIECE);
        combine_piece(
            row,
            from,
            end,
            start + (from - first),
            shift,
            minterm,
            &mut fetched,
        );
    }
}

// The bytes from `first` on, before `last`, once all their sources have been fetched.
fn combine_piece(
    row: &mut [u8],
    first: usize,
    last: usize,
    start: usize,
    shift: usize,
    minterm: u8,
    fetched: &mut [u8],
)
    requires low { shift < 8 }
    requires ordered { first ≤ last }
    requires room { last ≤ first + length fetched.old }
    requires inside { last ≤ length row.old }
    requires source_inside { 8 * start + shift + 8 * (last - first) ≤ 8 * length row.old }
    ensures { (x : ℕ) → row_bit row.new x ≡ (if is_between (8 * first) (8 * last) x
        then blit_bit minterm (row_bit row.old) (8 * start + shift) (row_bit row.old) (8 * first) x
        else row_bit row.old x) }
{
    copy_bytes(fetched, 0, last - first, row, start, shift);
    combine_whole(row, first, last, fetched, 0, minterm);
}
