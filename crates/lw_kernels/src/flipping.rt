ghost use Rattle.std.specs.Prelude.{◌≡◌, ℕ, ◌+◌, ◌-◌, ◌*◌, ◌<◌, ◌≤◌, ◌&&◌, nat_lt, if◌then◌else◌, length, slice_index};
ghost use Rattle.lw_planes.specs.Row.{row_bit, row_bits};
ghost use Rattle.lw_kernels.specs.Kernel.{is_between, is_named, place_in, with_named};
ghost use Rattle.lw_kernels.specs.Spans.{IsSpan};

use crate::bytes::mask;
use crate::copying::{copy_plain, put_block};
use crate::spans::{Span, put_masked, span_of};

/// Inverts the `count` bits of the row from bit `from` on. All of them are in the row, and each other
/// bit stays as it was.
pub fn flip(row: &mut [u8], from: u32, count: u32)
    requires { from + count ≤ 8 * length row.old }
    ensures bits { row_bits row.new ≡ with_named (row_bits row.old) from count (λ x. 1 - slice_index (row_bits row.old) x) }
    ensures each { (x : ℕ) → row_bit row.new x ≡ (if is_named from count x then 1 - row_bit row.old x else row_bit row.old x) }
{
    if count > 0 {
        flip_run(row, from, count);
    }
}

// As `flip`, of one bit at least. Bits of one byte need one mask alone.
fn flip_run(row: &mut [u8], from: u32, count: u32)
    requires some { 0 < count }
    requires inside { from + count ≤ 8 * length row.old }
    ensures { (p : ℕ) → row_bit row.new p
        ≡ (if is_between from (from + count) p then 1 - row_bit row.old p else row_bit row.old p) }
{
    if count <= 8 - from % 8 {
        let from = from as usize;
        let index = from / 8;
        let flipped = !row[index];
        put_masked(
            row,
            index,
            mask(from, from + count as usize, index),
            flipped,
        );
    } else {
        flip_line(row, 0, span_of(from, count));
    }
}

/// As `flip`, in each of the first `rows` rows of `step` bytes: inverts their `count` bits from bit
/// `from` of each row on. All of them are in their rows, all rows are in the bytes, and each other bit
/// stays as it was.
pub fn flip_rows(bytes: &mut [u8], step: usize, rows: u32, from: u32, count: u32)
    requires inside { from + count ≤ 8 * step }
    requires all { rows * step ≤ length bytes.old }
    ensures { (y x : ℕ) → x < 8 * step → row_bit bytes.new (place_in step y x) ≡ (if nat_lt y rows && is_named from count x
        then 1 - row_bit bytes.old (place_in step y x)
        else row_bit bytes.old (place_in step y x)) }
{
    if count > 0 {
        flip_lines(bytes, step, rows, span_of(from, count));
    }
}

// The bits of a span in each row.
fn flip_lines(bytes: &mut [u8], step: usize, rows: u32, span: Span)
    requires span { IsSpan span }
    requires inside { span.end ≤ 8 * step }
    requires all { rows * step ≤ length bytes.old }
    ensures { (y x : ℕ) → x < 8 * step
        → row_bit bytes.new (place_in step y x) ≡ (if nat_lt y rows && is_between span.from span.end x
        then 1 - row_bit bytes.old (place_in step y x)
        else row_bit bytes.old (place_in step y x)) }
{
    for row in 0..rows {
        flip_line(bytes, row as usize * step, span);
    }
}

// The bits of a span in the row that begins at byte `at`.
#[inline(always)]
fn flip_line(bytes: &mut [u8], at: usize, span: Span)
    requires span { IsSpan span }
    requires inside { 8 * at + span.end ≤ 8 * length bytes.old }
    ensures { (p : ℕ) → row_bit bytes.new p ≡ (if is_between (8 * at + span.from) (8 * at + span.end) p
        then 1 - row_bit bytes.old p
        else row_bit bytes.old p) }
{
    let head = !bytes[at + span.first];
    put_masked(bytes, at + span.first, span.head, head);
    let tail = !bytes[at + span.last];
    put_masked(bytes, at + span.last, span.tail, tail);
    flip_whole(bytes, at + span.next, at + span.last);
}

// The bytes from `first` on, before `last`.
#[inline(always)]
fn flip_whole(row: &mut [u8], first: usize, last: usize)
    requires ordered { first ≤ last }
    requires inside { last ≤ length row.old }
    ensures { (x : ℕ) → row_bit row.new x ≡ (if is_between (8 * first) (8 * last) x
        then 1 - row_bit row.old x
        else row_bit row.old x) }
{
    let count = last - first;
    if count > 128 {
        flip_ends(row, first, last, count / 16 * 16, 16);
    } else if count >= 8 {
        flip_many(row, first, last);
    } else if count >= 4 {
        flip_ends(row, first, last, 4, 4);
    } else if count >= 2 {
        flip_ends(row, first, last, 2, 2);
    } else if count == 1 {
        flip_bytes(row, first, 1);
    }
}

// As `flip_whole`.
#[inline(always)]
fn flip_many(row: &mut [u8], first: usize, last: usize)
    requires many { first + 8 ≤ last }
    requires few { last ≤ first + 128 }
    requires inside { last ≤ length row.old }
    ensures { (x : ℕ) → row_bit row.new x ≡ (if is_between (8 * first) (8 * last) x
        then 1 - row_bit row.old x
        else row_bit row.old x) }
{
    let count = last - first;
    if count <= 16 {
        flip_ends(row, first, last, 8, 8);
    } else if count <= 32 {
        flip_ends(row, first, last, 16, 16);
    } else if count <= 64 {
        flip_ends(row, first, last, 32, 32);
    } else {
        flip_ends(row, first, last, 64, 64);
    }
}

// As many first bytes as `wide`, and as many last ones as `size`: these are inverted beside the row before the first
// are, so that bytes of both are inverted once.
#[inline(always)]
fn flip_ends(row: &mut [u8], first: usize, last: usize, wide: usize, size: usize)
    requires few { size ≤ 64 }
    requires one_inside { first + size ≤ last }
    requires other_inside { first + wide ≤ last }
    requires cover { last ≤ first + wide + size }
    requires inside { last ≤ length row.old }
    ensures { (x : ℕ) → row_bit row.new x ≡ (if is_between (8 * first) (8 * last) x
        then 1 - row_bit row.old x
        else row_bit row.old x) }
{
    let mut tail = [0; 64];
    copy_plain(&mut tail, 0, row, last - size, size);
    flip_bytes(&mut tail, 0, size);
    flip_bytes(row, first, wide);
    put_block(row, last - size, &tail, size);
}

// As many bytes from `first` on, one after another.
#[inline(always)]
fn flip_bytes(row: &mut [u8], first: usize, count: usize)
    requires inside { first + count ≤ length row.old }
    ensures { (x : ℕ) → row_bit row.new x ≡ (if is_between (8 * first) (8 * (first + count)) x
        then 1 - row_bit row.old x
        else row_bit row.old x) }
{
    for index in 0..count {
        row[first + index] = !row[first + index];
    }
}
