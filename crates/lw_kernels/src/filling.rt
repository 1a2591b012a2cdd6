ghost use Rattle.std.specs.Prelude.{◌≡◌, ℕ, ◌+◌, ◌*◌, ◌<◌, ◌≤◌, ◌&&◌, nat_lt, if◌then◌else◌, length};
ghost use Rattle.lw_planes.specs.Row.{bit_of, row_bit, row_bits};
ghost use Rattle.lw_kernels.specs.Kernel.{is_between, is_named, place_in, with_named};
ghost use Rattle.lw_kernels.specs.Spans.{IsSpan};

use crate::bytes::{mask, spread};
use crate::spans::{Span, put_masked, span_of};

/// Gives the `count` bits of the row from bit `from` on this value. All of them are in the row, and
/// each other bit stays as it was.
pub fn fill(row: &mut [u8], from: u32, count: u32, bit: bool)
    requires { from + count ≤ 8 * length row.old }
    ensures bits { row_bits row.new ≡ with_named (row_bits row.old) from count (λ _. bit_of bit) }
    ensures each { (x : ℕ) → row_bit row.new x ≡ (if is_named from count x then bit_of bit else row_bit row.old x) }
{
    if count > 0 {
        fill_run(row, from, count, bit);
    }
}

// As `fill`, of one bit at least. Bits of one byte, such as those of a steep line, need one mask alone.
fn fill_run(row: &mut [u8], from: u32, count: u32, bit: bool)
    requires some { 0 < count }
    requires inside { from + count ≤ 8 * length row.old }
    ensures { (p : ℕ) → row_bit row.new p ≡ (if is_between from (from + count) p then bit_of bit else row_bit row.old p) }
{
    if count <= 8 - from % 8 {
        let from = from as usize;
        let index = from / 8;
        put_masked(
            row,
            index,
            mask(from, from + count as usize, index),
            spread(bit),
        );
    } else {
        fill_line(row, 0, span_of(from, count), bit);
    }
}

/// As `fill`, in each of the first `rows` rows of `step` bytes: gives their `count` bits from bit `from`
/// of each row on this value. All of them are in their rows, all rows are in the bytes, and each other
/// bit stays as it was.
pub fn fill_rows(bytes: &mut [u8], step: usize, rows: u32, from: u32, count: u32, bit: bool)
    requires inside { from + count ≤ 8 * step }
    requires all { rows * step ≤ length bytes.old }
    ensures { (y x : ℕ) → x < 8 * step → row_bit bytes.new (place_in step y x) ≡ (if nat_lt y rows && is_named from count x
        then bit_of bit
        else row_bit bytes.old (place_in step y x)) }
{
    if count > 0 {
        fill_lines(bytes, step, rows, span_of(from, count), bit);
    }
}

// The bits of a span in each row.
fn fill_lines(bytes: &mut [u8], step: usize, rows: u32, span: Span, bit: bool)
    requires span { IsSpan span }
    requires inside { span.end ≤ 8 * step }
    requires all { rows * step ≤ length bytes.old }
    ensures { (y x : ℕ) → x < 8 * step
        → row_bit bytes.new (place_in step y x) ≡ (if nat_lt y rows && is_between span.from span.end x
        then bit_of bit
        else row_bit bytes.old (place_in step y x)) }
{
    for row in 0..rows {
        fill_line(bytes, row as usize * step, span, bit);
    }
}

// The bits of a span in the row that begins at byte `at`.
#[inline(always)]
fn fill_line(bytes: &mut [u8], at: usize, span: Span, bit: bool)
    requires span { IsSpan span }
    requires inside { 8 * at + span.end ≤ 8 * length bytes.old }
    ensures { (p : ℕ) → row_bit bytes.new p ≡ (if is_between (8 * at + span.from) (8 * at + span.end) p
        then bit_of bit
        else row_bit bytes.old p) }
{
    let value = spread(bit);
    put_masked(bytes, at + span.first, span.head, value);
    put_masked(bytes, at + span.last, span.tail, value);
    fill_whole(bytes, at + span.next, at + span.last, bit);
}

// The bytes from `first` on, before `last`. The compiler makes one store of a fixed number of bytes, which may be
// written twice, and a call of `memset` of any other.
fn fill_whole(row: &mut [u8], first: usize, last: usize, bit: bool)
    requires ordered { first ≤ last }
    requires inside { last ≤ length row.old }
    ensures { (x : ℕ) → row_bit row.new x ≡ (if is_between (8 * first) (8 * last) x
        then bit_of bit
        else row_bit row.old x) }
{
    let count = last - first;
    if count > 8 {
        fill_many(row, first, last, bit);
    } else if count >= 4 {
        fill_bytes(row, first, 4, bit);
        fill_bytes(row, last - 4, 4, bit);
    } else if count >= 2 {
        fill_bytes(row, first, 2, bit);
        fill_bytes(row, last - 2, 2, bit);
    } else if count == 1 {
        fill_bytes(row, first, 1, bit);
    }
}

// As `fill_whole`.
#[inline(always)]
fn fill_many(row: &mut [u8], first: usize, last: usize, bit: bool)
    requires many { first + 8 ≤ last }
    requires inside { last ≤ length row.old }
    ensures { (x : ℕ) → row_bit row.new x ≡ (if is_between (8 * first) (8 * last) x
        then bit_of bit
        else row_bit row.old x) }
{
    let count = last - first;
    if count > 128 {
        fill_bytes(row, first, count, bit);
    } else if count > 64 {
        fill_bytes(row, first, 64, bit);
        fill_bytes(row, last - 64, 64, bit);
    } else if count > 32 {
        fill_bytes(row, first, 32, bit);
        fill_bytes(row, last - 32, 32, bit);
    } else if count >= 16 {
        fill_bytes(row, first, 16, bit);
        fill_bytes(row, last - 16, 16, bit);
    } else {
        fill_bytes(row, first, 8, bit);
        fill_bytes(row, last - 8, 8, bit);
    }
}

// As many bytes from `first` on, one after another.
#[inline(always)]
fn fill_bytes(row: &mut [u8], first: usize, count: usize, bit: bool)
    requires inside { first + count ≤ length row.old }
    ensures { (x : ℕ) → row_bit row.new x ≡ (if is_between (8 * first) (8 * (first + count)) x
        then bit_of bit
        else row_bit row.old x) }
{
    let value = spread(bit);
    for index in 0..count {
        row[first + index] = value;
    }
}
