// Bits of a row that are moved to whole bytes of the same row.

ghost use Rattle.std.specs.Prelude.{◌≡◌, ℕ, ◌+◌, ◌-◌, ◌*◌, ◌^◌, ◌<◌, ◌≤◌, if◌then◌else◌, length};
ghost use Rattle.lw_planes.specs.Row.{row_bit};
ghost use Rattle.lw_kernels.specs.Kernel.{is_between};

use crate::bytes::shifted;
use crate::copying::{copy_plain, copy_shifted, put_block};
use crate::pairs::fetch_pair;

// Gives the bytes from `first` on, before `last`, the bits of the row from bit `shift` of byte `start` on, as
// they were before. Either way is a call for each row: put in line, they would make the loops over rows too large for the
// compiler to keep one for each way of blitting.
#[inline(always)]
pub(crate) fn move_bytes(row: &mut [u8], first: usize, last: usize, start: usize, shift: usize)
    requires low { shift < 8 }
    requires ordered { first ≤ last }
    requires inside { last ≤ length row.old }
    requires source_inside { 8 * start + shift + 8 * (last - first) ≤ 8 * length row.old }
    ensures { (x : ℕ) → row_bit row.new x ≡ (if is_between (8 * first) (8 * last) x
        then row_bit row.old (8 * start + shift + (x - 8 * first))
        else row_bit row.old x) }
{
    if first < last {
        if shift == 0 {
            move_unshifted(row, first, last, start);
        } else {
            move_across(row, first, last, start, shift);
        }
    }
}

// As `move_bytes`, with bits to move across bytes.
fn move_across(row: &mut [u8], first: usize, last: usize, start: usize, shift: usize)
    requires some { 0 < shift }
    requires low { shift < 8 }
    requires ordered { first ≤ last }
    requires inside { last ≤ length row.old }
    requires source_inside { start + (last - first) < length row.old }
    ensures { (x : ℕ) → row_bit row.new x ≡ (if is_between (8 * first) (8 * last) x
        then row_bit row.old (8 * start + shift + (x - 8 * first))
        else row_bit row.old x) }
{
    let count = last - first;
    if count > 64 {
        move_many(row, first, last, start, shift);
    } else if count >= 32 {
        move_ends(row, first, last, start, shift, 32);
    } else if count >= 16 {
        move_ends(row, first, last, start, shift, 16);
    } else if count >= 8 {
        move_pair(row, first, last, start, shift, 8);
    } else {
        move_short(row, first, last, start, shift);
    }
}

// As `move_across`.
#[inline(never)]
fn move_short(row: &mut [u8], first: usize, last: usize, start: usize, shift: usize)
    requires some { 0 < shift }
    requires low { shift < 8 }
    requires ordered { first ≤ last }
    requires few { last - first < 8 }
    requires inside { last ≤ length row.old }
    requires source_inside { start + (last - first) < length row.old }
    ensures { (x : ℕ) → row_bit row.new x ≡ (if is_between (8 * first) (8 * last) x
        then row_bit row.old (8 * start + shift + (x - 8 * first))
        else row_bit row.old x) }
{
    let count = last - first;
    if count >= 4 {
        move_pair(row, first, last, start, shift, 4);
    } else if count >= 2 {
        move_pair(row, first, last, start, shift, 2);
    } else if count == 1 {
        move_block(row, first, start, shift, 1);
    }
}

// As `move_across`: two blocks of as many bytes, made as one before the row is written.
#[inline(always)]
fn move_pair(row: &mut [u8], first: usize, last: usize, start: usize, shift: usize, size: usize)
    requires some { 0 < shift }
    requires low { shift < 8 }
    requires inside { last ≤ length row.old }
    requires source_inside { start + (last - first) < length row.old }
    requires few { size ≤ 8 }
    requires one_inside { first + size ≤ last }
    requires two_cover { last - first ≤ 2 * size }
    ensures { (x : ℕ) → row_bit row.new x ≡ (if is_between (8 * first) (8 * last) x
        then row_bit row.old (8 * start + shift + (x - 8 * first))
        else row_bit row.old x) }
{
    let mut block = [0; 16];
    let other = start + (last - first) - size;
    fetch_pair(&mut block, row, start, other, shift, size);
    copy_plain(row, first, &block, 0, size);
    copy_plain(row, last - size, &block, 8, size);
}

// From byte `start` on.
fn move_unshifted(row: &mut [u8], first: usize, last: usize, start: usize)
    requires ordered { first ≤ last }
    requires inside { last ≤ length row.old }
    requires source_inside { start + (last - first) ≤ length row.old }
    ensures { (x : ℕ) → row_bit row.new x ≡ (if is_between (8 * first) (8 * last) x
        then row_bit row.old (8 * start + (x - 8 * first))
        else row_bit row.old x) }
{
    let count = last - first;
    if count <= 16 {
        move_few(row, first, last, start);
    } else if count <= 32 {
        move_ends(row, first, last, start, 0, 16);
    } else if count <= 64 {
        move_ends(row, first, last, start, 0, 32);
    } else {
        move_whole(row, first, last, start);
    }
}

// As `move_unshifted`.
#[inline(always)]
fn move_few(row: &mut [u8], first: usize, last: usize, start: usize)
    requires ordered { first ≤ last }
    requires few { last - first ≤ 16 }
    requires inside { last ≤ length row.old }
    requires source_inside { start + (last - first) ≤ length row.old }
    ensures { (x : ℕ) → row_bit row.new x ≡ (if is_between (8 * first) (8 * last) x
        then row_bit row.old (8 * start + (x - 8 * first))
        else row_bit row.old x) }
{
    let count = last - first;
    if count >= 8 {
        move_ends(row, first, last, start, 0, 8);
    } else if count >= 4 {
        move_ends(row, first, last, start, 0, 4);
    } else if count >= 2 {
        move_ends(row, first, last, start, 0, 2);
    } else if count == 1 {
        move_block(row, first, start, 0, 1);
    }
}

// As `move_unshifted`.
fn move_whole(row: &mut [u8], first: usize, last: usize, start: usize)
    requires ordered { first ≤ last }
    requires inside { last ≤ length row.old }
    requires source_inside { start + (last - first) ≤ length row.old }
    ensures { (x : ℕ) → row_bit row.new x ≡ (if is_between (8 * first) (8 * last) x
        then row_bit row.old (8 * start + (x - 8 * first))
        else row_bit row.old x) }
{
    row.copy_within(start..start + (last - first), first);
}

// From bit `shift` of byte `start` on. Each shift has code of its own, since vectors of bytes are shifted fast only by
// a constant.
#[inline(never)]
fn move_many(row: &mut [u8], first: usize, last: usize, start: usize, shift: usize)
    requires some { 0 < shift }
    requires low { shift < 8 }
    requires ordered { first ≤ last }
    requires inside { last ≤ length row.old }
    requires source_inside { start + (last - first) < length row.old }
    requires many { 32 < last - first }
    ensures { (x : ℕ) → row_bit row.new x ≡ (if is_between (8 * first) (8 * last) x
        then row_bit row.old (8 * start + shift + (x - 8 * first))
        else row_bit row.old x) }
{
    match shift {
        1 => move_long(row, first, last, start, 1),
        2 => move_long(row, first, last, start, 2),
        3 => move_long(row, first, last, start, 3),
        4 => move_long(row, first, last, start, 4),
        5 => move_long(row, first, last, start, 5),
        6 => move_long(row, first, last, start, 6),
        _ => move_long(row, first, last, start, 7),
    }
}

// Two blocks of as many bytes. Both are made beside the row before one of them is written.
#[inline(always)]
fn move_ends(row: &mut [u8], first: usize, last: usize, start: usize, shift: usize, size: usize)
    requires low { shift < 8 }
    requires ordered { first ≤ last }
    requires inside { last ≤ length row.old }
    requires source_inside { 8 * start + shift + 8 * (last - first) ≤ 8 * length row.old }
    requires few { size ≤ 32 }
    requires one_inside { size ≤ last - first }
    requires two_cover { last - first ≤ 2 * size }
    ensures { (x : ℕ) → row_bit row.new x ≡ (if is_between (8 * first) (8 * last) x
        then row_bit row.old (8 * start + shift + (x - 8 * first))
        else row_bit row.old x) }
{
    let mut tail = [0; 32];
    copy_shifted(
        &mut tail,
        0,
        size,
        row,
        start + (last - first) - size,
        shift,
    );
    move_block(row, first, start, shift, size);
    put_block(row, last - size, &tail, size);
}

// One block, made beside the row before it is written.
#[inline(always)]
fn move_block(row: &mut [u8], first: usize, start: usize, shift: usize, size: usize)
    requires low { shift < 8 }
    requires few { size ≤ 32 }
    requires inside { first + size ≤ length row.old }
    requires source_inside { 8 * start + shift + 8 * size ≤ 8 * length row.old }
    ensures { (x : ℕ) → row_bit row.new x ≡ (if is_between (8 * first) (8 * (first + size)) x
        then row_bit row.old (8 * start + shift + (x - 8 * first))
        else row_bit row.old x) }
{
    let mut block = [0; 32];
    copy_shifted(&mut block, 0, size, row, start, shift);
    put_block(row, first, &block, size);
}

// The last bytes are made beside the row before any is written, so that the loop goes by whole vectors.
#[inline(always)]
fn move_long(row: &mut [u8], first: usize, last: usize, start: usize, shift: usize)
    requires some { 0 < shift }
    requires low { shift < 8 }
    requires ordered { first ≤ last }
    requires inside { last ≤ length row.old }
    requires source_inside { start + (last - first) < length row.old }
    requires many { 32 < last - first }
    ensures { (x : ℕ) → row_bit row.new x ≡ (if is_between (8 * first) (8 * last) x
        then row_bit row.old (8 * start + shift + (x - 8 * first))
        else row_bit row.old x) }
{
    let count = last - first;
    let mut tail = [0; 32];
    copy_shifted(&mut tail, 0, 32, row, start + count - 32, shift);
    move_main(row, first, first + (count - 1) / 32 * 32, start, shift);
    put_block(row, last - 32, &tail, 32);
}

// Byte after byte.
#[inline(always)]
fn move_main(row: &mut [u8], first: usize, last: usize, start: usize, shift: usize)
    requires some { 0 < shift }
    requires low { shift < 8 }
    requires ordered { first ≤ last }
    requires inside { last ≤ length row.old }
    requires source_inside { start + (last - first) < length row.old }
    ensures { (x : ℕ) → row_bit row.new x ≡ (if is_between (8 * first) (8 * last) x
        then row_bit row.old (8 * start + shift + (x - 8 * first))
        else row_bit row.old x) }
{
    if first <= start {
        move_left(row, first, last, start - first, shift);
    } else {
        move_right(row, first, last, first - start, shift);
    }
}

// From bit `shift` of the byte on that stands `ahead` bytes to the right. A move by less than a byte has a loop of its
// own, which the compiler sees to read no byte after it is written.
#[inline(always)]
fn move_left(row: &mut [u8], first: usize, last: usize, ahead: usize, shift: usize)
    requires some { 0 < shift }
    requires low { shift < 8 }
    requires ordered { first ≤ last }
    requires source_inside { ahead + last < length row.old }
    ensures { (x : ℕ) → row_bit row.new x ≡ (if is_between (8 * first) (8 * last) x
        then row_bit row.old (8 * ahead + shift + x)
        else row_bit row.old x) }
{
    if ahead == 0 {
        move_left_bytes(row, first, last, 0, shift);
    } else {
        move_left_bytes(row, first, last, ahead, shift);
    }
}

// Byte after byte to the right.
#[inline(always)]
fn move_left_bytes(row: &mut [u8], first: usize, last: usize, ahead: usize, shift: usize)
    requires some { 0 < shift }
    requires low { shift < 8 }
    requires ordered { first ≤ last }
    requires source_inside { ahead + last < length row.old }
    ensures { (x : ℕ) → row_bit row.new x ≡ (if is_between (8 * first) (8 * last) x
        then row_bit row.old (8 * ahead + shift + x)
        else row_bit row.old x) }
{
    for index in first..last {
        row[index] = shifted(row[index + ahead], row[index + ahead + 1], shift);
    }
}

// From bit `shift` of the byte on that stands `behind` bytes to the left. As `move_left`.
#[inline(always)]
fn move_right(row: &mut [u8], first: usize, last: usize, behind: usize, shift: usize)
    requires some { 0 < shift }
    requires low { shift < 8 }
    requires apart { 0 < behind }
    requires ordered { first ≤ last }
    requires inside { last ≤ length row.old }
    requires source_inside { behind ≤ first }
    ensures { (x : ℕ) → row_bit row.new x ≡ (if is_between (8 * first) (8 * last) x
        then row_bit row.old (x - 8 * behind + shift)
        else row_bit row.old x) }
{
    if behind == 1 {
        move_right_bytes(row, first, last, 1, shift);
    } else {
        move_right_bytes(row, first, last, behind, shift);
    }
}

// Byte after byte to the left.
#[inline(always)]
fn move_right_bytes(row: &mut [u8], first: usize, last: usize, behind: usize, shift: usize)
    requires some { 0 < shift }
    requires low { shift < 8 }
    requires apart { 0 < behind }
    requires ordered { first ≤ last }
    requires inside { last ≤ length row.old }
    requires source_inside { behind ≤ first }
    ensures { (x : ℕ) → row_bit row.new x ≡ (if is_between (8 * first) (8 * last) x
        then row_bit row.old (x - 8 * behind + shift)
        else row_bit row.old x) }
{
    for index in (first..last).rev() {
        row[index] = shifted(row[index - behind], row[index - behind + 1], shift);
    }
}
