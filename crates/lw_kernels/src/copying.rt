// Bits of one row that become whole bytes of another.

ghost use Rattle.std.specs.Prelude.{◌≡◌, ℕ, ◌+◌, ◌-◌, ◌*◌, ◌^◌, ◌<◌, ◌≤◌, if◌then◌else◌, length};
ghost use Rattle.lw_planes.specs.Row.{row_bit};
ghost use Rattle.lw_kernels.specs.Kernel.{is_between};

use crate::bytes::byte_from;
use crate::pairs::fetch_pair;

// Gives the bytes from `first` on, before `last`, the bits of the source from bit `shift` of byte `start` on.
#[inline(always)]
pub(crate) fn copy_bytes(
    to: &mut [u8],
    first: usize,
    last: usize,
    source: &[u8],
    start: usize,
    shift: usize,
)
    requires low { shift < 8 }
    requires ordered { first ≤ last }
    requires inside { last ≤ length to.old }
    requires source_inside { 8 * start + shift + 8 * (last - first) ≤ 8 * length source.now }
    ensures { (x : ℕ) → row_bit to.new x ≡ (if is_between (8 * first) (8 * last) x
        then row_bit source.now (8 * start + shift + (x - 8 * first))
        else row_bit to.old x) }
{
    if shift == 0 {
        copy_unshifted(to, first, last, source, start);
    } else if first < last {
        copy_across(to, first, last, source, start, shift);
    }
}

// As `copy_bytes`, with bits to move across bytes.
#[inline(always)]
fn copy_across(to: &mut [u8], first: usize, last: usize, source: &[u8], start: usize, shift: usize)
    requires some { 0 < shift }
    requires low { shift < 8 }
    requires ordered { first ≤ last }
    requires inside { last ≤ length to.old }
    requires source_inside { start + (last - first) < length source.now }
    ensures { (x : ℕ) → row_bit to.new x ≡ (if is_between (8 * first) (8 * last) x
        then row_bit source.now (8 * start + shift + (x - 8 * first))
        else row_bit to.old x) }
{
    let count = last - first;
    if count > 64 {
        copy_many(to, first, last, source, start, shift);
    } else if count >= 32 {
        copy_ends(to, first, last, source, start, shift, 32);
    } else if count >= 16 {
        copy_ends(to, first, last, source, start, shift, 16);
    } else if count >= 8 {
        copy_pair(to, first, last, source, start, shift, 8);
    } else {
        copy_short(to, first, last, source, start, shift);
    }
}

// As `copy_across`. It is a call of its own, so that the loops over rows stay small.
#[inline(never)]
fn copy_short(to: &mut [u8], first: usize, last: usize, source: &[u8], start: usize, shift: usize)
    requires some { 0 < shift }
    requires low { shift < 8 }
    requires ordered { first ≤ last }
    requires few { last - first < 8 }
    requires inside { last ≤ length to.old }
    requires source_inside { start + (last - first) < length source.now }
    ensures { (x : ℕ) → row_bit to.new x ≡ (if is_between (8 * first) (8 * last) x
        then row_bit source.now (8 * start + shift + (x - 8 * first))
        else row_bit to.old x) }
{
    let count = last - first;
    if count >= 4 {
        copy_pair(to, first, last, source, start, shift, 4);
    } else if count >= 2 {
        copy_pair(to, first, last, source, start, shift, 2);
    } else if count == 1 {
        copy_block(to, first, source, start, shift, 1);
    }
}

// As `copy_across`: two blocks of as many bytes, made as one.
#[inline(always)]
fn copy_pair(
    to: &mut [u8],
    first: usize,
    last: usize,
    source: &[u8],
    start: usize,
    shift: usize,
    size: usize,
)
    requires some { 0 < shift }
    requires low { shift < 8 }
    requires inside { last ≤ length to.old }
    requires source_inside { start + (last - first) < length source.now }
    requires few { size ≤ 8 }
    requires one_inside { first + size ≤ last }
    requires two_cover { last - first ≤ 2 * size }
    ensures { (x : ℕ) → row_bit to.new x ≡ (if is_between (8 * first) (8 * last) x
        then row_bit source.now (8 * start + shift + (x - 8 * first))
        else row_bit to.old x) }
{
    let mut block = [0; 16];
    let other = start + (last - first) - size;
    fetch_pair(&mut block, source, start, other, shift, size);
    copy_plain(to, first, &block, 0, size);
    copy_plain(to, last - size, &block, 8, size);
}

// From byte `start` of the source on. The compiler makes one store of a fixed number of bytes, which may be written
// twice, and a call of `memcpy` of any other.
#[inline(always)]
fn copy_unshifted(to: &mut [u8], first: usize, last: usize, source: &[u8], start: usize)
    requires ordered { first ≤ last }
    requires inside { last ≤ length to.old }
    requires source_inside { start + (last - first) ≤ length source.now }
    ensures { (x : ℕ) → row_bit to.new x ≡ (if is_between (8 * first) (8 * last) x
        then row_bit source.now (8 * start + (x - 8 * first))
        else row_bit to.old x) }
{
    let count = last - first;
    if count <= 16 {
        copy_few(to, first, last, source, start);
    } else if count <= 32 {
        copy_two(to, first, last, source, start, 16);
    } else if count <= 64 {
        copy_two(to, first, last, source, start, 32);
    } else if count <= 128 {
        copy_two(to, first, last, source, start, 64);
    } else {
        copy_whole(to, first, last, source, start);
    }
}

// As `copy_unshifted`.
#[inline(always)]
fn copy_few(to: &mut [u8], first: usize, last: usize, source: &[u8], start: usize)
    requires ordered { first ≤ last }
    requires few { last - first ≤ 16 }
    requires inside { last ≤ length to.old }
    requires source_inside { start + (last - first) ≤ length source.now }
    ensures { (x : ℕ) → row_bit to.new x ≡ (if is_between (8 * first) (8 * last) x
        then row_bit source.now (8 * start + (x - 8 * first))
        else row_bit to.old x) }
{
    let count = last - first;
    if count >= 8 {
        copy_two(to, first, last, source, start, 8);
    } else if count >= 4 {
        copy_two(to, first, last, source, start, 4);
    } else if count >= 2 {
        copy_two(to, first, last, source, start, 2);
    } else if count == 1 {
        copy_whole(to, first, last, source, start);
    }
}

// As `copy_unshifted`: two blocks of as many bytes.
#[inline(always)]
fn copy_two(to: &mut [u8], first: usize, last: usize, source: &[u8], start: usize, size: usize)
    requires inside { last ≤ length to.old }
    requires source_inside { start + (last - first) ≤ length source.now }
    requires one_inside { first + size ≤ last }
    requires two_cover { last - first ≤ 2 * size }
    ensures { (x : ℕ) → row_bit to.new x ≡ (if is_between (8 * first) (8 * last) x
        then row_bit source.now (8 * start + (x - 8 * first))
        else row_bit to.old x) }
{
    let other = start + (last - first) - size;
    copy_whole(to, first, first + size, source, start);
    copy_whole(to, last - size, last, source, other);
}

// As `copy_unshifted`.
#[inline(always)]
fn copy_whole(to: &mut [u8], first: usize, last: usize, source: &[u8], start: usize)
    requires ordered { first ≤ last }
    requires inside { last ≤ length to.old }
    requires source_inside { start + (last - first) ≤ length source.now }
    ensures { (x : ℕ) → row_bit to.new x ≡ (if is_between (8 * first) (8 * last) x
        then row_bit source.now (8 * start + (x - 8 * first))
        else row_bit to.old x) }
{
    to[first..last].copy_from_slice(&source[start..start + (last - first)]);
}

// As many bytes from byte `start` of the source on, byte after byte. The compiler makes one store of a fixed number of
// bytes of a block.
#[inline(always)]
pub(crate) fn copy_plain(to: &mut [u8], first: usize, source: &[u8], start: usize, size: usize)
    requires inside { first + size ≤ length to.old }
    requires source_inside { start + size ≤ length source.now }
    ensures { (x : ℕ) → row_bit to.new x ≡ (if is_between (8 * first) (8 * (first + size)) x
        then row_bit source.now (8 * start + (x - 8 * first))
        else row_bit to.old x) }
{
    for index in 0..size {
        to[first + index] = source[start + index];
    }
}

// From bit `shift` of byte `start` of the source on.
#[inline(always)]
pub(crate) fn copy_shifted(
    to: &mut [u8],
    first: usize,
    last: usize,
    source: &[u8],
    start: usize,
    shift: usize,
)
    requires low { shift < 8 }
    requires ordered { first ≤ last }
    requires inside { last ≤ length to.old }
    requires source_inside { 8 * start + shift + 8 * (last - first) ≤ 8 * length source.now }
    ensures { (x : ℕ) → row_bit to.new x ≡ (if is_between (8 * first) (8 * last) x
        then row_bit source.now (8 * start + shift + (x - 8 * first))
        else row_bit to.old x) }
{
    for index in first..last {
        to[index] = byte_from(source, start + (index - first), shift);
    }
}

// As `copy_shifted`, for many bytes: the last ones are a block, some of whose bytes may be written twice.
#[inline(always)]
fn copy_long(to: &mut [u8], first: usize, last: usize, source: &[u8], start: usize, shift: usize)
    requires some { 0 < shift }
    requires low { shift < 8 }
    requires ordered { first ≤ last }
    requires inside { last ≤ length to.old }
    requires source_inside { start + (last - first) < length source.now }
    requires many { 32 < last - first }
    ensures { (x : ℕ) → row_bit to.new x ≡ (if is_between (8 * first) (8 * last) x
        then row_bit source.now (8 * start + shift + (x - 8 * first))
        else row_bit to.old x) }
{
    let count = last - first;
    copy_shifted(
        to,
        first,
        first + (count - 1) / 32 * 32,
        source,
        start,
        shift,
    );
    copy_block(to, last - 32, source, start + count - 32, shift, 32);
}

// As `copy_shifted`: two blocks of as many bytes.
#[inline(always)]
fn copy_ends(
    to: &mut [u8],
    first: usize,
    last: usize,
    source: &[u8],
    start: usize,
    shift: usize,
    size: usize,
)
    requires low { shift < 8 }
    requires ordered { first ≤ last }
    requires inside { last ≤ length to.old }
    requires source_inside { 8 * start + shift + 8 * (last - first) ≤ 8 * length source.now }
    requires few { size ≤ 64 }
    requires one_inside { size ≤ last - first }
    requires two_cover { last - first ≤ 2 * size }
    ensures { (x : ℕ) → row_bit to.new x ≡ (if is_between (8 * first) (8 * last) x
        then row_bit source.now (8 * start + shift + (x - 8 * first))
        else row_bit to.old x) }
{
    copy_block(to, first, source, start, shift, size);
    copy_block(
        to,
        last - size,
        source,
        start + (last - first) - size,
        shift,
        size,
    );
}

// As many bytes from `first` on. They are made beside the row: so the compiler, which can't know that the two rows
// lie apart, still makes vectors of them.
#[inline(always)]
fn copy_block(to: &mut [u8], first: usize, source: &[u8], start: usize, shift: usize, size: usize)
    requires low { shift < 8 }
    requires few { size ≤ 64 }
    requires inside { first + size ≤ length to.old }
    requires source_inside { 8 * start + shift + 8 * size ≤ 8 * length source.now }
    ensures { (x : ℕ) → row_bit to.new x ≡ (if is_between (8 * first) (8 * (first + size)) x
        then row_bit source.now (8 * start + shift + (x - 8 * first))
        else row_bit to.old x) }
{
    let mut block = [0; 64];
    copy_shifted(&mut block, 0, size, source, start, shift);
    put_block(to, first, &block, size);
}

// The first bytes of a block, put into a row from byte `first` on.
#[inline(always)]
pub(crate) fn put_block(to: &mut [u8], first: usize, block: &[u8], size: usize)
    requires inside { first + size ≤ length to.old }
    requires source_inside { size ≤ length block.now }
    ensures { (x : ℕ) → row_bit to.new x ≡ (if is_between (8 * first) (8 * (first + size)) x
        then row_bit block.now (x - 8 * first)
        else row_bit to.old x) }
{
    copy_plain(to, first, block, 0, size);
}

// As `copy_shifted`. Each shift has a loop of its own: vectors of bytes are shifted fast only by a constant.
#[inline(never)]
fn copy_many(to: &mut [u8], first: usize, last: usize, source: &[u8], start: usize, shift: usize)
    requires some { 0 < shift }
    requires low { shift < 8 }
    requires ordered { first ≤ last }
    requires inside { last ≤ length to.old }
    requires source_inside { start + (last - first) < length source.now }
    requires many { 32 < last - first }
    ensures { (x : ℕ) → row_bit to.new x ≡ (if is_between (8 * first) (8 * last) x
        then row_bit source.now (8 * start + shift + (x - 8 * first))
        else row_bit to.old x) }
{
    match shift {
        1 => copy_long(to, first, last, source, start, 1),
        2 => copy_long(to, first, last, source, start, 2),
        3 => copy_long(to, first, last, source, start, 3),
        4 => copy_long(to, first, last, source, start, 4),
        5 => copy_long(to, first, last, source, start, 5),
        6 => copy_long(to, first, last, source, start, 6),
        _ => copy_long(to, first, last, source, start, 7),
    }
}
