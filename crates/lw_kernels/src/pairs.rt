// Two blocks of at most eight bytes, shifted as one: the compiler makes vectors of 16 bytes, and of fewer it goes byte by byte.

ghost use Rattle.std.specs.Prelude.{◌≡◌, ℕ, ◌+◌, ◌-◌, ◌*◌, ◌%◌, ◌<◌, ◌≤◌, nat_lt, if◌then◌else◌, length};
ghost use Rattle.lw_planes.specs.Row.{row_bit};

use crate::bytes::shifted;
use crate::copying::copy_plain;

// Gives the first bytes of a block the bits of the source from bit `shift` of byte `start` on, and those from the eighth on the
// bits from the same bit of byte `other` on: `size` bytes each.
#[inline(always)]
pub(crate) fn fetch_pair(
    block: &mut [u8],
    source: &[u8],
    start: usize,
    other: usize,
    shift: usize,
    size: usize,
)
    requires some { 0 < shift }
    requires low { shift < 8 }
    requires few { size ≤ 8 }
    requires room { length block.old ≡ 16 }
    requires inside { start + size < length source.now }
    requires other_inside { other + size < length source.now }
    ensures one { (x : ℕ) → x < 8 * size → row_bit block.new x ≡ row_bit source.now (8 * start + shift + x) }
    ensures two { (x : ℕ) → x < 8 * size → row_bit block.new (64 + x) ≡ row_bit source.now (8 * other + shift + x) }
{
    let mut left = [0; 16];
    copy_plain(&mut left, 0, source, start, size);
    copy_plain(&mut left, 8, source, other, size);
    let mut right = [0; 16];
    copy_plain(&mut right, 0, source, start + 1, size);
    copy_plain(&mut right, 8, source, other + 1, size);
    shift_pairs(block, &left, &right, shift);
}

// Gives each byte of a block the bits from bit `shift` on of the pair of bytes that stand there in two other ones.
#[inline(always)]
fn shift_pairs(block: &mut [u8], left: &[u8], right: &[u8], shift: usize)
    requires some { 0 < shift }
    requires low { shift < 8 }
    requires room { length block.old ≡ 16 }
    requires left_room { length left.now ≡ 16 }
    requires right_room { length right.now ≡ 16 }
    ensures { (x : ℕ) → x < 128 → row_bit block.new x ≡ (if nat_lt (x % 8 + shift) 8
        then row_bit left.now (x + shift)
        else row_bit right.now (x + shift - 8)) }
{
    for index in 0..16 {
        block[index] = shifted(left[index], right[index], shift);
    }
}
