// A few bytes of a row as one word, the first of them lowest, as the processor has them. So the row's bits, counted from its
// left, stand in each byte of the word from its top down (`spot`).

ghost use Rattle.std.specs.Prelude.{◌≡◌, ℕ, ◌+◌, ◌-◌, ◌*◌, ◌%◌, ◌<◌, ◌≤◌, true, if◌then◌else◌, length};
ghost use Rattle.std.specs.Int.{bit_at};
ghost use Rattle.lw_planes.specs.Row.{bit_of, row_bit};
ghost use Rattle.lw_kernels.specs.Kernel.{is_between};
ghost use Rattle.lw_kernels.specs.Words.{spot};

use crate::copying::copy_plain;

// The bits of so many bytes of a row from byte `at` on.
#[inline(always)]
pub(crate) fn word_at(row: &[u8], at: usize, size: usize) -> u64
    requires small { size ≤ 8 }
    requires inside { at + size ≤ length row.now }
    ensures { (j : ℕ) → j < 8 * size → bit_at result (spot j) ≡ row_bit row.now (8 * at + j) }
{
    let mut bytes = [0; 8];
    copy_plain(&mut bytes, 0, row, at, size);
    word_of(bytes)
}

// Eight bytes as a word.
#[inline(always)]
pub(crate) fn word_of(bytes: [u8; 8]) -> u64
    ensures { (j : ℕ) → j < 64 → bit_at result (spot j) ≡ row_bit bytes j }
{
    u64::from_le_bytes(bytes)
}

// Gives the bits of so many bytes of a row from byte `at` on those of a word.
#[inline(always)]
pub(crate) fn put_word(to: &mut [u8], at: usize, word: u64, size: usize)
    requires small { size ≤ 8 }
    requires inside { at + size ≤ length to.old }
    ensures { (x : ℕ) → row_bit to.new x ≡ (if is_between (8 * at) (8 * (at + size)) x
        then bit_at word (spot (x - 8 * at))
        else row_bit to.old x) }
{
    for index in 0..size {
        to[at + index] = ((word >> (8 * index)) & 0xff) as u8;
    }
}

// As `put_word`, all eight bytes. Of two such calls for neighbouring words the compiler makes one store of 16 bytes; where bytes
// are shifted out of the words it doesn't.
#[inline(always)]
pub(crate) fn put_whole(to: &mut [u8], at: usize, word: u64)
    requires { at + 8 ≤ length to.old }
    ensures { (x : ℕ) → row_bit to.new x ≡ (if is_between (8 * at) (8 * (at + 8)) x
        then bit_at word (spot (x - 8 * at))
        else row_bit to.old x) }
{
    copy_plain(to, at, &word.to_le_bytes(), 0, 8);
}

// The word that has for each bit the one that stands so many bits behind it; those at the end have the first ones. Where it is
// known to be the same word, nothing is done.
#[inline(always)]
pub(crate) fn turned(word: u64, by: u32, whole: bool) -> u64
    requires low { by < 64 }
    requires whole { whole ≡ true → by ≡ 0 }
    ensures { (j : ℕ) → j < 64 → bit_at result (spot j) ≡ bit_at word (spot ((j + by) % 64)) }
{
    if whole {
        word
    } else {
        let backward = word.swap_bytes();
        backward.rotate_left(by).swap_bytes()
    }
}

// The word that has a 1 in `count` bits from bit `lead` on.
#[inline(always)]
pub(crate) fn word_mask(lead: usize, count: usize) -> u64
    requires some { 0 < count }
    requires inside { lead + count ≤ 64 }
    ensures { (j : ℕ) → j < 64 → bit_at result (spot j) ≡ bit_of (is_between lead (lead + count) j) }
{
    ((u64::MAX << (64 - count)) >> lead).swap_bytes()
}
