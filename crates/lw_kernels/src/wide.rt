// Columns of two words. Where bits are moved across bytes, each byte is made of two neighbouring ones of the source, the same way for
// all of them; so the compiler does both words at once.

ghost use Rattle.std.specs.Prelude.{◌≡◌, ℕ, ◌+◌, ◌-◌, ◌*◌, ◌<◌, ◌≤◌, ◌&&◌, nat_lt, if◌then◌else◌, Bool, length, IfSome};
ghost use Rattle.std.specs.Int.{bit_at};
ghost use Rattle.lw_planes.specs.Row.{bit_of, row_bit};
ghost use Rattle.lw_kernels.specs.Kernel.{is_between, place_in};
ghost use Rattle.lw_kernels.specs.Words.{spot};
ghost use Rattle.lw_kernels.specs.Wide.{IsMasks, IsWideColumn, IsWideColumnOf};

use crate::words::{put_whole, word_at, word_mask, word_of};

// Which bits of a word come from the bytes at the same places of the source's word (`here`), which from the bytes behind these
// (`next`), and which stay (`old`).
#[derive(Clone, Copy)]
pub(crate) struct Masks {
    here: u64,
    next: u64,
    old: u64,
}

// Some bits of each row, in the two words from byte `at` on: `count` bits from bit `lead` of these on. The first bit of the words
// has its source at bit `shift` of byte `start` of the source's row.
#[derive(Clone, Copy)]
pub(crate) struct WideColumn {
    at: usize,
    lead: usize,
    start: usize,
    pub(crate) count: usize,
    shift: u32,
    first: Masks,
    second: Masks,
}

// A column of the first of so many bits of rows of so many bytes, if there is one: its two words lie in the rows on either side,
// with one more byte behind the source's, and the bits reach into the second word. The words begin with the byte of the first
// bit, or on both sides as many bytes before it as they need to lie in their rows.
#[inline(always)]
pub(crate) fn wide_column_of(
    to_step: usize,
    to_bit: usize,
    source_step: usize,
    source_bit: usize,
    count: usize,
) -> Option<WideColumn>
    requires wide { 16 ≤ to_step }
    requires source_wide { 16 < source_step }
    ensures { IfSome result (λ column. IsWideColumnOf to_step to_bit source_step source_bit count column) }
{
    let bit = to_bit % 8;
    if source_bit < bit {
        return None;
    }
    let place = source_bit - bit;
    let (byte, source_byte) = (to_bit / 8, place / 8);
    let over = byte.saturating_sub(to_step - 16);
    let back = over.max(source_byte.saturating_sub(source_step - 17));
    let lead = bit + 8 * back;
    if back > byte || back > source_byte || lead >= 64 || count <= 64 - lead {
        return None;
    }
    let count = count.min(128 - lead);
    let shift = (place % 8) as u32;
    Some(WideColumn {
        at: byte - back,
        lead,
        start: source_byte - back,
        count,
        shift,
        first: masks_of(word_mask(lead, 64 - lead), shift),
        second: masks_of(word_mask(0, lead + count - 64), shift),
    })
}

// The masks of a word whose new bits are those that `named` has, where bytes take theirs from bit `shift` of the source's on.
#[inline(always)]
fn masks_of(named: u64, shift: u32) -> Masks
    requires low { shift < 8 }
    ensures { (test : ℕ → Bool) → ((j : ℕ) → j < 64 → bit_at named (spot j) ≡ bit_of (test j)) → IsMasks shift test result }
{
    let near = word_of([0xff << shift; 8]);
    Masks {
        here: named & near,
        next: named & !near,
        old: !named,
    }
}

// Copies the bits of a column in each row. It is a call of its own, so that its loop keeps its registers and the masks are read
// once.
#[inline(never)]
pub(crate) fn copy_wide(
    to: &mut [u8],
    to_step: usize,
    source: &[u8],
    source_step: usize,
    rows: u32,
    column: WideColumn,
)
    requires column { IsWideColumn column }
    requires inside { column.at + 16 ≤ to_step }
    requires source_inside { column.start + 17 ≤ source_step }
    requires to_all { rows * to_step ≤ length to.old }
    requires source_all { rows * source_step ≤ length source.now }
    ensures { (y x : ℕ) → x < 8 * to_step → row_bit to.new (place_in to_step y x) ≡
        (if nat_lt y rows && is_between (8 * column.at + column.lead) (8 * column.at + column.lead + column.count) x
        then row_bit source.now
        (place_in source_step y (8 * column.start + (column.shift + column.lead) + (x - (8 * column.at + column.lead))))
        else row_bit to.old (place_in to_step y x)) }
{
    for row in 0..rows {
        copy_wide_row(
            to,
            row as usize * to_step + column.at,
            source,
            row as usize * source_step + column.start,
            column,
        );
    }
}

// Copies the bits of a column in the row whose words begin with byte `at`, and the source's with byte `start`. Both words are made
// before one is stored, so that the compiler makes them as one vector.
#[inline(always)]
fn copy_wide_row(to: &mut [u8], at: usize, source: &[u8], start: usize, column: WideColumn)
    requires column { IsWideColumn column }
    requires inside { at + 16 ≤ length to.old }
    requires source_inside { start + 17 ≤ length source.now }
    ensures { (x : ℕ) → row_bit to.new x ≡
        (if is_between (8 * at + column.lead) (8 * at + column.lead + column.count) x
        then row_bit source.now (8 * start + column.shift + (x - 8 * at))
        else row_bit to.old x) }
{
    let first = new_word(to, at, source, start, column.shift, column.first);
    let second = new_word(to, at + 8, source, start + 8, column.shift, column.second);
    put_whole(to, at, first);
    put_whole(to, at + 8, second);
}

// What the word at byte `at` of a row becomes, with its new bits from bit `shift` of the source's byte `start` on.
#[inline(always)]
fn new_word(to: &[u8], at: usize, source: &[u8], start: usize, shift: u32, masks: Masks) -> u64
    requires low { shift < 8 }
    requires inside { at + 8 ≤ length to.now }
    requires source_inside { start + 9 ≤ length source.now }
    ensures { (test : ℕ → Bool) → IsMasks shift test masks → (j : ℕ) → j < 64 → bit_at result (spot j) ≡
        (if test j then row_bit source.now (8 * start + shift + j) else row_bit to.now (8 * at + j)) }
{
    let here = word_at(source, start, 8) << shift;
    let next = word_at(source, start + 1, 8) >> (8 - shift);
    let old = word_at(to, at, 8);
    (here & masks.here) | (next & masks.next) | (old & masks.old)
}
