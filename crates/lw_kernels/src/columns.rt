// Blocks of rows that are copied column by column: as many bits of each row at a time as one word has on both sides, or two
// (`wide`), wherever in a byte they begin. So the rows of a column have one loop, in which neither a mask nor a shift is worked out.

ghost use Rattle.std.specs.Prelude.{◌≡◌, ℕ, ◌+◌, ◌-◌, ◌*◌, ◌^◌, ◌<◌, ◌≤◌, ◌&&◌, nat_lt, true, if◌then◌else◌, bit_and, length};
ghost use Rattle.lw_planes.specs.Row.{row_bit};
ghost use Rattle.lw_kernels.specs.Kernel.{is_between, place_in};
ghost use Rattle.lw_kernels.specs.Words.{IsColumn};

use crate::ways::is_copy;
use crate::wide::{copy_wide, wide_column_of};
use crate::words::{put_word, turned, word_at, word_mask};

// So many bits lie in one word of eight bytes on both sides, wherever in a byte they begin.
const WORD_BITS: u32 = 57;

// Some bits of each row, in words of `size` bytes: `count` bits from bit `lead` past byte `at` of a row on, which `mask` names,
// and as many from bit `place` past byte `start` of the source's row on. A word of the source that is turned by `turn` bits has
// them where they go to.
#[derive(Clone, Copy)]
pub(crate) struct Column {
    pub(crate) size: usize,
    pub(crate) at: usize,
    pub(crate) lead: usize,
    pub(crate) start: usize,
    pub(crate) place: usize,
    pub(crate) count: usize,
    pub(crate) turn: u32,
    pub(crate) mask: u64,
}

// Whether the rows of a blit are copied in less time by columns: it copies, and there are few columns for so many rows. Where the
// bits stand in their bytes as they are to, whole bytes are copied fast anyhow.
pub(crate) fn goes_by_columns(
    to_step: usize,
    to_bit: u32,
    source_step: usize,
    source_bit: u32,
    rows: u32,
    count: u32,
    minterm: u8,
) -> bool
    ensures copies { result ≡ true → bit_and minterm 240 ≡ 192 }
    ensures wide { result ≡ true → 2 ≤ to_step }
    ensures source_wide { result ≡ true → 2 ≤ source_step }
{
    let most = if to_bit % 8 == source_bit % 8 {
        64 * (1 + (rows / 4).min(7))
    } else {
        WORD_BITS * (2 + (rows / 4).min(7))
    };
    is_copy(minterm) && to_step >= 2 && source_step >= 2 && count <= most
}

// Copies `count` bits from bit `source_bit` of each row of the source to the row of the same number, from its bit `to_bit` on.
// Bits that are moved across bytes go by two words at once, where these lie in the rows and that takes less time: from 16 rows on,
// where one word has too few bits. Where the first bits can't, for want of a byte before the source's, more must follow.
// It is a call of its own, so that its loops keep their registers, and so that `combine_rows` stays small enough to go in line.
#[inline(never)]
pub(crate) fn copy_columns(
    to: &mut [u8],
    to_step: usize,
    to_bit: u32,
    source: &[u8],
    source_step: usize,
    source_bit: u32,
    rows: u32,
    count: u32,
)
    requires wide { 2 ≤ to_step }
    requires source_wide { 2 ≤ source_step }
    requires to_inside { to_bit + count ≤ 8 * to_step }
    requires to_all { rows * to_step ≤ length to.old }
    requires source_inside { source_bit + count ≤ 8 * source_step }
    requires source_all { rows * source_step ≤ length source.now }
    ensures { (y x : ℕ) → x < 8 * to_step → row_bit to.new (place_in to_step y x) ≡
        (if nat_lt y rows && is_between to_bit (to_bit + count) x
        then row_bit source.now (place_in source_step y (source_bit + (x - to_bit)))
        else row_bit to.old (place_in to_step y x)) }
{
    let (to_place, source_place) = (to_bit as usize, source_bit as usize);
    let bits = count as usize;
    let across = to_bit % 8 != source_bit % 8;
    let starts = source_bit >= to_bit % 8 || count > 2 * WORD_BITS;
    if count > WORD_BITS && rows >= 16 && to_step >= 16 && source_step > 16 && across && starts {
        copy_two_words(
            to,
            to_step,
            to_place,
            source,
            source_step,
            source_place,
            rows,
            bits,
        );
    } else {
        copy_by_size(
            to,
            to_step,
            to_place,
            source,
            source_step,
            source_place,
            rows,
            bits,
        );
    }
}

// As `copy_columns`: by columns of two words, and as `copy_words` for bits that have none.
#[inline(never)]
fn copy_two_words(
    to: &mut [u8],
    to_step: usize,
    to_bit: usize,
    source: &[u8],
    source_step: usize,
    source_bit: usize,
    rows: u32,
    count: usize,
)
    requires wide { 16 ≤ to_step }
    requires source_wide { 16 < source_step }
    requires near { to_bit + count < 2 ^ 40 }
    requires near_source { source_bit + count < 2 ^ 40 }
    requires to_inside { to_bit + count ≤ 8 * to_step }
    requires to_all { rows * to_step ≤ length to.old }
    requires source_inside { source_bit + count ≤ 8 * source_step }
    requires source_all { rows * source_step ≤ length source.now }
    ensures { (y x : ℕ) → x < 8 * to_step → row_bit to.new (place_in to_step y x) ≡
        (if nat_lt y rows && is_between to_bit (to_bit + count) x
        then row_bit source.now (place_in source_step y (source_bit + (x - to_bit)))
        else row_bit to.old (place_in to_step y x)) }
{
    let mut done = 0;
    while done < count {
        done += copy_first(
            to,
            to_step,
            to_bit + done,
            source,
            source_step,
            source_bit + done,
            rows,
            count - done,
        );
    }
}

// Copies the first of `count` bits of each row, by two words at once or else as `copy_words`, and says how many.
#[inline(always)]
fn copy_first(
    to: &mut [u8],
    to_step: usize,
    to_bit: usize,
    source: &[u8],
    source_step: usize,
    source_bit: usize,
    rows: u32,
    count: usize,
) -> usize
    requires bits { 0 < count }
    requires wide { 16 ≤ to_step }
    requires source_wide { 16 < source_step }
    requires near { to_bit + count < 2 ^ 40 }
    requires near_source { source_bit + count < 2 ^ 40 }
    requires to_inside { to_bit + count ≤ 8 * to_step }
    requires to_all { rows * to_step ≤ length to.old }
    requires source_inside { source_bit + count ≤ 8 * source_step }
    requires source_all { rows * source_step ≤ length source.now }
    ensures some { 0 < result }
    ensures few { result ≤ count }
    ensures copied { (y x : ℕ) → x < 8 * to_step → row_bit to.new (place_in to_step y x) ≡
        (if nat_lt y rows && is_between to_bit (to_bit + result) x
        then row_bit source.now (place_in source_step y (source_bit + (x - to_bit)))
        else row_bit to.old (place_in to_step y x)) }
{
    if let Some(column) = wide_column_of(to_step, to_bit, source_step, source_bit, count) {
        copy_wide(to, to_step, source, source_step, rows, column);
        return column.count;
    }
    let part = count.min(WORD_BITS as usize);
    copy_words(
        to,
        to_step,
        to_bit,
        source,
        source_step,
        source_bit,
        rows,
        part,
    );
    part
}

// As `copy_columns`, one word at a time. A call of its own, so that the loops of two words keep their registers.
#[inline(never)]
fn copy_words(
    to: &mut [u8],
    to_step: usize,
    to_bit: usize,
    source: &[u8],
    source_step: usize,
    source_bit: usize,
    rows: u32,
    count: usize,
)
    requires wide { 2 ≤ to_step }
    requires source_wide { 2 ≤ source_step }
    requires near { to_bit + count < 2 ^ 40 }
    requires near_source { source_bit + count < 2 ^ 40 }
    requires to_inside { to_bit + count ≤ 8 * to_step }
    requires to_all { rows * to_step ≤ length to.old }
    requires source_inside { source_bit + count ≤ 8 * source_step }
    requires source_all { rows * source_step ≤ length source.now }
    ensures { (y x : ℕ) → x < 8 * to_step → row_bit to.new (place_in to_step y x) ≡
        (if nat_lt y rows && is_between to_bit (to_bit + count) x
        then row_bit source.now (place_in source_step y (source_bit + (x - to_bit)))
        else row_bit to.old (place_in to_step y x)) }
{
    copy_by_size(
        to,
        to_step,
        to_bit,
        source,
        source_step,
        source_bit,
        rows,
        count,
    );
}

// As `copy_words`, in line: each size of words has code of its own.
#[inline(always)]
fn copy_by_size(
    to: &mut [u8],
    to_step: usize,
    to_bit: usize,
    source: &[u8],
    source_step: usize,
    source_bit: usize,
    rows: u32,
    count: usize,
)
    requires wide { 2 ≤ to_step }
    requires source_wide { 2 ≤ source_step }
    requires near { to_bit + count < 2 ^ 40 }
    requires near_source { source_bit + count < 2 ^ 40 }
    requires to_inside { to_bit + count ≤ 8 * to_step }
    requires to_all { rows * to_step ≤ length to.old }
    requires source_inside { source_bit + count ≤ 8 * source_step }
    requires source_all { rows * source_step ≤ length source.now }
    ensures { (y x : ℕ) → x < 8 * to_step → row_bit to.new (place_in to_step y x) ≡
        (if nat_lt y rows && is_between to_bit (to_bit + count) x
        then row_bit source.now (place_in source_step y (source_bit + (x - to_bit)))
        else row_bit to.old (place_in to_step y x)) }
{
    let least = to_step.min(source_step);
    if least >= 8 {
        copy_by_words(
            to,
            to_step,
            to_bit,
            source,
            source_step,
            source_bit,
            rows,
            count,
            8,
        );
    } else if least >= 4 {
        copy_by_words(
            to,
            to_step,
            to_bit,
            source,
            source_step,
            source_bit,
            rows,
            count,
            4,
        );
    } else {
        copy_by_words(
            to,
            to_step,
            to_bit,
            source,
            source_step,
            source_bit,
            rows,
            count,
            2,
        );
    }
}

// As `copy_by_size`, in words of `size` bytes.
#[inline(always)]
fn copy_by_words(
    to: &mut [u8],
    to_step: usize,
    to_bit: usize,
    source: &[u8],
    source_step: usize,
    source_bit: usize,
    rows: u32,
    count: usize,
    size: usize,
)
    requires some { 0 < size }
    requires small { size ≤ 8 }
    requires wide { size ≤ to_step }
    requires source_wide { size ≤ source_step }
    requires near { to_bit + count < 2 ^ 40 }
    requires near_source { source_bit + count < 2 ^ 40 }
    requires to_inside { to_bit + count ≤ 8 * to_step }
    requires to_all { rows * to_step ≤ length to.old }
    requires source_inside { source_bit + count ≤ 8 * source_step }
    requires source_all { rows * source_step ≤ length source.now }
    ensures { (y x : ℕ) → x < 8 * to_step → row_bit to.new (place_in to_step y x) ≡
        (if nat_lt y rows && is_between to_bit (to_bit + count) x
        then row_bit source.now (place_in source_step y (source_bit + (x - to_bit)))
        else row_bit to.old (place_in to_step y x)) }
{
    let mut done = 0;
    while done < count {
        let column = column_of(
            size,
            to_step,
            to_bit + done,
            source_step,
            source_bit + done,
            count - done,
        );
        copy_column(to, to_step, source, source_step, rows, column);
        done += column.count;
    }
}

// The column of the first of so many bits of rows of so many bytes. Its words begin with the byte of the first of them on either
// side, or so many bytes before it on both that they end with their rows. So bits that stand in their bytes as they are to aren't
// turned.
#[inline(always)]
fn column_of(
    size: usize,
    to_step: usize,
    to_bit: usize,
    source_step: usize,
    source_bit: usize,
    count: usize,
) -> Column
    requires some { 0 < size }
    requires small { size ≤ 8 }
    requires bits { 0 < count }
    requires wide { size ≤ to_step }
    requires source_wide { size ≤ source_step }
    requires inside { to_bit + count ≤ 8 * to_step }
    requires source_inside { source_bit + count ≤ 8 * source_step }
    ensures column { IsColumn to_step source_step result }
    ensures begins { 8 * result.at + result.lead ≡ to_bit }
    ensures source_begins { 8 * result.start + result.place ≡ source_bit }
    ensures few { result.count ≤ count }
{
    let (byte, source_byte) = (to_bit / 8, source_bit / 8);
    let over = byte.saturating_sub(to_step - size);
    let back = over.max(source_byte.saturating_sub(source_step - size));
    let at = byte.saturating_sub(back);
    let start = source_byte.saturating_sub(back);
    let lead = to_bit - 8 * at;
    let place = source_bit - 8 * start;
    let most = (8 * size - lead).min(8 * size - place);
    let count = count.min(most);
    let mask = word_mask(lead, count);
    Column {
        size,
        at,
        lead,
        start,
        place,
        count,
        turn: ((64 + place - lead) % 64) as u32,
        mask,
    }
}

// Copies the bits of a column in each row. Words that aren't turned have a loop of their own, as have those that are filled.
#[inline(always)]
fn copy_column(
    to: &mut [u8],
    to_step: usize,
    source: &[u8],
    source_step: usize,
    rows: u32,
    column: Column,
)
    requires column { IsColumn to_step source_step column }
    requires to_all { rows * to_step ≤ length to.old }
    requires source_all { rows * source_step ≤ length source.now }
    ensures { (y x : ℕ) → x < 8 * to_step → row_bit to.new (place_in to_step y x) ≡
        (if nat_lt y rows && is_between (8 * column.at + column.lead) (8 * column.at + column.lead + column.count) x
        then row_bit source.now
        (place_in source_step y (8 * column.start + column.place + (x - (8 * column.at + column.lead))))
        else row_bit to.old (place_in to_step y x)) }
{
    let whole = column.turn == 0;
    if whole && column.count == 8 * column.size {
        copy_rows(to, to_step, source, source_step, rows, column, true, true);
    } else if whole {
        copy_rows(to, to_step, source, source_step, rows, column, true, false);
    } else {
        copy_rows(to, to_step, source, source_step, rows, column, false, false);
    }
}

// As `copy_column`, two rows at a time.
#[inline(always)]
fn copy_rows(
    to: &mut [u8],
    to_step: usize,
    source: &[u8],
    source_step: usize,
    rows: u32,
    column: Column,
    whole: bool,
    full: bool,
)
    requires column { IsColumn to_step source_step column }
    requires whole { whole ≡ true → column.turn ≡ 0 }
    requires full { full ≡ true → column.count ≡ 8 * column.size }
    requires to_all { rows * to_step ≤ length to.old }
    requires source_all { rows * source_step ≤ length source.now }
    ensures { (y x : ℕ) → x < 8 * to_step → row_bit to.new (place_in to_step y x) ≡
        (if nat_lt y rows && is_between (8 * column.at + column.lead) (8 * column.at + column.lead + column.count) x
        then row_bit source.now
        (place_in source_step y (8 * column.start + column.place + (x - (8 * column.at + column.lead))))
        else row_bit to.old (place_in to_step y x)) }
{
    for pair in 0..rows / 2 {
        let row = 2 * pair as usize;
        copy_row(
            to,
            to_step,
            source,
            source_step,
            rows,
            row,
            column,
            whole,
            full,
        );
        copy_row(
            to,
            to_step,
            source,
            source_step,
            rows,
            row + 1,
            column,
            whole,
            full,
        );
    }
    let odd = rows % 2;
    if odd == 1 {
        let last = rows as usize - 1;
        copy_row(
            to,
            to_step,
            source,
            source_step,
            rows,
            last,
            column,
            whole,
            full,
        );
    }
}

// Copies the bits of a column in one of the rows.
#[inline(always)]
fn copy_row(
    to: &mut [u8],
    to_step: usize,
    source: &[u8],
    source_step: usize,
    rows: u32,
    row: usize,
    column: Column,
    whole: bool,
    full: bool,
)
    requires column { IsColumn to_step source_step column }
    requires whole { whole ≡ true → column.turn ≡ 0 }
    requires full { full ≡ true → column.count ≡ 8 * column.size }
    requires row { row < rows }
    requires to_all { rows * to_step ≤ length to.old }
    requires source_all { rows * source_step ≤ length source.now }
    ensures { (x : ℕ) → row_bit to.new x ≡
        (if is_between (8 * (row * to_step + column.at) + column.lead)
        (8 * (row * to_step + column.at) + column.lead + column.count) x
        then row_bit source.now
        (8 * (row * source_step + column.start) + column.place + (x - (8 * (row * to_step + column.at) + column.lead)))
        else row_bit to.old x) }
{
    let at = row * to_step + column.at;
    let start = row * source_step + column.start;
    let word = word_at(source, start, column.size);
    let bits = turned(word, column.turn, whole);
    if full {
        put_word(to, at, bits, column.size);
    } else {
        let old = word_at(to, at, column.size);
        put_word(to, at, ((bits ^ old) & column.mask) ^ old, column.size);
    }
}
