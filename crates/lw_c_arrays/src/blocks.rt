// The calls on a block of rows, `step` bytes each, one after another.

ghost use Rattle.std.specs.Prelude.{◌≡◌, ℕ, ◌+◌, ◌-◌, ◌&&◌};
ghost use Rattle.lw_planes.specs.Row.{row_bit, bit_of};
ghost use Rattle.lw_planes.specs.Minterm.{minterm_bit};
ghost use Rattle.lw_kernels.specs.Kernel.{place_in};
ghost use Rattle.lw_c_arrays.specs.Rows.{block_lies_in, IsBlockSet};

use crate::answers::{DONE, OUTSIDE};
use crate::tests_of_rows::{has_rows, lie_in};
use lw_kernels::{Corner, combine_rows, combine_rows_within, fill_rows, flip_rows};

fn lies_in(bytes: &[u8], step: u32, rows: u32, from: u32, count: u32) -> bool
    ensures { result ≡ block_lies_in bytes.now step rows from count }
{
    lie_in(step as usize, from, count) && has_rows(bytes.len(), step, 0, rows)
}

/// Gives `count` bits from bit `from` on, of each of the first `rows` rows, a value.
#[unsafe(no_mangle)]
pub extern "C" fn lw_block_fill(
    bytes: &mut [u8],
    step: u32,
    rows: u32,
    from: u32,
    count: u32,
    bit: bool,
) -> i32
    ensures { IsBlockSet (block_lies_in bytes.old step rows from count) step 0 rows from count (λ _ _. bit_of bit)
        bytes.old bytes.new result }
{
    if !lies_in(bytes, step, rows, from, count) {
        return OUTSIDE;
    }
    if step == 0 {
        return DONE;
    }
    fill_rows(bytes, step as usize, rows, from, count, bit);
    DONE
}

/// Inverts them.
#[unsafe(no_mangle)]
pub extern "C" fn lw_block_invert(
    bytes: &mut [u8],
    step: u32,
    rows: u32,
    from: u32,
    count: u32,
) -> i32
    ensures { IsBlockSet (block_lies_in bytes.old step rows from count) step 0 rows from count
        (λ y x. 1 - row_bit bytes.old (place_in step y x)) bytes.old bytes.new result }
{
    if !lies_in(bytes, step, rows, from, count) {
        return OUTSIDE;
    }
    if step == 0 {
        return DONE;
    }
    flip_rows(bytes, step as usize, rows, from, count);
    DONE
}

/// Blits `count` bits of each of the first `rows` rows of another block, from bit `source_bit` on, to those from `to_bit` on.
#[unsafe(no_mangle)]
pub extern "C" fn lw_block_blit(
    to: &mut [u8],
    to_step: u32,
    to_bit: u32,
    source: &[u8],
    source_step: u32,
    source_bit: u32,
    rows: u32,
    count: u32,
    minterm: u8,
) -> i32
    ensures { IsBlockSet
        (block_lies_in to.old to_step rows to_bit count && block_lies_in source.now source_step rows source_bit count)
        to_step 0 rows to_bit count
        (λ y x. minterm_bit minterm (row_bit source.now (place_in source_step y (source_bit + (x - to_bit))))
        (row_bit to.old (place_in to_step y x)))
        to.old to.new result }
{
    if !(lies_in(to, to_step, rows, to_bit, count)
        && lies_in(source, source_step, rows, source_bit, count))
    {
        return OUTSIDE;
    }
    if to_step == 0 {
        return DONE;
    }
    let (to_bytes, source_bytes) = (to_step as usize, source_step as usize);
    combine_rows(
        to,
        to_bytes,
        to_bit,
        source,
        source_bytes,
        source_bit,
        rows,
        count,
        minterm,
    );
    DONE
}

/// Where a part of a block begins.
#[repr(C)]
#[derive(Clone, Copy, Debug, PartialEq, Eq)]
pub struct Place {
    pub row: u32,
    pub bit: u32,
}

/// The same within one block, from one place to another. The source's bits are those before the call, also where the two parts
/// overlap.
#[unsafe(no_mangle)]
pub extern "C" fn lw_block_blit_within(
    bytes: &mut [u8],
    step: u32,
    to: &Place,
    source: &Place,
    rows: u32,
    count: u32,
    minterm: u8,
) -> i32
    ensures { IsBlockSet
        (block_lies_in bytes.old step (to.now.row + rows) to.now.bit count
        && block_lies_in bytes.old step (source.now.row + rows) source.now.bit count)
        step to.now.row rows to.now.bit count
        (λ y x. minterm_bit minterm
        (row_bit bytes.old (place_in step (source.now.row + (y - to.now.row)) (source.now.bit + (x - to.now.bit))))
        (row_bit bytes.old (place_in step y x)))
        bytes.old bytes.new result }
{
    if !(lies_from(bytes, step, to, rows, count) && lies_from(bytes, step, source, rows, count)) {
        return OUTSIDE;
    }
    if step == 0 {
        return DONE;
    }
    let to = Corner {
        row: to.row,
        bit: to.bit,
    };
    let source = Corner {
        row: source.row,
        bit: source.bit,
    };
    combine_rows_within(bytes, step as usize, to, source, rows, count, minterm);
    DONE
}

fn lies_from(bytes: &[u8], step: u32, from: &Place, rows: u32, count: u32) -> bool
    ensures { result ≡ block_lies_in bytes.now step (from.now.row + rows) from.now.bit count }
{
    lie_in(step as usize, from.bit, count) && has_rows(bytes.len(), step, from.row, rows)
}
