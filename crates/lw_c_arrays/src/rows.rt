// The calls on a row of bits.

ghost use Rattle.std.specs.Prelude.{◌≡◌, ℕ, ◌-◌, length, if◌then◌else◌};
ghost use Rattle.lw_planes.specs.Row.{row_bit, bit_of};
ghost use Rattle.lw_kernels.specs.Kernel.{blit_bit};
ghost use Rattle.lw_c_arrays.specs.Rows.{lie_in, both_lie_in, IsRowSet};

use crate::answers::{DONE, OUTSIDE};
use crate::tests_of_rows::lie_in;
use lw_kernels::{combine, combine_within, fill, flip};

/// Gives `count` bits of the row from bit `from` on a value. All other bits stay, and all do where some of them lie outside.
#[unsafe(no_mangle)]
pub extern "C" fn lw_row_fill(row: &mut [u8], from: u32, count: u32, bit: bool) -> i32
    ensures { IsRowSet (lie_in row.old from count) from count (λ _. bit_of bit) row.old row.new result }
{
    if !lie_in(row.len(), from, count) {
        return OUTSIDE;
    }
    fill(row, from, count, bit);
    DONE
}

/// Inverts them.
#[unsafe(no_mangle)]
pub extern "C" fn lw_row_invert(row: &mut [u8], from: u32, count: u32) -> i32
    ensures { IsRowSet (lie_in row.old from count) from count (λ x. 1 - row_bit row.old x) row.old row.new result }
{
    if !lie_in(row.len(), from, count) {
        return OUTSIDE;
    }
    flip(row, from, count);
    DONE
}

/// Blits `count` bits of `source` from bit `source_bit` on, to those of `to` from `to_bit` on: each becomes the value that the
/// minterm has for the source's bit and its own (0x80: both are 1; 0x40: the source's alone; 0x20: its own alone; 0x10: neither).
#[unsafe(no_mangle)]
pub extern "C" fn lw_row_blit(
    to: &mut [u8],
    to_bit: u32,
    source: &[u8],
    source_bit: u32,
    count: u32,
    minterm: u8,
) -> i32
    ensures { IsRowSet (both_lie_in to.old to_bit source.now source_bit count) to_bit count
        (blit_bit minterm (row_bit source.now) source_bit (row_bit to.old) to_bit) to.old to.new result }
{
    if !(lie_in(to.len(), to_bit, count) && lie_in(source.len(), source_bit, count)) {
        return OUTSIDE;
    }
    combine(to, to_bit, source, source_bit, count, minterm);
    DONE
}

/// The same within one row. The source's bits are those before the call, also where the two parts overlap.
#[unsafe(no_mangle)]
pub extern "C" fn lw_row_blit_within(
    row: &mut [u8],
    to_bit: u32,
    source_bit: u32,
    count: u32,
    minterm: u8,
) -> i32
    ensures { IsRowSet (both_lie_in row.old to_bit row.old source_bit count) to_bit count
        (blit_bit minterm (row_bit row.old) source_bit (row_bit row.old) to_bit) row.old row.new result }
{
    if !(lie_in(row.len(), to_bit, count) && lie_in(row.len(), source_bit, count)) {
        return OUTSIDE;
    }
    combine_within(row, to_bit, source_bit, count, minterm);
    DONE
}
