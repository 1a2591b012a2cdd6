// Rows of a layer as sources.

ghost use Rattle.std.specs.Prelude.{◌≡◌, ℕ, ◌+◌, ◌-◌, ◌*◌, ◌<◌, ◌≤◌, true, length, slice_index, pos, ◌+ℤ◌};
ghost use Rattle.lw_planes.specs.Row.{bit_of, row_bit};
ghost use Rattle.lw_machine.specs.Kept.{holds_at};
ghost use Rattle.lw_layer.specs.View.{keeps};
ghost use Rattle.lw_layer.specs.Copied.{kept_bit};
ghost use Rattle.lw_blit.specs.Blitting.{plane_of, AreRead, AreSources, AreNear};

use crate::places::source_place;
use crate::transfers::Transfer;
use lw_draw::{Places, has_bit};
use lw_kernels::fill;
use lw_layer::Layer;

// A row of a layer is at most 2048 pixels wide.
pub(crate) const MOST: usize = 256;

// The bits of pixels side by side, plane by plane, and a bit for each that the layer keeps.
#[derive(Drop)]
pub(crate) struct SourceRows {
    pub bits: [[u8; MOST]; 8],
    pub kept: [u8; MOST],
    // All pixels take their sources, whatever is kept.
    pub all: bool,
}

// Rows in which nothing was read so far.
pub(crate) fn no_sources() -> SourceRows {
    SourceRows {
        bits: [[0; MOST]; 8],
        kept: [0; MOST],
        all: false,
    }
}

// Reads the sources of some columns of a row, in the first planes, as far as the mask has them.
pub(crate) fn read_sources(
    source: &Layer,
    planes: u32,
    y: u32,
    columns: Places,
    transfer: Transfer,
    mask: u8,
    rows: &mut SourceRows,
)
    requires planes { planes ≤ 8 }
    requires row { y < 65536 }
    requires right { columns.end ≤ 2048 }
    requires near { AreNear transfer }
    ensures { AreSources source.now transfer mask planes y columns.from columns.end rows.new }
{
    let x = source_place(columns.from, transfer.dx);
    let line = source_place(y, transfer.dy);
    let count = columns.end - columns.from;
    read_planes(source, planes, x, line, count, mask, rows);
    rows.all = transfer.clears || has_all(&mut rows.kept, count);
}

// Reads so many pixels of a row of a layer, from column x on.
fn read_planes(
    source: &Layer,
    planes: u32,
    x: i32,
    y: i32,
    count: u32,
    mask: u8,
    rows: &mut SourceRows,
)
    requires planes { planes ≤ 8 }
    requires few { count ≤ 2048 }
    ensures { AreRead source.now mask planes x y count rows.new }
{
    let bytes = count.div_ceil(8) as usize;
    for plane in 0..planes {
        if has_bit(mask, plane) {
            let bits = &mut rows.bits[plane as usize];
            read_plane(source, plane, x, y, bytes, bits, &mut rows.kept);
        }
    }
}

// Reads the bits of one plane in the first bytes of a row, and which pixels are kept.
fn read_plane(
    source: &Layer,
    plane: u32,
    x: i32,
    y: i32,
    bytes: usize,
    bits: &mut [u8; MOST],
    kept: &mut [u8; MOST],
)
    requires few { bytes ≤ 256 }
    ensures bits { (i : ℕ) → i < 8 * bytes → row_bit bits.new i ≡ kept_bit source.now plane (x +ℤ pos i) y }
    ensures kept { (i : ℕ) → i < 8 * bytes → row_bit kept.new i ≡
        bit_of (holds_at (λ u v. keeps source.now u v) (x +ℤ pos i) y) }
{
    copy_pixels(source, plane, x, y, &mut bits[..bytes], &mut kept[..bytes]);
}

// As `Layer::copy_row`, for any plane: one that the layer lacks has no bits.
fn copy_pixels(source: &Layer, plane: u32, x: i32, y: i32, bits: &mut [u8], kept: &mut [u8])
    requires equally_long { length kept.old ≡ length bits.old }
    requires few { length bits.old ≤ 256 }
    ensures long { length bits.new ≡ length bits.old }
    ensures long_kept { length kept.new ≡ length kept.old }
    ensures bits { (i : ℕ) → i < 8 * length bits.new → row_bit bits.new i ≡ kept_bit source.now plane (x +ℤ pos i) y }
    ensures kept { (i : ℕ) → i < 8 * length kept.new → row_bit kept.new i ≡
        bit_of (holds_at (λ u v. keeps source.now u v) (x +ℤ pos i) y) }
{
    if plane < source.depth() {
        source.copy_row(plane, x, y, bits, kept);
    } else {
        source.copy_row(0, x, y, bits, kept);
        fill(bits, 0, 8 * bits.len() as u32, false);
    }
}

// The first bits of a row are all set; of its bits after them some are set.
fn has_all(row: &mut [u8; MOST], count: u32) -> bool
    requires { count ≤ 2048 }
    ensures all { result ≡ true → (i : ℕ) → i < count → row_bit row.new i ≡ 1 }
    ensures same { (i : ℕ) → i < count → row_bit row.new i ≡ row_bit row.old i }
{
    let bytes = count.div_ceil(8);
    fill(row, count, 8 * bytes - count, true);
    are_full(&row[..bytes as usize])
}

// All bits are set.
fn are_full(bytes: &[u8]) -> bool
    ensures { result ≡ true → (n : ℕ) → n < length bytes.now → slice_index bytes.now n ≡ 255 }
{
    for byte in bytes {
        if *byte != 0xff {
            return false;
        }
    }
    true
}
