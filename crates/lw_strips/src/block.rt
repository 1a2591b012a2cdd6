// Copying a block of pixels from one bitmap into another, all rows of a plane at once.

ghost use Rattle.std.specs.Prelude.{◌≡◌, ℕ, ◌+◌, ◌-◌, ◌*◌, ◌<◌, ◌≤◌, ◌==◌, ◌&&◌, if◌then◌else◌, length};
ghost use Rattle.lw_planes.specs.Row.{row_bit};
ghost use Rattle.lw_planes.specs.Bitmap.{row_bytes};
ghost use Rattle.lw_kernels.specs.Kernel.{is_named, place_in};
ghost use Rattle.lw_strips.specs.Blocks.{IsBlockOf, IsBlockIn, in_block, block_pen, with_block, without_block};
ghost use Rattle.lw_strips.specs.Bits.{with_bits};

use lw_kernels::{COPY_MINTERM, combine_rows, fill_rows};
use lw_planes::Planes;

/// So many columns and rows from a pixel of one bitmap on, and as many from a pixel of its source on.
#[derive(Clone, Copy)]
pub struct Block {
    /// The column in the bitmap that is copied to.
    pub x: u32,
    /// The row in the bitmap that is copied to.
    pub y: u32,
    /// The column in the source.
    pub source_x: u32,
    /// The row in the source.
    pub source_y: u32,
    /// How many columns are copied.
    pub width: u32,
    /// How many rows are copied.
    pub height: u32,
}

/// Copies the block. It lies in both bitmaps, which have as many planes; all pixels outside it stay as they were. A block of no
/// column or of no row changes nothing.
pub fn copy_block(to: &mut Planes, source: &Planes, block: Block)
    requires { IsBlockOf block to.old source.now }
    ensures { to.new ≡ with_block block source.now to.old }
{
    // Reading these tells the proof that the bitmaps are sound.
    let depth = to.depth();
    let _ = source.depth();
    // `rows` and `rows_mut` lend one row at least.
    if block.height == 0 {
        return;
    }
    for plane in 0..depth {
        copy_plane(to, source, block, plane);
    }
}

// Copies one plane of the block.
fn copy_plane(to: &mut Planes, source: &Planes, block: Block, plane: u32)
    requires block { IsBlockOf block to.old source.now }
    requires some { 0 < block.height }
    requires plane { plane < to.old.depth }
    ensures { to.new ≡ with_bits (λ p x y. p == plane && in_block block x y) (block_pen block source.now) to.old }
{
    let columns = to.width();
    let steps = (row_bytes(columns), row_bytes(source.width()));
    let lines = source.rows(plane, block.source_y, block.height);
    copy_lines(
        to.rows_mut(plane, block.y, block.height),
        columns,
        steps.0,
        lines,
        steps.1,
        block,
    );
}

// Copies the bits of the block's lines. Each list of bytes begins with the block's first line, and has a line of so many bytes
// after the other. The bits behind the columns of a line are padding.
fn copy_lines(
    to: &mut [u8],
    columns: u32,
    to_step: usize,
    source: &[u8],
    source_step: usize,
    block: Block,
)
    requires inside { block.x + block.width ≤ columns }
    requires wide { columns ≤ 8 * to_step }
    requires source_wide { block.source_x + block.width ≤ 8 * source_step }
    requires long { length to.old ≡ block.height * to_step }
    requires source_long { length source.now ≡ block.height * source_step }
    ensures { (x j : ℕ) → x < columns → j < block.height → row_bit to.new (place_in to_step j x) ≡
        (if is_named block.x block.width x
        then row_bit source.now (place_in source_step j (block.source_x + (x - block.x)))
        else row_bit to.old (place_in to_step j x)) }
{
    // Whole lines that lie alike are one run of bytes.
    if block.width == columns && block.source_x == 0 && to_step == source_step {
        to.copy_from_slice(source);
    } else {
        combine_rows(
            to,
            to_step,
            block.x,
            source,
            source_step,
            block.source_x,
            block.height,
            block.width,
            COPY_MINTERM,
        );
    }
}

/// Gives all pixels of the block pen 0. The block lies in the bitmap, and its source isn't looked at; all pixels outside the
/// block stay as they were. A block of no column or of no row changes nothing.
pub fn clear_block(to: &mut Planes, block: Block)
    requires { IsBlockIn block to.old }
    ensures { to.new ≡ without_block block to.old }
{
    // Reading this tells the proof that the bitmap is sound.
    let depth = to.depth();
    // `rows` and `rows_mut` lend one row at least.
    if block.height == 0 {
        return;
    }
    for plane in 0..depth {
        clear_plane(to, block, plane);
    }
}

// Clears one plane of the block.
fn clear_plane(to: &mut Planes, block: Block, plane: u32)
    requires block { IsBlockIn block to.old }
    requires some { 0 < block.height }
    requires plane { plane < to.old.depth }
    ensures { to.new ≡ with_bits (λ p x y. p == plane && in_block block x y) (λ _ _. 0) to.old }
{
    let step = row_bytes(to.width());
    fill_rows(
        to.rows_mut(plane, block.y, block.height),
        step,
        block.height,
        block.x,
        block.width,
        false,
    );
}

// How many bytes a row of one plane has.
fn row_bytes(columns: u32) -> usize
    requires { columns ≤ 2048 }
    ensures { result ≡ row_bytes columns }
{
    (columns as usize + 15) / 16 * 2
}
