// Painting rows of bits: what lies over a block, in one plane.

ghost use Rattle.std.specs.Prelude.{◌≡◌, ◌==◌, ◌+◌, ◌*◌, ◌<◌, ◌≤◌, ◌&&◌, ℕ, length, true};
ghost use Rattle.lw_layer.specs.View.{draws};
ghost use Rattle.lw_draw.specs.Blocks.{IsBlock, in_block, block_bit};
ghost use Rattle.lw_draw.specs.Drawn.{drawn};
ghost use Rattle.lw_draw.specs.Combined.{combined_over, is_over};

use crate::blocks::Block;
use crate::overlay::Overlay;
use lw_kernels::combine_rows;
use lw_layer::Layer;

/// Gives the pixels of a block in one plane the minterm's values of bits, which are B, and of their own, which are C. Row by row
/// the bits are in the bytes, `step` bytes apart, from bit `bit` of each row on. The bits of a row lie within `step` bytes, and
/// the bytes have all rows.
pub fn combine_block(
    layer: &mut Layer,
    plane: u32,
    block: Block,
    bytes: &[u8],
    step: usize,
    bit: u32,
    minterm: u8,
)
    requires plane { plane < layer.old.layer.bits.depth }
    requires block { IsBlock layer.old (λ i j. draws layer.old i j) block }
    requires inside { bit + block.run.len ≤ 8 * step }
    requires all { block.rows * step ≤ length bytes.now }
    ensures { layer.new ≡ drawn
        (λ p i j. p == plane && in_block block i j)
        (block_bit minterm bytes.now step bit block)
        layer.old }
{
    let Block { rows, run, .. } = block;
    let own_step = layer.step(run.buffer);
    let own = layer.lines_mut(plane, run.buffer, run.line, rows);
    combine_rows(
        own, own_step, run.bit, bytes, step, bit, rows, run.len, minterm,
    );
}

/// The same of rows of bits that lie over all pixels of the block.
pub fn combine_over(
    layer: &mut Layer,
    plane: u32,
    block: Block,
    bytes: &[u8],
    overlay: Overlay,
    minterm: u8,
)
    requires plane { plane < layer.old.layer.bits.depth }
    requires block { IsBlock layer.old (λ i j. draws layer.old i j) block }
    requires over { (i j : ℕ) → in_block block i j ≡ true → is_over overlay (length bytes.now) i j ≡ true }
    ensures { layer.new ≡ drawn
        (λ p i j. p == plane && in_block block i j)
        (combined_over minterm bytes.now overlay)
        layer.old }
{
    let above = (block.y - overlay.row) as usize;
    let (_, below) = bytes.split_at(above * overlay.step);
    let bit = overlay.bit + (block.x - overlay.column);
    combine_block(layer, plane, block, below, overlay.step, bit, minterm);
}
