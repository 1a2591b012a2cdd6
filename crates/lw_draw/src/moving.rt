// Moving pixels within one buffer of a layer: a block onto another one.

ghost use Rattle.std.specs.Prelude.{◌≡◌, ◌==◌, ◌<◌, ◌&&◌};
ghost use Rattle.lw_layer.specs.View.{keeps, draws};
ghost use Rattle.lw_draw.specs.Blocks.{IsBlock, HaveOneShape, in_block, moved_bit};
ghost use Rattle.lw_draw.specs.Drawn.{drawn};

use crate::blocks::Block;
use lw_kernels::{Corner, combine_rows_within};
use lw_layer::Layer;

/// Gives the pixels of a block in one plane the minterm's values of those of another block of the same buffer and the same size,
/// as they were before, which are B, and of their own, which are C. The blocks may overlap.
pub fn move_block(layer: &mut Layer, plane: u32, to: Block, source: Block, minterm: u8)
    requires plane { plane < layer.old.layer.bits.depth }
    requires to { IsBlock layer.old (λ i j. draws layer.old i j) to }
    requires source { IsBlock layer.old (λ i j. keeps layer.old i j) source }
    requires shape { HaveOneShape to source }
    ensures { layer.new ≡ drawn
        (λ p i j. p == plane && in_block to i j)
        (moved_bit minterm layer.old to source)
        layer.old }
{
    let step = layer.step(to.run.buffer);
    let first = to.run.line.min(source.run.line);
    let upto = to.run.line.max(source.run.line) + to.rows;
    let bytes = layer.lines_mut(plane, to.run.buffer, first, upto - first);
    let corner = Corner {
        row: to.run.line - first,
        bit: to.run.bit,
    };
    let from = Corner {
        row: source.run.line - first,
        bit: source.run.bit,
    };
    combine_rows_within(bytes, step, corner, from, to.rows, to.run.len, minterm);
}
