// Painting blocks of a layer with a tile, plane by plane.

ghost use Rattle.std.specs.Prelude.{◌≡◌, ◌==◌, ◌+◌, ◌<◌, ◌≤◌, ◌&&◌, true};
ghost use Rattle.lw_layer.specs.View.{draws};
ghost use Rattle.lw_draw.specs.Blocks.{IsBlock, in_block};
ghost use Rattle.lw_draw.specs.Drawn.{drawn};
ghost use Rattle.lw_hook_fill.specs.Filling.{byte_bit, tile_bit};

use lw_draw::{Block, Painter, combine_block};
use lw_kernels::COPY_MINTERM;
use lw_layer::{Layer, Run};

// A row of a layer is at most 2048 pixels wide.
const MOST: usize = 256;

// A tile in bits: for each of its rows a byte for each plane.
#[derive(Clone, Copy)]
pub(crate) struct Tile<'a> {
    pub rows: &'a [[u8; 8]; 8],
}

impl<'a> Painter for Tile<'a> {
    ghost planes = { λ t p. true };

    ghost reaches = { λ t i j. true };

    ghost bit = { λ t. tile_bit t.rows.now };

    fn has_plane(&self, _plane: u32) -> bool {
        true
    }

    fn paint_plane(&self, layer: &mut Layer, plane: u32, block: Block) {
        tile_block(layer, plane, block, self.rows);
    }
}

// Gives the pixels of a block in one plane the bits of a tile, row by row.
fn tile_block(layer: &mut Layer, plane: u32, block: Block, tile: &[[u8; 8]; 8])
    requires plane { plane < layer.old.layer.bits.depth }
    requires block { IsBlock layer.old (λ i j. draws layer.old i j) block }
    ensures { layer.new ≡ drawn (λ p i j. p == plane && in_block block i j) (tile_bit tile.now) layer.old }
{
    // Reading these tells the proof that the layer has at most eight planes and 2048 columns and rows and only pens of its depth,
    // and that the buffer has at most 2048 lines.
    let _ = layer.depth();
    let _ = layer.step(block.run.buffer);
    for row in 0..block.rows {
        let y = block.y + row;
        let line = block.run.line + row;
        let one = Block {
            x: block.x,
            y,
            rows: 1,
            run: Run { line, ..block.run },
        };
        tile_row(layer, plane, one, tile[y as usize % 8][plane as usize]);
    }
}

// Gives the pixels of a block of one row in one plane the bits of a byte, over and over again.
fn tile_row(layer: &mut Layer, plane: u32, block: Block, byte: u8)
    requires plane { plane < layer.old.layer.bits.depth }
    requires block { IsBlock layer.old (λ i j. draws layer.old i j) block }
    requires one { block.rows ≡ 1 }
    requires right { block.x + block.run.len ≤ 2048 }
    ensures { layer.new ≡ drawn
        (λ p i j. p == plane && in_block block i j)
        (λ p i j old. byte_bit byte i)
        layer.old }
{
    let bits = [byte; MOST];
    combine_block(layer, plane, block, &bits, MOST, block.x, COPY_MINTERM);
}
