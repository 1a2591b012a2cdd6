// Blocks of pixels: bands of rows that are alike, and the runs of their first rows.

ghost use Rattle.std.specs.Prelude.{◌≡◌, ◌+◌, ◌<◌, ◌≤◌, IfSome};
ghost use Rattle.lw_layer.specs.View.{draws};
ghost use Rattle.lw_draw.specs.Blocks.{IsBlock, AreBand, IsRowBlock};

use crate::spans::Places;
use lw_layer::{Layer, Run};

/// Rows of pixels of a layer, one below another and of the same columns: each is a run, and their pens are in lines of one buffer
/// that follow one another.
#[derive(Clone, Copy)]
pub struct Block {
    /// The first pixel's column.
    pub x: u32,
    /// The first row.
    pub y: u32,
    /// How many rows there are, one at least.
    pub rows: u32,
    /// Where the pens of the first row's pixels are.
    pub run: Run,
}

/// How many rows from row `y` on, before row `end`, are like row `y`, so that each run of that row is a block with those below
/// it. It need not be all of them. `end` is at most the layer's height.
pub fn band_at(layer: &Layer, y: u32, end: u32) -> u32
    requires some { y < end }
    requires inside { end ≤ layer.now.layer.bits.height }
    ensures some { 0 < result }
    ensures ends { y + result ≤ end }
    ensures band { AreBand layer.now y result }
{
    // One row needs no search.
    if end - y == 1 {
        return 1;
    }
    layer.rows_alike(y).min(end - y)
}

// Some columns of a row as a block of drawable pixels, where one that is known has all of them. `None` promises nothing.
pub(crate) fn row_in(layer: &Layer, known: Option<Block>, y: u32, columns: Places) -> Option<Block>
    requires known { IfSome known (λ b. IsBlock layer.now (λ i j. draws layer.now i j) b) }
    ensures { IfSome result (λ b. IsRowBlock layer.now y columns b) }
{
    let Some(block) = known else {
        return None;
    };
    if y < block.y || columns.from < block.x || columns.from == columns.end {
        return None;
    }
    let down = y - block.y;
    if down >= block.rows || columns.end - block.x > block.run.len {
        return None;
    }
    // Reading this tells the proof that no buffer has many columns or lines.
    let _ = layer.step(block.run.buffer);
    Some(Block {
        x: columns.from,
        y,
        rows: 1,
        run: Run {
            buffer: block.run.buffer,
            line: block.run.line + down,
            bit: block.run.bit + (columns.from - block.x),
            len: columns.end - columns.from,
        },
    })
}
