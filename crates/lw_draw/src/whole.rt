// All pixels of some rows and columns as one block, which is what most calls on a layer that lies in front come down to.

ghost use Rattle.std.specs.Prelude.{◌≡◌, ◌<◌, ◌≤◌, IfSome};
ghost use Rattle.lw_layer.specs.View.{keeps, draws};
ghost use Rattle.lw_draw.specs.Blocks.{IsWholeBlock, IsCut};

use crate::blocks::{Block, band_at};
use crate::spans::Places;
use lw_layer::{Layer, Run};

/// All pixels of some rows and columns as one block of drawable pixels. `None` promises nothing: there may be such a block all
/// the same.
pub fn whole_block(layer: &Layer, rows: Places, columns: Places) -> Option<Block>
    requires bottom { rows.end < 65536 }
    requires right { columns.end < 65536 }
    ensures { IfSome result (λ b. IsWholeBlock layer.now (λ i j. draws layer.now i j) rows columns b) }
{
    let Some(run) = layer.run_at(columns.from as i32, rows.from as i32) else {
        return None;
    };
    cut_whole(layer, rows, columns, run)
}

/// All pixels of some rows and columns as one block of kept pixels. `None` promises nothing here either.
pub fn whole_kept_block(layer: &Layer, rows: Places, columns: Places) -> Option<Block>
    requires bottom { rows.end < 65536 }
    requires right { columns.end < 65536 }
    ensures { IfSome result (λ b. IsWholeBlock layer.now (λ i j. keeps layer.now i j) rows columns b) }
{
    let Some(run) = layer.kept_run_at(columns.from as i32, rows.from as i32) else {
        return None;
    };
    cut_whole(layer, rows, columns, run)
}

// A run from the first of these pixels on, cut to their columns and taken down through their rows, if it is that long and they
// are alike.
fn cut_whole(layer: &Layer, rows: Places, columns: Places, run: Run) -> Option<Block>
    ensures { IfSome result (λ b. IsCut layer.now rows columns run b) }
{
    if rows.from == rows.end || rows.end > layer.height() {
        return None;
    }
    let len = columns.end - columns.from;
    let count = rows.end - rows.from;
    if len == 0 || run.len < len || band_at(layer, rows.from, rows.end) < count {
        return None;
    }
    Some(Block {
        x: columns.from,
        y: rows.from,
        rows: count,
        run: Run { len, ..run },
    })
}
