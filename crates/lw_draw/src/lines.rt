ghost use Rattle.std.specs.Prelude.{◌≡◌, ℕ, ◌+◌, ◌<◌, ◌≤◌, pos, true, IfSome};
ghost use Rattle.lw_kernels.specs.Kernel.{is_between};
ghost use Rattle.lw_machine.specs.Shapes.{draw_line};
ghost use Rattle.lw_layer.specs.View.{shows, draws, with_layer};
ghost use Rattle.lw_layer.specs.Drafts.{raster_of};
ghost use Rattle.lw_draw.specs.Blocks.{IsBlock};
ghost use Rattle.lw_draw.specs.Drawn.{painted};
ghost use Rattle.lw_draw.specs.LineSpans.{has_row, in_reach, on_line_rows};
ghost use Rattle.lw_draw.specs.Walks.{IsWalk};

use crate::blocks::Block;
use crate::filler::Filler;
use crate::painting::paint_row;
use crate::row_spans::{Line, Reach, row_span};
use crate::spans::{Places, edge, span};
use crate::walks::{Walk, next_row, walk_at};
use crate::whole::whole_block;
use lw_layer::{Layer, Raster};

/// Draws a line from the layer's cursor to (x, y), each drawable pixel once, with the layer's pen A, or inverts it under
/// COMPLEMENT, in the planes that the mask has. The cursor then stands at its end (`Draw`). No memory is taken.
pub fn line(layer: &mut Layer, x: i16, y: i16)
    ensures { layer.new ≡ with_layer (λ l. draw_line (λ i j. shows layer.old i j) x y l) layer.old }
{
    let raster = layer.raster();
    let line = Line {
        x0: raster.x,
        y0: raster.y,
        x1: x,
        y1: y,
    };
    let rows = span(raster.y.min(y), raster.y.max(y), layer.height());
    line_rows(layer, rows, line, raster);
    layer.set_raster(Raster {
        a: raster.a,
        b: raster.b,
        mode: raster.mode,
        mask: raster.mask,
        x,
        y,
    });
}

// Draws the pixels that a line has in some of its rows.
fn line_rows(layer: &mut Layer, rows: Places, line: Line, raster: Raster)
    requires bottom { rows.end < 65536 }
    requires inside { (j : ℕ) → is_between rows.from rows.end j ≡ true → has_row line (pos j) ≡ true }
    ensures { layer.new ≡ painted (raster_of raster)
        (λ i j. on_line_rows layer.old line rows.from rows.end i j)
        layer.old }
{
    let columns = span(line.x0.min(line.x1), line.x0.max(line.x1), layer.width());
    if rows.from == rows.end {
        return;
    }
    let whole = whole_block(layer, rows, columns);
    // Only here the line is divided.
    let mut walk = walk_at(line, rows.from as i32);
    for y in rows.from..rows.end {
        line_row(layer, y, line, walk, whole, raster);
        walk = next_row(walk, line, y, rows.end);
    }
}

// Draws the pixels that a line has in one of its rows, in which it stands so. All of them may be in a block that is known.
fn line_row(layer: &mut Layer, y: u32, line: Line, walk: Walk, known: Option<Block>, raster: Raster)
    requires row { y < 65536 }
    requires inside { has_row line (pos y) ≡ true }
    requires walk { IsWalk line (pos y) walk }
    requires known { IfSome known (λ b. IsBlock layer.old (λ i j. draws layer.old i j) b) }
    ensures { layer.new ≡ painted (raster_of raster) (λ i j. on_line_rows layer.old line y (y + 1) i j) layer.old }
{
    let columns = within_extent(row_span(line, y as i32, walk), layer.width());
    paint_row(layer, y, columns, known, &Filler { raster });
}

// Of some columns those from 0 on and before the extent.
fn within_extent(reach: Reach, extent: u32) -> Places
    requires { extent ≤ 2048 }
    ensures inside { result.end ≤ extent }
    ensures has { (u : ℕ) → u < extent → in_reach reach (pos u) ≡ is_between result.from result.end u }
{
    let from = edge(reach.from, extent);
    let end = edge(reach.end, extent);
    Places {
        from,
        end: end.max(from),
    }
}
