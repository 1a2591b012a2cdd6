// Painting rows of a layer: bands of rows that are alike, in a band blocks, and of a block the planes that the painter paints.

ghost use Rattle.std.specs.Prelude.{◌≡◌, ℕ, ◌+◌, ◌<◌, ◌≤◌, ◌&&◌, true, IfSome};
ghost use Rattle.lw_layer.specs.View.{draws};
ghost use Rattle.lw_draw.specs.Drawn.{drawn, in_rows, GivesBits};
ghost use Rattle.lw_draw.specs.Blocks.{IsBlock, AreBand, in_block};

use crate::blocks::{Block, band_at, row_in};
use crate::painter::Painter;
use crate::spans::{Places, before};
use crate::stretch::next_stretch;
use lw_layer::Layer;

/// Paints the drawable pixels of some rows and columns, as far as the layer has them. The painter has to reach these pixels, and
/// of a bit it has to make a bit. It takes no memory itself.
pub fn paint_rows<P: Painter>(layer: &mut Layer, rows: Places, columns: Places, painter: &P)
    requires bits { GivesBits (P.bit painter.now) }
    requires reached { (i j : ℕ) → in_rows layer.old rows.from rows.end columns.from columns.end i j ≡ true →
        P.reaches painter.now i j ≡ true }
    ensures { layer.new ≡ drawn
        (λ p i j. P.planes painter.now p && in_rows layer.old rows.from rows.end columns.from columns.end i j)
        (P.bit painter.now)
        layer.old }
{
    let rows = before(rows, layer.height());
    let columns = before(columns, layer.width());
    let mut y = rows.from;
    while y < rows.end {
        let count = band_at(layer, y, rows.end);
        paint_band(layer, y, count, columns, painter);
        y += count;
    }
}

// Paints the drawable pixels of some columns of a row. Where a block of drawable pixels that is known has all of them, none is
// looked for.
pub(crate) fn paint_row<P: Painter>(
    layer: &mut Layer,
    y: u32,
    columns: Places,
    known: Option<Block>,
    painter: &P,
)
    requires bits { GivesBits (P.bit painter.now) }
    requires row { y < 65536 }
    requires right { columns.end < 65536 }
    requires known { IfSome known (λ b. IsBlock layer.old (λ i j. draws layer.old i j) b) }
    requires reached { (i j : ℕ) → in_rows layer.old y (y + 1) columns.from columns.end i j ≡ true →
        P.reaches painter.now i j ≡ true }
    ensures { layer.new ≡ drawn
        (λ p i j. P.planes painter.now p && in_rows layer.old y (y + 1) columns.from columns.end i j)
        (P.bit painter.now)
        layer.old }
{
    match row_in(layer, known, y, columns) {
        Some(block) => paint_block(layer, block, painter),
        None => paint_band(layer, y, 1, columns, painter),
    }
}

// Paints the drawable pixels of some columns of rows that are alike, from row `y` on.
fn paint_band<P: Painter>(layer: &mut Layer, y: u32, rows: u32, columns: Places, painter: &P)
    requires bits { GivesBits (P.bit painter.now) }
    requires some { 0 < rows }
    requires top { y < 65536 }
    requires right { columns.end < 65536 }
    requires band { AreBand layer.old y rows }
    requires reached { (i j : ℕ) → in_rows layer.old y (y + rows) columns.from columns.end i j ≡ true →
        P.reaches painter.now i j ≡ true }
    ensures { layer.new ≡ drawn
        (λ p i j. P.planes painter.now p && in_rows layer.old y (y + rows) columns.from columns.end i j)
        (P.bit painter.now)
        layer.old }
{
    // Reading this tells the proof that the layer has only pens of its depth.
    let _ = layer.depth();
    let mut x = columns.from;
    while let Some(stretch) = next_stretch(layer, x, y, columns.end) {
        let block = Block {
            x: stretch.x,
            y,
            rows,
            run: stretch.run,
        };
        paint_block(layer, block, painter);
        x = stretch.x + stretch.run.len;
    }
}

// Paints a block in each plane that the painter paints.
pub(crate) fn paint_block<P: Painter>(layer: &mut Layer, block: Block, painter: &P)
    requires bits { GivesBits (P.bit painter.now) }
    requires block { IsBlock layer.old (λ i j. draws layer.old i j) block }
    requires reached { (i j : ℕ) → in_block block i j ≡ true → P.reaches painter.now i j ≡ true }
    ensures { layer.new ≡ drawn (λ p i j. P.planes painter.now p && in_block block i j) (P.bit painter.now) layer.old }
{
    for plane in 0..layer.depth() {
        if painter.has_plane(plane) {
            painter.paint_plane(layer, plane, block);
        }
    }
}
