// Blits from a layer: bands of its rows that are alike, in a band runs of kept pixels, and what goes there of each.

ghost use Rattle.std.specs.Prelude.{◌≡◌, ℕ, ◌==◌, ◌+◌, ◌-◌, ◌<◌, ◌≤◌, ◌&&◌, ◌^◌, true, pos, IsTrue};
ghost use Rattle.std.specs.Int.{bit_at};
ghost use Rattle.lw_kernels.specs.Kernel.{is_between};
ghost use Rattle.lw_calls.specs.Limits.{area_fits};
ghost use Rattle.lw_machine.specs.Blits.{clip_blit, source_row};
ghost use Rattle.lw_layer.specs.View.{keeps, draws, shows, with_layer};
ghost use Rattle.lw_draw.specs.Blocks.{IsBlock, AreBand, in_block};
ghost use Rattle.lw_draw.specs.Drawn.{drawn, in_rows};
ghost use Rattle.lw_blit.specs.Blitting.{from_bits, is_source, leads_to, taken, IsNear};

use crate::lacking::source_plane;
use crate::places::{columns_of, rows_of, source_index};
use lw_calls::Area;
use lw_draw::{
    Block, Painter, Places, band_at, combine_block, has_bit, next_kept_stretch, paint_rows,
};
use lw_layer::Layer;

/// Combines the drawable pixels of a rectangle of a layer with the pixels of another layer that go there, by the minterm and
/// through the mask of the former (`ClipBlit`). A pixel whose source that other layer doesn't keep stays as it was.
/// No memory is taken.
pub fn between(source: &Layer, to: &mut Layer, area: &Area)
    requires fits { IsTrue (area_fits area.now) }
    ensures { to.new ≡ with_layer
        (λ l. clip_blit (λ i j. shows source.now i j) source.now.layer (λ i j. shows to.old i j) area.now l) to.old }
{
    let columns = columns_of(area, source.width(), to.width());
    let rows = rows_of(area, source.height(), to.height());
    let mask = to.raster().mask;
    if columns.from < columns.end {
        between_rows(source, to, rows, columns, *area, mask);
    }
}

// Blits some rows, whose sources lie in the source.
fn between_rows(source: &Layer, to: &mut Layer, rows: Places, columns: Places, area: Area, mask: u8)
    requires bottom { rows.end ≤ 2048 }
    requires right { columns.end ≤ 2048 }
    requires some { columns.from < columns.end }
    requires near { IsNear area }
    requires sources { (i j : ℕ) → is_between rows.from rows.end j ≡ true → is_between columns.from columns.end i ≡ true →
        is_source source.now.layer.bits area i j ≡ true }
    ensures { to.new ≡ drawn
        (taken mask to.old source.now area rows.from rows.end columns.from columns.end)
        (from_bits source.now.layer.bits area)
        to.old }
{
    // Reading this tells the proof that the layer has only pens of its depth.
    let _ = to.depth();
    let _ = source.height();
    let mut y = rows.from;
    while y < rows.end {
        let line = source_index(y, area.sy, area.y);
        let count = band_at(source, line, line + (rows.end - y));
        let end = y + count;
        let band = Places { from: y, end };
        between_band(source, to, band, columns, line, area, mask);
        y = end;
    }
}

// Blits some rows whose sources are alike, from this row of the source on.
fn between_band(
    source: &Layer,
    to: &mut Layer,
    rows: Places,
    columns: Places,
    line: u32,
    area: Area,
    mask: u8,
)
    requires bottom { rows.end ≤ 2048 }
    requires right { columns.end ≤ 2048 }
    requires high { rows.from < rows.end }
    requires some { columns.from < columns.end }
    requires near { IsNear area }
    requires line { pos line ≡ source_row area rows.from }
    requires low { line < 2 ^ 20 }
    requires alike { AreBand source.now line (rows.end - rows.from) }
    requires sources { (i j : ℕ) → is_between rows.from rows.end j ≡ true → is_between columns.from columns.end i ≡ true →
        is_source source.now.layer.bits area i j ≡ true }
    ensures { to.new ≡ drawn
        (taken mask to.old source.now area rows.from rows.end columns.from columns.end)
        (from_bits source.now.layer.bits area)
        to.old }
{
    // As above.
    let _ = to.depth();
    let _ = source.width();
    let first = source_index(columns.from, area.sx, area.x);
    let end = first + (columns.end - columns.from);
    let mut x = first;
    while let Some(stretch) = next_kept_stretch(source, x, line, end) {
        let from = columns.from + (stretch.x - first);
        let piece = Places {
            from,
            end: from + stretch.run.len,
        };
        let kept = Block {
            x: stretch.x,
            y: line,
            rows: rows.end - rows.from,
            run: stretch.run,
        };
        between_piece(source, to, rows, piece, kept, area, mask);
        x = stretch.x + stretch.run.len;
    }
}

// Blits some rows and columns, whose sources are a block of kept pixels.
fn between_piece(
    source: &Layer,
    to: &mut Layer,
    rows: Places,
    columns: Places,
    kept: Block,
    area: Area,
    mask: u8,
)
    requires bottom { rows.end ≤ 2048 }
    requires right { columns.end ≤ 2048 }
    requires near { IsNear area }
    requires kept { IsBlock source.now (λ i j. keeps source.now i j) kept }
    requires sources { (i j : ℕ) → is_between rows.from rows.end j ≡ true → is_between columns.from columns.end i ≡ true →
        leads_to kept area i j ≡ true }
    ensures { to.new ≡ drawn
        (λ p i j. bit_at mask p == 1 && in_rows to.old rows.from rows.end columns.from columns.end i j)
        (from_bits source.now.layer.bits area)
        to.old }
{
    let blit = LayerBlit {
        source,
        kept,
        area,
        mask,
    };
    paint_rows(to, rows, columns, &blit);
}

// Paints with the pixels of a block that a layer keeps, in the planes of a mask.
#[derive(Clone, Copy)]
struct LayerBlit<'a> {
    source: &'a Layer,
    kept: Block,
    area: Area,
    mask: u8,
    ghost near: { IsNear area },
    ghost block: { IsBlock source.now (λ i j. keeps source.now i j) kept },
}

impl Painter for LayerBlit<'_> {
    ghost planes = { λ s p. bit_at s.mask p == 1 };

    ghost reaches = { λ s. leads_to s.kept s.area };

    ghost bit = { λ s. from_bits s.source.now.layer.bits s.area };

    fn has_plane(&self, plane: u32) -> bool {
        has_bit(self.mask, plane)
    }

    fn paint_plane(&self, layer: &mut Layer, plane: u32, block: Block) {
        blit_block(self.source, self.kept, layer, plane, block, self.area);
    }
}

// Blits one plane of a block.
fn blit_block(source: &Layer, kept: Block, layer: &mut Layer, plane: u32, block: Block, area: Area)
    requires near { IsNear area }
    requires kept { IsBlock source.now (λ i j. keeps source.now i j) kept }
    requires plane { plane < layer.old.layer.bits.depth }
    requires block { IsBlock layer.old (λ i j. draws layer.old i j) block }
    requires sources { (i j : ℕ) → in_block block i j ≡ true → leads_to kept area i j ≡ true }
    ensures { layer.new ≡ drawn (λ p i j. p == plane && in_block block i j) (from_bits source.now.layer.bits area) layer.old }
{
    // Reading this tells the proof that no column and no row of the layer is far off.
    let _ = layer.width();
    let column = source_index(block.x, area.sx, area.x);
    let row = source_index(block.y, area.sy, area.y);
    let step = source.step(kept.run.buffer);
    let line = kept.run.line + (row - kept.y);
    let bit = kept.run.bit + (column - kept.x);
    let (from, minterm) = source_plane(source.depth(), plane, area.minterm);
    let bytes = source.lines(from, kept.run.buffer, line, block.rows);
    combine_block(layer, plane, block, bytes, step, bit, minterm);
}
