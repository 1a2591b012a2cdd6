// Blits from a bitmap.

ghost use Rattle.std.specs.Prelude.{◌≡◌, ℕ, ◌==◌, ◌<◌, ◌&&◌, true, IsTrue};
ghost use Rattle.std.specs.Int.{bit_at};
ghost use Rattle.lw_calls.specs.Limits.{area_fits};
ghost use Rattle.lw_machine.specs.Blits.{blt_bitmap_rast_port};
ghost use Rattle.lw_layer.specs.View.{draws, shows, with_layer};
ghost use Rattle.lw_draw.specs.Blocks.{IsBlock, in_block};
ghost use Rattle.lw_draw.specs.Drawn.{drawn};
ghost use Rattle.lw_blit.specs.Blitting.{from_bits, is_source, IsNear};

use crate::lacking::source_plane;
use crate::places::{columns_of, rows_of, source_index};
use lw_calls::Area;
use lw_draw::{Block, Painter, combine_block, has_bit, paint_rows};
use lw_layer::Layer;
use lw_planes::Planes;

/// Combines the drawable pixels of a rectangle of a layer with the pixels of a bitmap that go there, by the minterm and through
/// the mask (`BltBitMapRastPort`). In planes that the bitmap lacks its bits are 0. No memory is taken.
pub fn from_bitmap(bitmap: &Planes, layer: &mut Layer, area: &Area)
    requires fits { IsTrue (area_fits area.now) }
    ensures { layer.new ≡ with_layer (λ l. blt_bitmap_rast_port bitmap.now (λ i j. shows layer.old i j) area.now l) layer.old }
{
    let columns = columns_of(area, bitmap.width(), layer.width());
    let rows = rows_of(area, bitmap.height(), layer.height());
    let mask = layer.raster().mask;
    let blit = BitmapBlit {
        bitmap,
        area: *area,
        mask,
    };
    paint_rows(layer, rows, columns, &blit);
}

// Paints with the pixels of a bitmap, in the planes of a mask.
#[derive(Clone, Copy)]
struct BitmapBlit<'a> {
    bitmap: &'a Planes,
    area: Area,
    mask: u8,
    ghost near: { IsNear area },
}

impl Painter for BitmapBlit<'_> {
    ghost planes = { λ s p. bit_at s.mask p == 1 };

    ghost reaches = { λ s. is_source s.bitmap.now s.area };

    ghost bit = { λ s. from_bits s.bitmap.now s.area };

    fn has_plane(&self, plane: u32) -> bool {
        has_bit(self.mask, plane)
    }

    fn paint_plane(&self, layer: &mut Layer, plane: u32, block: Block) {
        blit_plane(self.bitmap, layer, plane, block, self.area);
    }
}

// Blits one plane of a block.
fn blit_plane(bitmap: &Planes, layer: &mut Layer, plane: u32, block: Block, area: Area)
    requires near { IsNear area }
    requires plane { plane < layer.old.layer.bits.depth }
    requires block { IsBlock layer.old (λ i j. draws layer.old i j) block }
    requires sources { (i j : ℕ) → in_block block i j ≡ true → is_source bitmap.now area i j ≡ true }
    ensures { layer.new ≡ drawn (λ p i j. p == plane && in_block block i j) (from_bits bitmap.now area) layer.old }
{
    // Reading this tells the proof that no column and no row of the layer is far off.
    let _ = layer.width();
    let bit = source_index(block.x, area.sx, area.x);
    let line = source_index(block.y, area.sy, area.y);
    let step = (bitmap.width() as usize + 15) / 16 * 2;
    let (source, minterm) = source_plane(bitmap.depth(), plane, area.minterm);
    let bytes = bitmap.rows(source, line, block.rows);
    combine_block(layer, plane, block, bytes, step, bit, minterm);
}
