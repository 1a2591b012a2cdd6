// Painting the drawable pixels of rectangles of a layer with a tile.

ghost use Rattle.std.specs.Prelude.{◌≡◌};
ghost use Rattle.lw_draw.specs.Drawn.{drawn};
ghost use Rattle.lw_hook_fill.specs.Filling.{tile_bit, in_rectangle, in_rectangles};

use crate::painting::Tile;
use lw_draw::{paint_rows, span};
use lw_layer::Layer;
use lw_region::Rect;

// Gives the drawable pixels of some rectangles the bits of a tile, which has for each of its rows a byte for each plane.
pub(crate) fn paint_rects(layer: &mut Layer, rects: &[Rect], tile: &[[u8; 8]; 8])
    ensures { layer.new ≡ drawn (λ p i j. in_rectangles layer.old rects.now i j) (tile_bit tile.now) layer.old }
{
    // Reading this tells the proof that the layer has only pens of its depth.
    let _ = layer.depth();
    for rect in rects {
        paint_rect(layer, rect, tile);
    }
}

// The same of one rectangle.
fn paint_rect(layer: &mut Layer, rect: &Rect, tile: &[[u8; 8]; 8])
    ensures { layer.new ≡ drawn (λ p i j. in_rectangle layer.old rect.now i j) (tile_bit tile.now) layer.old }
{
    let columns = span(rect.min_x(), rect.max_x(), layer.width());
    let rows = span(rect.min_y(), rect.max_y(), layer.height());
    paint_rows(layer, rows, columns, &Tile { rows: tile });
}
