ghost use Rattle.std.specs.Prelude.{◌≡◌};
ghost use Rattle.lw_machine.specs.Shapes.{rect_fill};
ghost use Rattle.lw_layer.specs.View.{shows, with_layer};
ghost use Rattle.lw_layer.specs.Drafts.{raster_of};
ghost use Rattle.lw_draw.specs.Drawn.{painted, in_rows};

use crate::filler::Filler;
use crate::painting::paint_rows;
use crate::spans::{Places, span};
use lw_layer::{Layer, Raster};
use lw_region::Rect;

/// Fills the rectangle's drawable pixels with the layer's pen A, or inverts them under COMPLEMENT, in the planes that the
/// mask has (`RectFill`). No memory is taken.
pub fn fill(layer: &mut Layer, rect: &Rect)
    ensures { layer.new ≡ with_layer (λ l. rect_fill (λ x y. shows layer.old x y) rect.now l) layer.old }
{
    let columns = span(rect.min_x(), rect.max_x(), layer.width());
    let rows = span(rect.min_y(), rect.max_y(), layer.height());
    fill_rows(layer, rows, columns, layer.raster());
}

/// Fills the drawable pixels of some rows and columns as `raster` says: with its pen A, or inverting them under COMPLEMENT, in
/// the planes that its mask has. No memory is taken.
pub fn fill_rows(layer: &mut Layer, rows: Places, columns: Places, raster: Raster)
    ensures { layer.new ≡ painted (raster_of raster)
        (λ i j. in_rows layer.old rows.from rows.end columns.from columns.end i j)
        layer.old }
{
    paint_rows(layer, rows, columns, &Filler { raster });
}
