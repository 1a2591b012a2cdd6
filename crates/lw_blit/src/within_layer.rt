// Blits and shifts within a layer: the sources are its pixels before the call.

ghost use Rattle.std.specs.Prelude.{◌≡◌, ◌==◌, ◌≤◌, ◌&&◌, pos, negsuc, ◌+ℤ◌, ◌≤ℤ◌, IsTrue};
ghost use Rattle.std.specs.Int.{bit_at};
ghost use Rattle.lw_calls.specs.Limits.{area_fits};
ghost use Rattle.lw_machine.specs.Blits.{clip_blit};
ghost use Rattle.lw_layer.specs.View.{shows, with_layer};
ghost use Rattle.lw_layer.specs.Copied.{kept_bit};
ghost use Rattle.lw_draw.specs.Drawn.{drawn, in_rows};
ghost use Rattle.lw_blit.specs.Blitting.{from_layer, masked, AreNear};

use crate::bands::{bands_down, bands_up};
use crate::moving::{move_of, move_planes};
use crate::places::{columns_of, rows_of};
use crate::transfers::{Transfer, transfer_of};
use lw_calls::Area;
use lw_draw::Places;
use lw_kernels::COPY_MINTERM;
use lw_layer::Layer;

/// Combines the drawable pixels of a rectangle of a layer with the layer's own pixels that go there, by the minterm and through
/// the mask (`ClipBlit`). The rectangles may overlap: the sources are as before the call. A pixel whose source isn't kept stays
/// as it was. No memory is taken.
pub fn within(layer: &mut Layer, area: &Area)
    requires fits { IsTrue (area_fits area.now) }
    ensures { layer.new
        ≡ with_layer (λ l. clip_blit (λ i j. shows layer.old i j) l (λ i j. shows layer.old i j) area.now l) layer.old }
{
    let columns = columns_of(area, layer.width(), layer.width());
    let rows = rows_of(area, layer.height(), layer.height());
    let mask = layer.raster().mask;
    if columns.from < columns.end {
        transfer_rows(layer, rows, columns, transfer_of(area), mask);
    }
}

/// Gives the drawable pixels of some rows and columns of a layer, in the planes that the mask has, the bits of the layer's own
/// pixels `dx` columns to the right and `dy` rows down, as they were before the call, and 0 where that pixel isn't kept. No
/// memory is taken.
pub fn shift_rows(layer: &mut Layer, rows: Places, columns: Places, dx: i32, dy: i32, mask: u8)
    requires bottom { rows.end ≤ 2048 }
    requires right { columns.end ≤ 2048 }
    requires dx_low { negsuc 65535 ≤ℤ dx }
    requires dx_high { dx ≤ℤ pos 65535 }
    requires dy_low { negsuc 65535 ≤ℤ dy }
    requires dy_high { dy ≤ℤ pos 65535 }
    ensures { layer.new ≡ drawn (λ p i j. bit_at mask p == 1 && in_rows layer.old rows.from rows.end columns.from columns.end i j)
        (λ p i j old. kept_bit layer.old p (pos i +ℤ dx) (pos j +ℤ dy)) layer.old }
{
    let transfer = Transfer {
        dx,
        dy,
        minterm: COPY_MINTERM,
        clears: true,
    };
    transfer_rows(layer, rows, columns, transfer, mask);
}

// Transfers some rows: as a move of a whole block if that is what it is, else band by band, in an order in which no row is read
// after it was written.
fn transfer_rows(layer: &mut Layer, rows: Places, columns: Places, transfer: Transfer, mask: u8)
    requires bottom { rows.end ≤ 2048 }
    requires right { columns.end ≤ 2048 }
    requires near { AreNear transfer }
    ensures { layer.new
        ≡ drawn (masked mask layer.old rows.from rows.end columns.from columns.end) (from_layer layer.old transfer) layer.old }
{
    if let Some(blocks) = move_of(layer, rows, columns, transfer) {
        move_planes(layer, blocks, transfer, mask);
    } else if transfer.dy >= 0 {
        bands_down(layer, rows, columns, transfer, mask);
    } else {
        bands_up(layer, rows, columns, transfer, mask);
    }
}
