// Transfers within a layer band by band, and of a band piece by piece, in an order in which no pixel is read after it was
// written.

ghost use Rattle.std.specs.Prelude.{◌≡◌, ◌≤◌, pos, ◌≤ℤ◌};
ghost use Rattle.lw_draw.specs.Drawn.{drawn};
ghost use Rattle.lw_blit.specs.Blitting.{from_layer, masked, AreNear};

use crate::pieces::{band_rows, last_band, last_piece, piece_columns};
use crate::single_rows::transfer_piece;
use crate::transfers::Transfer;
use lw_draw::Places;
use lw_layer::Layer;

// From the top down: each source row lies no higher than where it goes, so that it wasn't written so far.
pub(crate) fn bands_down(
    layer: &mut Layer,
    rows: Places,
    columns: Places,
    transfer: Transfer,
    mask: u8,
)
    requires bottom { rows.end ≤ 2048 }
    requires right { columns.end ≤ 2048 }
    requires near { AreNear transfer }
    requires order { pos 0 ≤ℤ transfer.dy }
    ensures { layer.new
        ≡ drawn (masked mask layer.old rows.from rows.end columns.from columns.end) (from_layer layer.old transfer) layer.old }
{
    // Reading this tells the proof that the layer has only pens of its depth.
    let _ = layer.depth();
    let mut y = rows.from;
    while y < rows.end {
        let end = y + band_rows(layer, y, rows.end - y, transfer);
        let band = Places { from: y, end };
        transfer_band(layer, band, columns, transfer, mask);
        y = end;
    }
}

// From the bottom up: each source row lies no lower than where it goes.
pub(crate) fn bands_up(
    layer: &mut Layer,
    rows: Places,
    columns: Places,
    transfer: Transfer,
    mask: u8,
)
    requires bottom { rows.end ≤ 2048 }
    requires right { columns.end ≤ 2048 }
    requires near { AreNear transfer }
    requires order { transfer.dy ≤ℤ pos 0 }
    ensures { layer.new
        ≡ drawn (masked mask layer.old rows.from rows.end columns.from columns.end) (from_layer layer.old transfer) layer.old }
{
    // As above.
    let _ = layer.depth();
    let mut end = rows.end;
    while rows.from < end {
        let y = last_band(layer, rows.from, end, transfer);
        let band = Places { from: y, end };
        transfer_band(layer, band, columns, transfer, mask);
        end = y;
    }
}

// Transfers some rows piece by piece.
fn transfer_band(layer: &mut Layer, rows: Places, columns: Places, transfer: Transfer, mask: u8)
    requires bottom { rows.end ≤ 2048 }
    requires right { columns.end ≤ 2048 }
    requires near { AreNear transfer }
    ensures { layer.new
        ≡ drawn (masked mask layer.old rows.from rows.end columns.from columns.end) (from_layer layer.old transfer) layer.old }
{
    if transfer.dx >= 0 {
        pieces_right(layer, rows, columns, transfer, mask);
    } else {
        pieces_left(layer, rows, columns, transfer, mask);
    }
}

// From the left to the right: no source lies left of where it goes.
fn pieces_right(layer: &mut Layer, rows: Places, columns: Places, transfer: Transfer, mask: u8)
    requires bottom { rows.end ≤ 2048 }
    requires right { columns.end ≤ 2048 }
    requires near { AreNear transfer }
    requires order { pos 0 ≤ℤ transfer.dx }
    ensures { layer.new
        ≡ drawn (masked mask layer.old rows.from rows.end columns.from columns.end) (from_layer layer.old transfer) layer.old }
{
    // As above.
    let _ = layer.depth();
    let mut x = columns.from;
    while x < columns.end {
        let end = x + piece_columns(layer, x, rows.from, columns.end - x, transfer);
        let piece = Places { from: x, end };
        transfer_piece(layer, rows, piece, transfer, mask);
        x = end;
    }
}

// From the right to the left: no source lies right of where it goes.
fn pieces_left(layer: &mut Layer, rows: Places, columns: Places, transfer: Transfer, mask: u8)
    requires bottom { rows.end ≤ 2048 }
    requires right { columns.end ≤ 2048 }
    requires near { AreNear transfer }
    requires order { transfer.dx ≤ℤ pos 0 }
    ensures { layer.new
        ≡ drawn (masked mask layer.old rows.from rows.end columns.from columns.end) (from_layer layer.old transfer) layer.old }
{
    // As above.
    let _ = layer.depth();
    let mut end = columns.end;
    while columns.from < end {
        let x = last_piece(layer, columns.from, end, rows.from, transfer);
        let piece = Places { from: x, end };
        transfer_piece(layer, rows, piece, transfer, mask);
        end = x;
    }
}
