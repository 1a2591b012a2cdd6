// Transfers within a layer of what isn't a move of a whole block: row by row, in an order in which no row is read after it was
// written.

ghost use Rattle.std.specs.Prelude.{◌≡◌, ◌+◌, ◌<◌, ◌≤◌, pos, ◌≤ℤ◌};
ghost use Rattle.lw_draw.specs.Drawn.{drawn};
ghost use Rattle.lw_blit.specs.Blitting.{from_layer, masked, AreNear};

use crate::moving::{move_of, move_planes};
use crate::painting::paint_row;
use crate::sources::{SourceRows, no_sources, read_sources};
use crate::transfers::Transfer;
use lw_draw::{Places, next_stretch};
use lw_layer::Layer;

// Transfers a piece of a band: as a move of a whole block if that is what it is, else row by row.
pub(crate) fn transfer_piece(
    layer: &mut Layer,
    rows: Places,
    columns: Places,
    transfer: Transfer,
    mask: u8,
)
    requires bottom { rows.end ≤ 2048 }
    requires right { columns.end ≤ 2048 }
    requires near { AreNear transfer }
    ensures { layer.new
        ≡ drawn (masked mask layer.old rows.from rows.end columns.from columns.end) (from_layer layer.old transfer) layer.old }
{
    if let Some(blocks) = move_of(layer, rows, columns, transfer) {
        move_planes(layer, blocks, transfer, mask);
    } else if transfer.dy >= 0 {
        rows_down(layer, rows, columns, transfer, mask);
    } else {
        rows_up(layer, rows, columns, transfer, mask);
    }
}

// Transfers some rows from the top down: each source row lies no higher than where it goes, so that it wasn't written so far.
fn rows_down(layer: &mut Layer, rows: Places, columns: Places, transfer: Transfer, mask: u8)
    requires bottom { rows.end ≤ 2048 }
    requires right { columns.end ≤ 2048 }
    requires near { AreNear transfer }
    requires order { pos 0 ≤ℤ transfer.dy }
    ensures { layer.new
        ≡ drawn (masked mask layer.old rows.from rows.end columns.from columns.end) (from_layer layer.old transfer) layer.old }
{
    // Reading this tells the proof that the layer has only pens of its depth.
    let _ = layer.depth();
    let mut sources = no_sources();
    for y in rows.from..rows.end {
        transfer_row(layer, y, columns, transfer, mask, &mut sources);
    }
}

// Transfers some rows from the bottom up: each source row lies no lower than where it goes.
fn rows_up(layer: &mut Layer, rows: Places, columns: Places, transfer: Transfer, mask: u8)
    requires bottom { rows.end ≤ 2048 }
    requires right { columns.end ≤ 2048 }
    requires near { AreNear transfer }
    requires order { transfer.dy ≤ℤ pos 0 }
    ensures { layer.new
        ≡ drawn (masked mask layer.old rows.from rows.end columns.from columns.end) (from_layer layer.old transfer) layer.old }
{
    // As above.
    let _ = layer.depth();
    let mut sources = no_sources();
    for y in (rows.from..rows.end).rev() {
        transfer_row(layer, y, columns, transfer, mask, &mut sources);
    }
}

// Transfers a row, if any of its pixels is drawable, once all of their sources are read.
fn transfer_row(
    layer: &mut Layer,
    y: u32,
    columns: Places,
    transfer: Transfer,
    mask: u8,
    sources: &mut SourceRows,
)
    requires row { y < 2048 }
    requires right { columns.end ≤ 2048 }
    requires near { AreNear transfer }
    ensures { layer.new
        ≡ drawn (masked mask layer.old y (y + 1) columns.from columns.end) (from_layer layer.old transfer) layer.old }
{
    let planes = layer.depth();
    let Some(_) = next_stretch(layer, columns.from, y, columns.end) else {
        return;
    };
    read_sources(layer, planes, y, columns, transfer, mask, sources);
    paint_row(layer, y, columns, sources, mask, transfer.minterm);
}
