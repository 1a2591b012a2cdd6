// Where a transfer within a layer is cut, so that most of its pieces are moves of whole blocks. It is a matter of time alone:
// each cut gives the same pixels.

ghost use Rattle.std.specs.Prelude.{◌<◌, ◌≤◌, negsuc, pos, ◌≤ℤ◌};
ghost use Rattle.lw_blit.specs.Blitting.{AreNear};

use crate::places::source_place;
use crate::transfers::Transfer;
use lw_layer::Layer;

// The last band is looked for in so many rows.
const REACH: u32 = 32;

// Of so many rows from row `y` on, how many are alike, as are those of their sources.
pub(crate) fn band_rows(layer: &Layer, y: u32, most: u32, transfer: Transfer) -> u32
    requires some { 0 < most }
    requires row { y ≤ 2048 }
    requires near { AreNear transfer }
    ensures some { 0 < result }
    ensures most { result ≤ most }
{
    let here = rows_alike(layer, y as i32);
    let there = rows_alike(layer, source_place(y, transfer.dy));
    here.min(there).min(most)
}

// How many rows from row `y` on are alike, if the layer has that row.
fn rows_alike(layer: &Layer, y: i32) -> u32
    ensures { 0 < result }
{
    if 0 <= y && y < layer.height() as i32 {
        layer.rows_alike(y as u32)
    } else {
        1
    }
}

// The first row of the last such band of some rows.
pub(crate) fn last_band(layer: &Layer, from: u32, end: u32, transfer: Transfer) -> u32
    requires some { from < end }
    requires bottom { end ≤ 2048 }
    requires near { AreNear transfer }
    ensures first { from ≤ result }
    ensures last { result < end }
{
    let mut y = if end - from > REACH {
        end - REACH
    } else {
        from
    };
    let mut next = y + band_rows(layer, y, end - y, transfer);
    while next < end {
        y = next;
        next = y + band_rows(layer, y, end - y, transfer);
    }
    y
}

// Of so many columns from column `x` on in row `y`, how many have their pens in one buffer, as have their sources.
pub(crate) fn piece_columns(layer: &Layer, x: u32, y: u32, most: u32, transfer: Transfer) -> u32
    requires some { 0 < most }
    requires most { most ≤ 2048 }
    requires column { x ≤ 2048 }
    requires row { y ≤ 2048 }
    requires near { AreNear transfer }
    ensures some { 0 < result }
    ensures most { result ≤ most }
{
    let drawable = drawable_columns(layer, x as i32, y as i32, most);
    let (column, row) = (source_place(x, transfer.dx), source_place(y, transfer.dy));
    let kept = kept_columns(layer, column, row, most);
    drawable.min(kept).clamp(1, most)
}

// Of so many columns, how many are a run of drawable pixels, or how many pixels are not drawable.
fn drawable_columns(layer: &Layer, x: i32, y: i32, most: u32) -> u32
    requires most { most ≤ 2048 }
    requires low { negsuc 200000 ≤ℤ x }
    requires high { x ≤ℤ pos 200000 }
{
    if let Some(run) = layer.run_at(x, y) {
        return run.len;
    }
    match layer.next_drawable(x, y, x + most as i32 - 1) {
        None => most,
        Some(next) => (next - x) as u32,
    }
}

// The same of kept pixels.
fn kept_columns(layer: &Layer, x: i32, y: i32, most: u32) -> u32
    requires most { most ≤ 2048 }
    requires low { negsuc 200000 ≤ℤ x }
    requires high { x ≤ℤ pos 200000 }
{
    if let Some(run) = layer.kept_run_at(x, y) {
        return run.len;
    }
    match layer.next_kept(x, y, x + most as i32 - 1) {
        None => most,
        Some(next) => (next - x) as u32,
    }
}

// The first column of the last such piece of some columns.
pub(crate) fn last_piece(layer: &Layer, from: u32, end: u32, y: u32, transfer: Transfer) -> u32
    requires some { from < end }
    requires right { end ≤ 2048 }
    requires row { y ≤ 2048 }
    requires near { AreNear transfer }
    ensures first { from ≤ result }
    ensures last { result < end }
{
    let mut x = from;
    let mut next = x + piece_columns(layer, x, y, end - x, transfer);
    while next < end {
        x = next;
        next = x + piece_columns(layer, x, y, end - x, transfer);
    }
    x
}
