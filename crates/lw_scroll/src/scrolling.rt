ghost use Rattle.std.specs.Prelude.{◌≡◌, pos, negsuc, ◌≤ℤ◌, OnOk, OnErr};
ghost use Rattle.lw_machine.specs.Blits.{scroll_raster as with_raster_scrolled};
ghost use Rattle.lw_layer.specs.View.{shows, with_layer};
ghost use Rattle.lw_layer.specs.Drafts.{raster_of};
ghost use Rattle.lw_draw.specs.Drawn.{painted, in_rows};
ghost use Rattle.lw_scroll.specs.Scrolled.{pens_scrolled};

use crate::block::{beside, block_of, brought_block};
use crate::damage::damage_after;
use lw_blit::shift_rows;
use lw_draw::{Places, fill_rows};
use lw_layer::{Layer, Raster};
use lw_region::Rect;
use std::alloc::{AllocError, Global};

/// Moves what lies in a rectangle of the layer by `dx` columns to the left and `dy` rows up (`ScrollRaster`). Each drawable pixel
/// of the rectangle takes, in the planes that the mask has, the pen of the pixel `dx` columns to the right and `dy` rows down,
/// and pen B where that one lies outside the rectangle. From a pixel that isn't kept it takes pen 0. With its pen a pixel takes
/// the damage; what comes from a pixel that isn't kept is damaged, and what takes pen B keeps its own (how damage moves is this
/// project's own). All pens and all damage are taken as they were before the call. The steps are from -65535 to 65535. The new
/// damage takes all the memory, and comes first: after an error the layer is as before.
pub fn scroll_raster(
    alloc: Global,
    layer: &mut Layer,
    dx: i32,
    dy: i32,
    rect: &Rect,
) -> Result<(), AllocError>
    requires left { negsuc 65534 ≤ℤ dx }
    requires right { dx ≤ℤ pos 65535 }
    requires up { negsuc 65534 ≤ℤ dy }
    requires down { dy ≤ℤ pos 65535 }
    ensures done { OnOk result (layer.new
        ≡ with_layer (λ l. with_raster_scrolled (λ i j. shows layer.old i j) dx dy rect.now l) layer.old) }
    ensures err { OnErr result (layer.new ≡ layer.old) }
{
    let damage = damage_after(alloc, layer, rect, dx, dy)?;
    scroll_pens(layer, rect, dx, dy);
    if let Some(damage) = damage {
        layer.set_damage(damage);
    }
    Ok(())
}

// Scrolls the pens: the pixels that take another one's first, and then those that take pen B.
fn scroll_pens(layer: &mut Layer, rect: &Rect, dx: i32, dy: i32)
    requires left { negsuc 65534 ≤ℤ dx }
    requires right { dx ≤ℤ pos 65535 }
    requires up { negsuc 65534 ≤ℤ dy }
    requires down { dy ≤ℤ pos 65535 }
    ensures { layer.new ≡ with_layer (λ l. pens_scrolled (λ i j. shows layer.old i j) rect.now dx dy l) layer.old }
{
    let block = block_of(layer, rect);
    let target = brought_block(block, dx, dy);
    let raster = layer.raster();
    shift_rows(layer, target.rows, target.columns, dx, dy, raster.mask);
    // This mode inverts nothing.
    let solid = Raster {
        a: raster.b,
        mode: 0,
        ..raster
    };
    let rows = beside(block.rows, target.rows);
    let columns = beside(block.columns, target.columns);
    fill_rows(layer, rows, block.columns, solid);
    fill_beside(layer, target.rows, columns, solid);
}

// Fills the drawable pixels of some rows and columns. Without a column, as beside what moves up or down, no row is looked at.
fn fill_beside(layer: &mut Layer, rows: Places, columns: Places, raster: Raster)
    ensures { layer.new ≡ painted (raster_of raster)
        (λ i j. in_rows layer.old rows.from rows.end columns.from columns.end i j)
        layer.old }
{
    // Reading this tells the proof that the layer has only pens of its depth.
    let _ = layer.depth();
    if columns.from < columns.end {
        fill_rows(layer, rows, columns, raster);
    }
}
