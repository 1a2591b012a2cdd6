// The calls that blit into a layer from a bitmap or from itself, and ScrollRaster.

ghost use Rattle.std.specs.Prelude.{◌≡◌, ℕ, List, IfOk, OnErr, IsTrue};
ghost use Rattle.lw_region.specs.Rectangle.{Rectangle};
ghost use Rattle.lw_calls.specs.declared.call.Call.TheVariants.{Put, Blit, ScrollRaster};
ghost use Rattle.lw_calls.specs.Limits.{area_fits, coordinates_fit};
ghost use Rattle.lw_layer_calls.specs.Open.{IsOpenStep, IsLentStep};

use lw_blit::{from_bitmap, within};
use lw_calls::{Area, Assets, Reply};
use lw_layer::Layer;
use lw_region::Rect;
use std::alloc::{AllocError, Global};

// Blits from a bitmap that the script handed in. Where it handed in none of this number, nothing is drawn.
pub(crate) fn put(layer: &mut Layer, assets: &Assets, bitmap: u32, area: &Area) -> Reply
    requires { IsTrue (area_fits area.now) }
    ensures { (task slot : ℕ) (regs : List (List Rectangle))
        → IsLentStep task slot layer.old regs assets.now (Put bitmap slot area.now) result layer.new }
{
    let Some(planes) = assets.bitmaps.get(bitmap as usize) else {
        // Reading this tells the proof that the layer's bits are a bitmap.
        let _ = layer.depth();
        return Reply::Done;
    };
    from_bitmap(planes, layer, area);
    Reply::Done
}

// Blits from the layer itself.
pub(crate) fn blit(layer: &mut Layer, area: &Area) -> Reply
    requires { IsTrue (area_fits area.now) }
    ensures { (slot : ℕ) → IsOpenStep slot layer.old (Blit slot slot area.now) result layer.new }
{
    within(layer, area);
    Reply::Done
}

// Scrolls a rectangle.
pub(crate) fn scroll_raster(
    alloc: Global,
    layer: &mut Layer,
    dx: i32,
    dy: i32,
    rect: &Rect,
) -> Result<Reply, AllocError>
    requires { IsTrue (coordinates_fit dx dy) }
    ensures step { IfOk result (λ r. (slot : ℕ) → IsOpenStep slot layer.old (ScrollRaster slot dx dy rect.now) r layer.new) }
    ensures unchanged { OnErr result (layer.new ≡ layer.old) }
{
    lw_scroll::scroll_raster(alloc, layer, dx, dy, rect)?;
    Ok(Reply::Done)
}
