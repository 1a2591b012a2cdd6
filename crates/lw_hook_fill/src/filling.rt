// Filling a region of a layer with a hook's pens.

ghost use Rattle.std.specs.Prelude.{◌≡◌, pos, ◌&&◌, false, None};
ghost use Rattle.lw_region.specs.Bands.{covers};
ghost use Rattle.lw_machine.specs.Hook.{hook_pen};
ghost use Rattle.lw_machine.specs.Paint.{with_pens, pen_within};
ghost use Rattle.lw_layer.specs.View.{keeps, with_layer};
ghost use Rattle.lw_hook_fill.specs.Filling.{filled};

use crate::rectangles::paint_rects;
use crate::tiles::tile_bits;
use lw_backfill::Backfill;
use lw_layer::Layer;
use lw_region::Region;

/// Gives the pixels of the region that the layer keeps the pens of the hook's tile, whatever its clip region is and whether it
/// is updating; both stay. The region is in layer coordinates, and may have pixels that the layer lacks. Of a pen the layer
/// takes the bits that it has planes for. No memory is taken.
pub fn fill<B: Backfill>(layer: &mut Layer, held: &B, region: &Region)
    ensures { layer.new ≡ with_layer (λ l. with_pens
        (λ x y. keeps layer.old x y && covers region.now (pos x) (pos y))
        (λ x y. pen_within l.bits.depth (hook_pen (B.hook held.now) (pos x) (pos y))) l) layer.old }
{
    let clip = layer.set_clip(None);
    fill_unclipped(layer, held, region);
    layer.set_clip(clip);
}

// The same of a layer without a clip region.
fn fill_unclipped<B: Backfill>(layer: &mut Layer, held: &B, region: &Region)
    requires unclipped { layer.old.layer.clip ≡ None }
    ensures { layer.new ≡ filled (B.hook held.now) region.now layer.old }
{
    if layer.damage().updating() {
        layer.end_update(false);
        fill_open(layer, held, region);
        layer.begin_update();
    } else {
        fill_open(layer, held, region);
    }
}

// The same of a layer that isn't updating either, so that each pixel that it keeps is drawable.
fn fill_open<B: Backfill>(layer: &mut Layer, held: &B, region: &Region)
    requires unclipped { layer.old.layer.clip ≡ None }
    requires idle { layer.old.layer.updating ≡ false }
    ensures { layer.new ≡ filled (B.hook held.now) region.now layer.old }
{
    // Reading this tells the proof that the layer has at most eight planes and only pens of its depth.
    let _ = layer.depth();
    paint_rects(layer, region.rects(), &tile_bits(held));
}
