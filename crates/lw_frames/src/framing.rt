// Painting a whole frame.

ghost use Rattle.std.specs.Prelude.{◌≡◌, ◌≤◌, ◌&&◌, None, false};
ghost use Rattle.lw_machine.specs.Paint.{with_pens, pen_within};
ghost use Rattle.lw_machine.specs.Reveal.{in_frame, framing_pen};
ghost use Rattle.lw_layer.specs.View.{keeps, with_layer};
ghost use Rattle.lw_frames.specs.Framing.{framed};

use crate::painting::{paint_fills, paint_title};
use lw_calls::{Assets, Text};
use lw_layer::Layer;
use lw_windows::frame_of;

/// Paints the whole frame of a window with this title on the pixels that the layer keeps, in all planes, whatever its clip
/// region is and whether it is updating; both stay, and so does how it paints. The title's letters go up to the fifth column from
/// the right. Of a pen the layer takes the bits that it has planes for. No memory is taken.
pub fn paint_frame(layer: &mut Layer, assets: &Assets, title: &Text, active: bool)
    requires least_width { 9 ≤ layer.old.layer.bits.width }
    requires least_height { 14 ≤ layer.old.layer.bits.height }
    ensures { layer.new ≡ with_layer (λ l. with_pens
        (λ x y. keeps layer.old x y && in_frame l.bits.width l.bits.height x y)
        (λ x y. pen_within l.bits.depth (framing_pen assets.now.glyphs title.now active l.bits.width x y)) l) layer.old }
{
    let clip = layer.set_clip(None);
    frame_unclipped(layer, assets, title, active);
    layer.set_clip(clip);
}

// The same of a layer without a clip region.
fn frame_unclipped(layer: &mut Layer, assets: &Assets, title: &Text, active: bool)
    requires least_width { 9 ≤ layer.old.layer.bits.width }
    requires least_height { 14 ≤ layer.old.layer.bits.height }
    requires unclipped { layer.old.layer.clip ≡ None }
    ensures { layer.new ≡ framed assets.now.glyphs title.now active layer.old }
{
    if layer.damage().updating() {
        layer.end_update(false);
        frame_open(layer, assets, title, active);
        layer.begin_update();
    } else {
        frame_open(layer, assets, title, active);
    }
}

// The same of a layer that isn't updating either, so that each pixel that it keeps is drawable.
fn frame_open(layer: &mut Layer, assets: &Assets, title: &Text, active: bool)
    requires least_width { 9 ≤ layer.old.layer.bits.width }
    requires least_height { 14 ≤ layer.old.layer.bits.height }
    requires unclipped { layer.old.layer.clip ≡ None }
    requires idle { layer.old.layer.updating ≡ false }
    ensures { layer.new ≡ framed assets.now.glyphs title.now active layer.old }
{
    let raster = layer.raster();
    let frame = frame_of(layer.width(), layer.height(), active);
    paint_fills(layer, &frame.fills, frame.pen);
    paint_title(layer, assets, title, frame.letters);
    layer.set_raster(raster);
}
