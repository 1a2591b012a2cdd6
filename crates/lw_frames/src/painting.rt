// Painting the two parts of a frame, each with one pen.

ghost use Rattle.std.specs.Prelude.{◌≡◌, ◌<◌, ◌≤◌, pos, None, false};
ghost use Rattle.lw_region.specs.Bands.{covers};
ghost use Rattle.lw_machine.specs.Reveal.{in_title};
ghost use Rattle.lw_layer.specs.Drafts.{raster_of};
ghost use Rattle.lw_frames.specs.Framing.{overlaid, solid_raster};

use lw_calls::{Assets, Text};
use lw_draw::fill;
use lw_layer::{Layer, Raster};
use lw_region::Rect;
use lw_text::letters_before;

// Gives the pixels of the rectangles that the layer keeps this pen.
pub(crate) fn paint_fills(layer: &mut Layer, fills: &[Rect], pen: u8)
    requires unclipped { layer.old.layer.clip ≡ None }
    requires idle { layer.old.layer.updating ≡ false }
    ensures { layer.new ≡ overlaid (λ x y. covers fills.now (pos x) (pos y)) pen layer.old }
{
    // Reading this tells the proof that the layer has at most eight planes and only pens of its depth.
    let _ = layer.depth();
    layer.set_raster(solid(pen));
    for rect in fills {
        fill(layer, rect);
    }
}

// Gives the pixels of the title's letters that the layer keeps this pen.
pub(crate) fn paint_title(layer: &mut Layer, assets: &Assets, title: &Text, letters: u8)
    requires least_width { 4 ≤ layer.old.layer.bits.width }
    requires unclipped { layer.old.layer.clip ≡ None }
    requires idle { layer.old.layer.updating ≡ false }
    ensures { layer.new ≡ overlaid (in_title assets.now.glyphs title.now layer.old.layer.bits.width) letters layer.old }
{
    let end = layer.width() - 4;
    layer.set_raster(solid(letters));
    letters_before(layer, assets, title, end);
}

// How a part of a frame is painted: with a pen alone, in all planes, and letters from column 4 and row 2 on.
fn solid(pen: u8) -> Raster
    ensures value { raster_of result ≡ solid_raster pen }
    ensures mode { result.mode < 8 }
{
    Raster {
        a: pen,
        b: 0,
        mode: 0,
        mask: 255,
        x: 4,
        y: 8,
    }
}
