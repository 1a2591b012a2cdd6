// Painting the frame of the window that a layer is.

ghost use Rattle.std.specs.Prelude.{◌≡◌, ◌≤◌, true, IsTrue};
ghost use Rattle.lw_machine.specs.Layer.{is_framed};
ghost use Rattle.lw_layer.specs.View.{keeps};
ghost use Rattle.lw_frames.specs.Framing.{with_own_frame};

use crate::framing::paint_frame;
use lw_calls::{Assets, Text};
use lw_layer::Layer;
use std::alloc::Global;

/// Paints the frame of the window that the layer is, if it is one and has a frame, with the window's own title, as `paint_frame`
/// does. No memory is taken.
pub fn paint_own_frame(alloc: Global, layer: &mut Layer, assets: &Assets, active: bool)
    ensures { layer.new ≡ with_own_frame assets.now.glyphs active layer.old }
{
    if !has_frame(layer) {
        return;
    }
    let title = layer.set_title(Text::new(Vec::new(alloc)));
    paint_frame(layer, assets, &title, active);
    let _ = layer.set_title(title);
}

// Whether the layer is a window with a frame, for which it then has room.
fn has_frame(layer: &Layer) -> bool
    ensures frame { result ≡ is_framed layer.now.layer.window }
    ensures wide { IsTrue result → 9 ≤ layer.now.layer.bits.width }
    ensures high { IsTrue result → 14 ≤ layer.now.layer.bits.height }
{
    layer.look().framed
}
