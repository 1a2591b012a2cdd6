ghost use Rattle.std.specs.Prelude.{◌≡◌};
ghost use Rattle.lw_machine.specs.Kept.{holds_at};
ghost use Rattle.lw_machine.specs.Shapes.{write_pixel as with_pixel};
ghost use Rattle.lw_layer.specs.View.{shows, draws, kept_pen, with_layer};

use crate::blocks::Block;
use crate::filler::Filler;
use crate::painting::paint_block;
use crate::stretch::pixel_at;
use lw_layer::Layer;

/// Paints one pixel with the layer's pen A, or inverts it under COMPLEMENT, in the planes that the mask has (`WritePixel`); false
/// exactly where it isn't drawable, and then nothing changes. No memory is taken.
pub fn write_pixel(layer: &mut Layer, x: i32, y: i32) -> bool
    ensures answer { result ≡ holds_at (λ i j. draws layer.old i j) x y }
    ensures layer { layer.new ≡ with_layer (λ l. with_pixel (λ i j. shows layer.old i j) x y l) layer.old }
{
    // Reading this tells the proof that the layer has only pens of its depth.
    let _ = layer.depth();
    let Some(stretch) = pixel_at(layer, x, y) else {
        return false;
    };
    let raster = layer.raster();
    let block = Block {
        x: stretch.x,
        y: stretch.y,
        rows: 1,
        run: stretch.run,
    };
    paint_block(layer, block, &Filler { raster });
    true
}

/// The pen of a pixel (`ReadPixel`); `None` exactly where the layer doesn't keep it. Any place may be asked for. No memory is
/// taken.
pub fn read_pixel(layer: &Layer, x: i32, y: i32) -> Option<u8>
    ensures { result ≡ kept_pen layer.now x y }
{
    layer.kept_at(x, y)
}
