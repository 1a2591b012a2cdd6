// Painting a template: rows of bits of which those that are set are the foreground.

ghost use Rattle.std.specs.Prelude.{length};
ghost use Rattle.lw_layer.specs.Drafts.{raster_of};
ghost use Rattle.lw_draw.specs.Combined.{is_over};
ghost use Rattle.lw_draw.specs.Drawn.{in_mask};
ghost use Rattle.lw_text.specs.Templates.{stamped_bit, rows_have};

use crate::minterms::minterm_of;
use lw_draw::{Block, Overlay, Painter, combine_over, has_bit};
use lw_layer::{Layer, Raster};

// Paints with a template that lies over a layer.
#[derive(Clone, Copy)]
pub(crate) struct Template<'a> {
    pub bits: &'a [u8],
    pub overlay: Overlay,
    pub raster: Raster,
}

impl Painter for Template<'_> {
    ghost planes = { λ t. in_mask (raster_of t.raster) };

    ghost reaches = { λ t. is_over t.overlay (length t.bits.now) };

    ghost bit = { λ t. stamped_bit (raster_of t.raster) (rows_have t.bits.now t.overlay) };

    fn has_plane(&self, plane: u32) -> bool {
        has_bit(self.raster.mask, plane)
    }

    fn paint_plane(&self, layer: &mut Layer, plane: u32, block: Block) {
        // Reading this tells the proof that the layer has at most eight planes.
        let _ = layer.depth();
        let minterm = minterm_of(self.raster, plane);
        combine_over(layer, plane, block, self.bits, self.overlay, minterm);
    }
}
