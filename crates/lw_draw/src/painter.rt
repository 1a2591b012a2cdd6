ghost use Rattle.std.specs.Prelude.{◌≡◌, ℕ, ◌==◌, ◌<◌, Bool, true, ◌&&◌};
ghost use Rattle.lw_layer.specs.View.{draws};
ghost use Rattle.lw_draw.specs.Drawn.{drawn};
ghost use Rattle.lw_draw.specs.Blocks.{IsBlock, in_block};

use crate::blocks::Block;
use lw_layer::Layer;

/// What paints pixels of a layer, block by block and plane by plane.
pub trait Painter {
    // The planes that it paints.
    ghost planes: { Self → ℕ → Bool };
    // The pixels that it may be asked to paint.
    ghost reaches: { Self → ℕ → ℕ → Bool };
    // What it makes of a bit, by the bit's plane, column and row. Of a bit it has to make a bit.
    ghost bit: { Self → ℕ → ℕ → ℕ → ℕ → ℕ };

    /// Whether it paints a plane, 0 to 7.
    fn has_plane(&self, plane: u32) -> bool
        requires { plane < 8 }
        ensures { result ≡ planes self.now plane };

    /// Paints a block in one plane.
    fn paint_plane(&self, layer: &mut Layer, plane: u32, block: Block)
        requires plane { plane < layer.old.layer.bits.depth }
        requires block { IsBlock layer.old (λ i j. draws layer.old i j) block }
        requires reached { (i j : ℕ) → in_block block i j ≡ true → reaches self.now i j ≡ true }
        ensures { layer.new ≡ drawn (λ p i j. p == plane && in_block block i j) (bit self.now) layer.old };
}
