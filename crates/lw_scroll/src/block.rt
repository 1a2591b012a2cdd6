// Blocks of a layer's pixels: some columns of some rows.

ghost use Rattle.std.specs.Prelude.{◌≡◌, ℕ, ◌≤◌, false, not, ◌&&◌, ℤ, pos, negsuc, ◌+ℤ◌, ◌≤ℤ◌, MatchOption};
ghost use Rattle.lw_region.specs.Rectangle.{has_pixel};
ghost use Rattle.lw_planes.specs.Sizes.{IsPlanes};
ghost use Rattle.lw_kernels.specs.Kernel.{is_between};
ghost use Rattle.lw_scroll.specs.Blocks.{LiesIn, IsBlockOf, IsAtSide, AreBrought, IsBrought, in_block};

use lw_draw::{Places, span};
use lw_layer::Layer;
use lw_region::Rect;

#[derive(Clone, Copy)]
pub(crate) struct Block {
    pub(crate) columns: Places,
    pub(crate) rows: Places,
}

// The pixels of the rectangle that the layer's bits have.
pub(crate) fn block_of(layer: &Layer, rect: &Rect) -> Block
    ensures lies { LiesIn layer.now.layer.bits.width layer.now.layer.bits.height result }
    ensures has { IsBlockOf layer.now rect.now result }
    ensures bits { IsPlanes layer.now.layer.bits }
    ensures wide { layer.now.layer.bits.width ≤ 2048 }
    ensures high { layer.now.layer.bits.height ≤ 2048 }
{
    Block {
        columns: span(rect.min_x(), rect.max_x(), layer.width()),
        rows: span(rect.min_y(), rect.max_y(), layer.height()),
    }
}

// The pixels of the block that lead to one of them again, `dx` columns to the right and `dy` rows down.
pub(crate) fn brought_block(block: Block, dx: i32, dy: i32) -> Block
    requires lies { LiesIn 2048 2048 block }
    requires left { negsuc 65534 ≤ℤ dx }
    requires right { dx ≤ℤ pos 65535 }
    requires up { negsuc 65534 ≤ℤ dy }
    requires down { dy ≤ℤ pos 65535 }
    ensures { IsBrought block dx dy result }
{
    Block {
        columns: brought_places(block.columns, dx),
        rows: brought_places(block.rows, dy),
    }
}

// The places that lead to one of them again, a step further on.
fn brought_places(places: Places, step: i32) -> Places
    requires near { places.end ≤ 2048 }
    requires low { negsuc 65534 ≤ℤ step }
    requires high { step ≤ℤ pos 65535 }
    ensures { AreBrought places step result }
{
    let from = places.from as i32;
    let end = places.end as i32;
    Places {
        from: (from - step).clamp(from, end) as u32,
        end: (end - step).clamp(from, end) as u32,
    }
}

// The places without a part that begins or ends with them.
pub(crate) fn beside(places: Places, part: Places) -> Places
    requires { IsAtSide places part }
    ensures last { result.end ≤ places.end }
    ensures has { (u : ℕ) → is_between result.from result.end u ≡
        (is_between places.from places.end u && not (is_between part.from part.end u)) }
{
    if part.from == places.from {
        Places {
            from: part.end,
            end: places.end,
        }
    } else {
        Places {
            from: places.from,
            end: part.from,
        }
    }
}

// The block as a rectangle; `None` where it has no pixel.
pub(crate) fn rect_of(block: Block) -> Option<Rect>
    requires { LiesIn 2048 2048 block }
    ensures { MatchOption result
        ((x y : ℤ) → in_block block x y ≡ false)
        (λ r. (x y : ℤ) → has_pixel r x y ≡ in_block block x y) }
{
    let (left, right) = edges(block.columns);
    let (top, bottom) = edges(block.rows);
    Rect::new(left, top, right, bottom)
}

// The first and the last of some places; the last is before the first where there is none.
fn edges(places: Places) -> (i16, i16)
    requires near { places.end ≤ 2048 }
    ensures first { result.0 ≡ pos places.from }
    ensures last { (result.1 +ℤ pos 1) ≡ pos places.end }
{
    (places.from as i16, places.end as i16 - 1)
}
