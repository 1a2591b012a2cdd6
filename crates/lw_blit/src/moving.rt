// Moves of whole blocks within a layer: the targets are one block of drawable pixels, and their sources are one of kept pixels,
// with their pens in the same buffer.

ghost use Rattle.std.specs.Prelude.{◌≡◌, ◌==◌, ◌≤◌, ◌&&◌, pos, negsuc, ◌≤ℤ◌, IfSome};
ghost use Rattle.std.specs.Int.{bit_at};
ghost use Rattle.lw_draw.specs.Drawn.{drawn};
ghost use Rattle.lw_draw.specs.Blocks.{in_block};
ghost use Rattle.lw_blit.specs.Blitting.{from_layer, AreNear};
ghost use Rattle.lw_blit.specs.Moves.{AreMoved, IsMove, IsMoveOf};

use crate::places::source_place;
use crate::transfers::Transfer;
use lw_draw::{Block, Places, has_bit, move_block, whole_block, whole_kept_block};
use lw_layer::Layer;

// Blocks of pixels of which one takes the bits of the other.
#[derive(Clone, Copy)]
pub(crate) struct Move {
    pub to: Block,
    pub source: Block,
}

// The move that a transfer is; `None` where it is not known to be one.
pub(crate) fn move_of(
    layer: &Layer,
    rows: Places,
    columns: Places,
    transfer: Transfer,
) -> Option<Move>
    requires bottom { rows.end ≤ 2048 }
    requires right { columns.end ≤ 2048 }
    requires near { AreNear transfer }
    ensures { IfSome result (λ m. IsMoveOf layer.now transfer rows columns m) }
{
    let Some(to) = whole_block(layer, rows, columns) else {
        return None;
    };
    let Some(down) = moved_places(rows, transfer.dy) else {
        return None;
    };
    let Some(across) = moved_places(columns, transfer.dx) else {
        return None;
    };
    let Some(source) = whole_kept_block(layer, down, across) else {
        return None;
    };
    if source.run.buffer != to.run.buffer {
        return None;
    }
    Some(Move { to, source })
}

// Places so many further on; `None` where one is before 0, or they are far off.
fn moved_places(places: Places, by: i32) -> Option<Places>
    requires near { places.end ≤ 2048 }
    requires low { negsuc 131071 ≤ℤ by }
    requires high { by ≤ℤ pos 131071 }
    ensures { IfSome result (λ moved. AreMoved places by moved) }
{
    let from = source_place(places.from, by);
    let end = source_place(places.end, by);
    if from < 0 {
        return None;
    }
    if end > 65535 {
        return None;
    }
    Some(Places {
        from: from as u32,
        end: end as u32,
    })
}

// Moves a block, plane by plane.
pub(crate) fn move_planes(layer: &mut Layer, blocks: Move, transfer: Transfer, mask: u8)
    requires blocks { IsMove layer.old transfer blocks }
    ensures { layer.new
        ≡ drawn (λ p i j. bit_at mask p == 1 && in_block blocks.to i j) (from_layer layer.old transfer) layer.old }
{
    for plane in 0..layer.depth() {
        if has_bit(mask, plane) {
            move_block(layer, plane, blocks.to, blocks.source, transfer.minterm);
        }
    }
}
