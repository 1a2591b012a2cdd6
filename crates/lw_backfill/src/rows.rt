ghost use Rattle.std.specs.Prelude.{◌≡◌, ℤ};
ghost use Rattle.std.specs.List.{slice_index_or};
ghost use Rattle.lw_machine.specs.Hook.{hook_pen, tile_place};

use crate::Backfill;

/// The eight pens with which a hook fills row `y` of a layer: column `x` has the one at the remainder of `x` by 8.
pub fn row_of<B: Backfill>(held: &B, y: i32) -> [u8; 8]
    ensures { (x : ℤ) → slice_index_or result (tile_place x) 0 ≡ hook_pen (B.hook held.now) x y }
{
    [
        held.pen_at(0, y),
        held.pen_at(1, y),
        held.pen_at(2, y),
        held.pen_at(3, y),
        held.pen_at(4, y),
        held.pen_at(5, y),
        held.pen_at(6, y),
        held.pen_at(7, y),
    ]
}
