ghost use Rattle.std.specs.Prelude.{◌≡◌, ◌<◌};
ghost use Rattle.lw_machine.specs.Hook.{tile_place};

/// Where a layer's column or row lies in a tile: its remainder by 8, which is never negative.
pub fn tile_place(coordinate: i32) -> usize
    ensures place { result ≡ tile_place coordinate }
    ensures within { result < 8 }
{
    coordinate.rem_euclid(8) as usize
}
