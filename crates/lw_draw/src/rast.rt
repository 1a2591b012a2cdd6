ghost use Rattle.std.specs.Prelude.{◌≡◌};
ghost use Rattle.lw_machine.specs.Shapes.{set_rast as with_rast_set};
ghost use Rattle.lw_layer.specs.View.{shows, with_layer};

use crate::filling::fill_rows;
use crate::spans::Places;
use lw_layer::{Layer, Raster};

/// Gives the pen to each drawable pixel, in the planes that the mask has and whatever the mode (`SetRast`). No memory is taken.
pub fn set_rast(layer: &mut Layer, pen: u8)
    ensures { layer.new ≡ with_layer (λ l. with_rast_set (λ i j. shows layer.old i j) pen l) layer.old }
{
    let columns = Places {
        from: 0,
        end: layer.width(),
    };
    let rows = Places {
        from: 0,
        end: layer.height(),
    };
    // This mode inverts nothing.
    let solid = Raster {
        a: pen,
        mode: 0,
        ..layer.raster()
    };
    fill_rows(layer, rows, columns, solid);
}
