// What the pixels of a layer take from the pixels of a layer.

ghost use Rattle.std.specs.Prelude.{◌≡◌};
ghost use Rattle.lw_blit.specs.Blitting.{blit_by, IsNear, AreNear};

use lw_calls::Area;

// Where the source of a pixel lies, and what the pixel makes of it.
#[derive(Clone, Copy)]
pub(crate) struct Transfer {
    // The source is so many columns to the right
    pub dx: i32,
    // and so many rows down.
    pub dy: i32,
    pub minterm: u8,
    // A source that isn't kept has 0 bits; if this is false its pixel stays as it was.
    pub clears: bool,
}

// The transfer of a blit.
pub(crate) fn transfer_of(area: &Area) -> Transfer
    requires { IsNear area.now }
    ensures value { result ≡ blit_by area.now }
    ensures near { AreNear result }
{
    Transfer {
        dx: area.sx - area.x,
        dy: area.sy - area.y,
        minterm: area.minterm,
        clears: false,
    }
}
