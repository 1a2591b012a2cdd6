// The portions of a bitmap that strips show, read out of it.

ghost use Rattle.std.specs.Prelude.{◌≡◌, map, pos, ◌-ℤ◌, ◌≤ℤ◌, true};
ghost use Rattle.lw_super.specs.Shown.{IsShown, AreShownStrips, refilled};

use lw_planes::Planes;
use lw_strips::{Block, Strip};

// Fills all strips out of the bitmap, whose pixel (0, 0) lies on the place (left, top).
pub(crate) fn read_shown(strips: &mut [Strip], own: &Planes, left: i32, top: i32)
    requires { AreShownStrips own.now left top strips.old }
    ensures { strips.new ≡ map (λ s. refilled own.now left top s) strips.old }
{
    for index in 0..strips.len() {
        read_out(&mut strips[index], own, left, top);
    }
}

// Fills one strip out of the bitmap.
fn read_out(strip: &mut Strip, own: &Planes, left: i32, top: i32)
    requires solid { strip.old.solid ≡ true }
    requires shown { IsShown own.now left top strip.old.rect strip.old.planes }
    ensures { strip.new ≡ refilled own.now left top strip.old }
{
    // Reading this tells the proof that the bitmap has sizes for planes.
    let _ = own.depth();
    let rect = strip.rect();
    let block = Block {
        x: 0,
        y: 0,
        source_x: offset(left, rect.min_x()),
        source_y: offset(top, rect.min_y()),
        width: rect.width(),
        height: rect.height(),
    };
    strip.copy_block(own, block);
}

// How far a place is past an edge.
fn offset(edge: i32, place: i16) -> u32
    requires { edge ≤ℤ place }
    ensures { pos result ≡ place -ℤ edge }
{
    (i64::from(place) - i64::from(edge)) as u32
}
