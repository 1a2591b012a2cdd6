// Handing former bitmaps over in the place of new ones.

ghost use Rattle.std.specs.Prelude.{◌≡◌, ◌+◌, ◌≤◌, ◌++◌, length, true};
ghost use Rattle.std.specs.List.{All};
ghost use Rattle.lw_strips.specs.Strips.{rects_of, planes_of};
ghost use Rattle.lw_reveal.specs.Changes.{held_in};
ghost use Rattle.lw_reveal.specs.Handing.{placed, handed_over, HasPlace, HavePlaces};

use lw_planes::{Planes, Spare};
use lw_strips::Strip;

// Hands the bitmaps of former strips and former buffers over to their places, if they have one, and the others to the spare ones. The places
// go through the new strips and the new buffers, one list after the other.
pub(crate) fn hand_all(
    shown: &mut Vec<Strip>,
    hidden: &mut Vec<Planes>,
    handed: &[Option<usize>],
    strips: &mut [Strip],
    covered: &mut [Planes],
    spare: &mut Spare,
)
    requires many { length handed.now ≡ length shown.old.items + length hidden.old.items }
    requires solid { All (λ s. s.solid ≡ true) shown.old.items }
    requires places { HavePlaces handed.now (planes_of shown.old.items ++ hidden.old.items) (rects_of strips.old)
        (length covered.old) }
    ensures held { held_in strips.new covered.new ≡
        handed_over handed.now (planes_of shown.old.items ++ hidden.old.items) (held_in strips.old covered.old) }
    ensures rects { rects_of strips.new ≡ rects_of strips.old }
    ensures long { length covered.new ≡ length covered.old }
{
    let rest = &handed[shown.len()..];
    hand_buffers(hidden, rest, strips, covered, spare);
    hand_strips(shown, handed, strips, covered, spare);
}

// The same for former strips.
fn hand_strips(
    former: &mut Vec<Strip>,
    handed: &[Option<usize>],
    strips: &mut [Strip],
    covered: &mut [Planes],
    spare: &mut Spare,
)
    requires long { length former.old.items ≤ length handed.now }
    requires solid { All (λ s. s.solid ≡ true) former.old.items }
    requires places { HavePlaces handed.now (planes_of former.old.items) (rects_of strips.old) (length covered.old) }
    ensures held { held_in strips.new covered.new
        ≡ handed_over handed.now (planes_of former.old.items) (held_in strips.old covered.old) }
    ensures rects { rects_of strips.new ≡ rects_of strips.old }
    ensures long { length covered.new ≡ length covered.old }
{
    while let Some(strip) = former.pop() {
        match strip.into_planes() {
            Some(planes) => hand(planes, handed[former.len()], strips, covered, spare),
            None => unreachable!(),
        }
    }
}

// The same for former buffers.
fn hand_buffers(
    former: &mut Vec<Planes>,
    handed: &[Option<usize>],
    strips: &mut [Strip],
    covered: &mut [Planes],
    spare: &mut Spare,
)
    requires long { length former.old.items ≤ length handed.now }
    requires places { HavePlaces handed.now former.old.items (rects_of strips.old) (length covered.old) }
    ensures held { held_in strips.new covered.new ≡ handed_over handed.now former.old.items (held_in strips.old covered.old) }
    ensures rects { rects_of strips.new ≡ rects_of strips.old }
    ensures long { length covered.new ≡ length covered.old }
{
    while let Some(planes) = former.pop() {
        hand(planes, handed[former.len()], strips, covered, spare);
    }
}

// Hands one bitmap over, or gives it to the spare ones.
fn hand(
    planes: Planes,
    to: Option<usize>,
    strips: &mut [Strip],
    covered: &mut [Planes],
    spare: &mut Spare,
)
    requires { HasPlace to planes (rects_of strips.old) (length covered.old) }
    ensures held { held_in strips.new covered.new ≡ placed to planes (held_in strips.old covered.old) }
    ensures rects { rects_of strips.new ≡ rects_of strips.old }
    ensures long { length covered.new ≡ length covered.old }
{
    let Some(place) = to else {
        spare.keep(planes);
        return;
    };
    let shown = strips.len();
    if place < shown {
        strips[place].fill(planes);
    } else {
        covered[place - shown] = planes;
    }
}
