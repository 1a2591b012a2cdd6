ghost use Rattle.std.specs.Prelude.{◌≡◌};
ghost use Rattle.lw_region.specs.Rectangle.{has_pixel, within};
ghost use Rattle.lw_c_rectangles.specs.Bounds.{rectangle_of};
ghost use Rattle.lw_c_arrays.specs.Lists.{joined};

use lw_c_rectangles::Bounds;

// Whether the rectangle with these bounds has the pixel.
pub(crate) fn has_pixel(bounds: &Bounds, x: i32, y: i32) -> bool
    ensures { result ≡ has_pixel (rectangle_of bounds.now) x y }
{
    is_between(bounds.min_x, x, bounds.max_x) && is_between(bounds.min_y, y, bounds.max_y)
}

#[tactic(auto, using(std::proofs::lemmas::Int::ints), unfolding(lw_region::specs::Rectangle::within))]
fn is_between(low: i16, place: i32, high: i16) -> bool
    ensures { result ≡ within low place high }
{
    if place < i32::from(low) {
        return false;
    }
    place <= i32::from(high)
}

// The least rectangle in which both are.
pub(crate) fn joined(a: &Bounds, b: &Bounds) -> Bounds
    ensures { result ≡ joined a.now b.now }
{
    Bounds {
        min_x: a.min_x.min(b.min_x),
        min_y: a.min_y.min(b.min_y),
        max_x: a.max_x.max(b.max_x),
        max_y: a.max_y.max(b.max_y),
    }
}
