ghost use Rattle.std.specs.Prelude.{◌≡◌, ◌&&◌, int_le, IsTrue};
ghost use Rattle.lw_c_rectangles.specs.Bounds.{rectangle_of, bounds_of, is_ordered};

use lw_region::Rect;

/// A rectangle as C hands it in: the columns `min_x` to `max_x` and the rows `min_y` to `max_y`, all inclusive. Nothing says
/// that they are in order.
#[repr(C)]
#[derive(Clone, Copy, Debug, PartialEq, Eq)]
pub struct Bounds {
    pub min_x: i16,
    pub min_y: i16,
    pub max_x: i16,
    pub max_y: i16,
}

/// Whether neither maximum is below its minimum.
pub fn is_ordered(bounds: &Bounds) -> bool
    ensures { result ≡ is_ordered bounds.now }
{
    bounds.min_x <= bounds.max_x && bounds.min_y <= bounds.max_y
}

/// The rectangle with these bounds.
pub fn rect_of(bounds: &Bounds) -> Rect
    requires { IsTrue (is_ordered bounds.now) }
    ensures { result ≡ rectangle_of bounds.now }
{
    match Rect::new(bounds.min_x, bounds.min_y, bounds.max_x, bounds.max_y) {
        Some(rect) => rect,
        None => unreachable!(),
    }
}

/// The bounds of a rectangle.
pub fn bounds_of(rect: &Rect) -> Bounds
    ensures { result ≡ bounds_of rect.now }
{
    Bounds {
        min_x: rect.min_x(),
        min_y: rect.min_y(),
        max_x: rect.max_x(),
        max_y: rect.max_y(),
    }
}
