ghost use Rattle.std.specs.Prelude.{◌≡◌, ◌≤◌, true, ◌&&◌, ◌↔◌, ℤ, pos, ◌+ℤ◌, ◌-ℤ◌, ◌≤ℤ◌, IfSome, IsNone, [], ◌∷◌};
ghost use Rattle.std.specs.Option.{SomeIff};
ghost use Rattle.lw_region.specs.Rectangle.{Rectangle, within, has_pixel, IsOrdered, width, height, AreApart, common_part};
ghost use Rattle.lw_region.specs.Rectangle.{moved_by, IsWord, HasWords};
ghost use Rattle.lw_region.specs.Banded.{IsCanonical};
ghost use Rattle.lw_region.specs.Rows.{down_to};

use std::marker::Model;
use std::slice;

/// A rectangle of pixels, after the `Rectangle` structure of graphics.library: the columns `min_x` to
/// `max_x` and the rows `min_y` to `max_y`, all four bounds inclusive, each from -32768 to 32767.
/// No rectangle is empty.
#[derive(Clone, Copy, Debug, PartialEq, Eq)]
pub struct Rect {
    min_x: i16,
    min_y: i16,
    max_x: i16,
    max_y: i16,
}

impl Model for Rect {
    ghost use Rattle.lw_region.specs.Rectangle.{Rectangle, IsOrdered};

    ghost Value = { Rectangle };

    ghost view = { λ r. record { min_x = r.min_x; min_y = r.min_y; max_x = r.max_x; max_y = r.max_y } };

    ghost invariant = { λ r. IsOrdered (record { min_x = r.min_x; min_y = r.min_y; max_x = r.max_x; max_y = r.max_y }) };

    ghost inverse = { λ v. record { min_x = v.min_x; min_y = v.min_y; max_x = v.max_x; max_y = v.max_y } };
}

impl Rect {
    /// The rectangle of the columns `x0` to `x1` and the rows `y0` to `y1`, all four bounds inclusive; `None` exactly where a
    /// maximum is below its minimum.
    pub fn new(x0: i16, y0: i16, x1: i16, y1: i16) -> Option<Rect>
        ensures { SomeIff result
            (IsOrdered (record { min_x = x0; min_y = y0; max_x = x1; max_y = y1 }))
            (record { min_x = x0; min_y = y0; max_x = x1; max_y = y1 }) }
    {
        if x1 < x0 || y1 < y0 {
            return None;
        }
        Some(Rect {
            min_x: x0,
            min_y: y0,
            max_x: x1,
            max_y: y1,
        })
    }

    // The rectangle with these bounds, which the caller knows to be in order.
    pub(crate) fn of_words(min_x: i16, min_y: i16, max_x: i16, max_y: i16) -> Rect
        requires columns { min_x ≤ℤ max_x }
        requires rows { min_y ≤ℤ max_y }
        ensures { result ≡ record { min_x = min_x; min_y = min_y; max_x = max_x; max_y = max_y } }
    {
        Rect {
            min_x,
            min_y,
            max_x,
            max_y,
        }
    }

    /// The canonical list of this rectangle alone.
    pub fn as_list(&self) -> &[Rect]
        ensures value { result.now ≡ self.now ∷ [] }
        ensures canonical { IsCanonical result.now }
    {
        // Reading a field is what makes the invariant known to the proof, for `canonical`.
        let _ = &self.min_x;
        slice::from_ref(self)
    }

    // The rectangle reaching down to row `bottom` at least.
    pub(crate) fn down_to(&self, bottom: i16) -> Rect
        ensures { result ≡ down_to self.now bottom }
    {
        Rect {
            min_x: self.min_x,
            min_y: self.min_y,
            max_x: self.max_x,
            max_y: self.max_y.max(bottom),
        }
    }

    /// The leftmost column.
    pub fn min_x(&self) -> i16
        ensures value { result ≡ self.now.min_x }
        ensures ordered { IsOrdered self.now }
    {
        self.min_x
    }

    /// The topmost row.
    pub fn min_y(&self) -> i16
        ensures value { result ≡ self.now.min_y }
        ensures ordered { IsOrdered self.now }
    {
        self.min_y
    }

    /// The rightmost column.
    pub fn max_x(&self) -> i16
        ensures value { result ≡ self.now.max_x }
        ensures ordered { IsOrdered self.now }
    {
        self.max_x
    }

    /// The bottom row.
    pub fn max_y(&self) -> i16
        ensures value { result ≡ self.now.max_y }
        ensures ordered { IsOrdered self.now }
    {
        self.max_y
    }

    /// How many columns the rectangle has, 1 to 65,536.
    pub fn width(&self) -> u32
        ensures value { result ≡ width self.now }
        ensures some { 1 ≤ result }
        ensures most { result ≤ 65536 }
        ensures ordered { IsOrdered self.now }
    {
        extent(self.min_x(), self.max_x())
    }

    /// How many rows the rectangle has, 1 to 65,536.
    pub fn height(&self) -> u32
        ensures value { result ≡ height self.now }
        ensures some { 1 ≤ result }
        ensures most { result ≤ 65536 }
        ensures ordered { IsOrdered self.now }
    {
        extent(self.min_y(), self.max_y())
    }

    /// Whether the pixel at column `x` and row `y` is in the rectangle.
    pub fn has(&self, x: i32, y: i32) -> bool
        ensures { result ≡ has_pixel self.now x y }
    {
        is_between(self.min_x(), x, self.max_x()) && is_between(self.min_y(), y, self.max_y())
    }

    /// The rectangle of the pixels that are in both; `None` exactly where no pixel is
    /// in both.
    pub fn meet(&self, other: &Rect) -> Option<Rect>
        ensures bounds { SomeIff result
            (IsOrdered (common_part self.now other.now))
            (common_part self.now other.now) }
        ensures pixels { IfSome result
            (λ r. (x y : ℤ) → has_pixel r x y ≡ (has_pixel self.now x y && has_pixel other.now x y)) }
        ensures none { IsNone result ↔ AreApart self.now other.now }
    {
        let min_x = self.min_x().max(other.min_x());
        let min_y = self.min_y().max(other.min_y());
        let max_x = self.max_x().min(other.max_x());
        let max_y = self.max_y().min(other.max_y());
        Rect::new(min_x, min_y, max_x, max_y)
    }

    /// The rectangle moved by `dx` columns to the right and `dy` rows down; `None`
    /// exactly where a bound leaves the 16-bit range.
    pub fn moved(&self, dx: i32, dy: i32) -> Option<Rect>
        ensures { SomeIff result (HasWords (moved_by self.now dx dy)) (moved_by self.now dx dy) }
    {
        let x0 = moved_place(self.min_x(), dx);
        let y0 = moved_place(self.min_y(), dy);
        let x1 = moved_place(self.max_x(), dx);
        let y1 = moved_place(self.max_y(), dy);
        from_places(x0, y0, x1, y1)
    }

    // The rectangle moved likewise, where the caller knows that each pixel still has coordinates of 16 bits.
    pub(crate) fn moved_within(&self, dx: i32, dy: i32) -> Rect
        requires { (x y : ℤ) → has_pixel self.now x y ≡ true → IsWord (x +ℤ dx) × IsWord (y +ℤ dy) }
        ensures { result ≡ moved_by self.now dx dy }
    {
        // Reading a field is what makes the invariant known to the proof.
        let _ = &self.min_x;
        match self.moved(dx, dy) {
            Some(moved) => moved,
            None => unreachable!(),
        }
    }
}

// How many places there are from the least to the greatest, both inclusive.
#[tactic(auto, using(std::proofs::lemmas::Int::ints))]
fn extent(least: i16, greatest: i16) -> u32
    requires { least ≤ℤ greatest }
    ensures value { pos result ≡ (greatest +ℤ pos 1) -ℤ least }
    ensures some { 1 ≤ result }
    ensures most { result ≤ 65536 }
{
    (i32::from(greatest) + 1 - i32::from(least)) as u32
}

fn moved_place(place: i16, by: i32) -> i64
    ensures { result ≡ place +ℤ by }
{
    i64::from(place) + i64::from(by)
}

// The rectangle with these bounds, if they are words.
#[tactic(auto, using(std::proofs::lemmas::Int::ints))]
fn from_places(x0: i64, y0: i64, x1: i64, y1: i64) -> Option<Rect>
    requires columns { x0 ≤ℤ x1 }
    requires rows { y0 ≤ℤ y1 }
    ensures { SomeIff result
        (HasWords (record { min_x = x0; min_y = y0; max_x = x1; max_y = y1 }))
        (record { min_x = x0; min_y = y0; max_x = x1; max_y = y1 }) }
{
    if x0 < -32768 || y0 < -32768 || x1 > 32767 || y1 > 32767 {
        return None;
    }
    Some(Rect {
        min_x: x0 as i16,
        min_y: y0 as i16,
        max_x: x1 as i16,
        max_y: y1 as i16,
    })
}

#[tactic(auto, using(std::proofs::lemmas::Int::ints), unfolding(crate::specs::Rectangle::within))]
fn is_between(low: i16, place: i32, high: i16) -> bool
    ensures { result ≡ within low place high }
{
    if place < i32::from(low) {
        return false;
    }
    place <= i32::from(high)
}
