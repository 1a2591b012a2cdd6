ghost use Rattle.std.specs.Prelude.{◌≡◌, ◌≤◌, length, []};
ghost use Rattle.std.specs.List.{list_any};
ghost use Rattle.std.specs.Option.{SomeIff};
ghost use Rattle.lw_region.specs.Rectangle.{IsOrdered};
ghost use Rattle.lw_changes.specs.Changed.{lie_in, is_inside, hull, hull_of, with_rect};

use lw_region::Rect;
use std::marker::Model;

// How many rectangles there is room for.
const MOST: usize = 16;

/// Rectangles outside which nothing changed since the list was last empty: at most 16, and it takes no memory.
#[derive(Debug, Drop)]
pub struct Changes {
    rects: [Rect; 16],
    count: usize,
}

impl Model for Changes {
    ghost use Rattle.std.specs.Prelude.{◌≡◌, ◌≤◌, List, length, take};
    ghost use Rattle.lw_region.specs.Rectangle.{Rectangle};

    ghost Value = { List Rectangle };

    ghost view = { λ c. take c.count c.rects };

    ghost invariant = { λ c. (c.count ≤ 16) × (length c.rects ≡ 16) };
}

impl Changes {
    /// No rectangle.
    pub fn new() -> Changes
        ensures { result ≡ [] }
    {
        Changes {
            rects: [corner(); 16],
            count: 0,
        }
    }

    /// The same list.
    pub fn copy(&self) -> Changes
        ensures { result ≡ self.now }
    {
        Changes {
            rects: self.rects,
            count: self.count,
        }
    }

    /// The rectangles, in no order that means anything.
    pub fn rects(&self) -> &[Rect]
        ensures value { result.now ≡ self.now }
        ensures few { length self.now ≤ 16 }
    {
        &self.rects[..self.count]
    }

    /// Notes one more rectangle: where there is no room for it, one takes the place of all.
    pub fn add(&mut self, rect: &Rect)
        ensures { self.new ≡ with_rect self.old rect.now }
    {
        if have_all(self.rects(), rect) {
            return;
        }
        if self.count < MOST {
            self.rects[self.count] = *rect;
            self.count += 1;
        } else {
            self.rects[0] = hull_of(self.rects(), rect);
            self.count = 1;
        }
    }

    /// Forgets them all.
    pub fn clear(&mut self)
        ensures { self.new ≡ [] }
    {
        self.count = 0;
    }
}

// What stands where no rectangle is noted.
fn corner() -> Rect {
    match Rect::new(0, 0, 0, 0) {
        Some(made) => made,
        None => unreachable!(),
    }
}

// Whether one of the rectangles has all of this one.
fn have_all(rects: &[Rect], rect: &Rect) -> bool
    ensures { result ≡ list_any (is_inside rect.now) rects.now }
{
    rects.iter().any(|one| is_inside(rect, one))
}

fn is_inside(rect: &Rect, other: &Rect) -> bool
    ensures { result ≡ is_inside rect.now other.now }
{
    lie_in(rect.min_x(), rect.max_x(), other.min_x(), other.max_x())
        && lie_in(rect.min_y(), rect.max_y(), other.min_y(), other.max_y())
}

#[tactic(auto, using(std::proofs::lemmas::Int::ints), unfolding(crate::specs::Changed::lie_in))]
fn lie_in(least: i16, greatest: i16, low: i16, high: i16) -> bool
    ensures { result ≡ lie_in least greatest low high }
{
    low <= least && greatest <= high
}

// The least rectangle that has this one and all of the list.
fn hull_of(rects: &[Rect], rect: &Rect) -> Rect
    ensures { result ≡ hull_of rects.now rect.now }
{
    let mut all = *rect;
    for one in rects {
        all = hull(&all, one);
    }
    all
}

// The least rectangle that has both.
fn hull(rect: &Rect, other: &Rect) -> Rect
    ensures { result ≡ hull rect.now other.now }
{
    // Reading a bound is what makes their order known to the proof.
    let _ = rect.min_x();
    match between(rect, other) {
        Some(made) => made,
        None => unreachable!(),
    }
}

// The rectangle from the lesser minima to the greater maxima.
fn between(rect: &Rect, other: &Rect) -> Option<Rect>
    ensures { SomeIff result (IsOrdered (hull rect.now other.now)) (hull rect.now other.now) }
{
    let min_x = rect.min_x().min(other.min_x());
    let min_y = rect.min_y().min(other.min_y());
    let max_x = rect.max_x().max(other.max_x());
    let max_y = rect.max_y().max(other.max_y());
    Rect::new(min_x, min_y, max_x, max_y)
}
