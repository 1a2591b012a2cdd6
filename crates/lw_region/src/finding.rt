// Searches along a row of a region. Its rectangles stand in reading order, so the ones that are before a pixel come first,
// and one binary search finds both the band of the row and the rectangle in it.

ghost use Rattle.std.specs.Prelude.{◌≡◌, ℤ, false, ◌≤ℤ◌, MatchOption};
ghost use Rattle.lw_region.specs.Bands.{covers};
ghost use Rattle.lw_region.specs.Finding.{IsRunEnd, IsNextStart, is_before, IsNextRect};

use crate::rect::Rect;
use crate::region::Region;

impl Region {
    /// The last column of the run of the region's pixels in row `y` that has column `x`; `None` exactly where the region
    /// does not have that pixel.
    pub fn run_end(&self, x: i32, y: i32) -> Option<i32>
        ensures { IsRunEnd self.now x y result }
    {
        let rect = self.next_rect(x, y)?;
        if rect.has(x, y) {
            Some(i32::from(rect.max_x()))
        } else {
            None
        }
    }

    /// The first column from `x` on that the region has in row `y`; `None` exactly where it has none of them.
    pub fn next_start(&self, x: i32, y: i32) -> Option<i32>
        ensures { IsNextStart self.now x y result }
    {
        let rect = self.next_rect(x, y)?;
        if y < i32::from(rect.min_y()) {
            return None;
        }
        Some(x.max(i32::from(rect.min_x())))
    }

    // The first rectangle that is not before column `x` and row `y`.
    fn next_rect(&self, x: i32, y: i32) -> Option<&Rect>
        ensures { MatchOption result
            ((u : ℤ) → x ≤ℤ u → covers self.now u y ≡ false)
            (λ r. IsNextRect self.now x y r.now) }
    {
        let rects = self.rects();
        let place = rects.partition_point(
            |rect: &Rect| -> bool
                ensures { result ≡ is_before x y rect.now }
            { is_before(x, y, rect) },
        );
        rects.get(place)
    }
}

// Whether the rectangle is above row `y`, or has that row and is left of column `x`.
#[tactic(auto, using(std::proofs::lemmas::Int::ints))]
fn is_before(x: i32, y: i32, rect: &Rect) -> bool
    ensures { result ≡ is_before x y rect.now }
{
    i32::from(rect.max_y()) < y || (i32::from(rect.min_y()) <= y && i32::from(rect.max_x()) < x)
}
