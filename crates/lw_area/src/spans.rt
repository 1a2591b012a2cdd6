ghost use Rattle.std.specs.Prelude.{◌≡◌, pos, negsuc, ◌≤ℤ◌, IfOk};
ghost use Rattle.lw_area.specs.Areas.{AreSpans};

use crate::pattern::Pattern;
use crate::point::Polygon;
use crate::runs::row_runs;
use crate::slab::{Slab, first_row, slab_for, slab_top};
use crate::stripes::{put_runs, rects_of};
use lw_region::Rect;
use std::alloc::{AllocError, Global};

/// What there is of an area: its rectangles, or that they are more than were asked for.
#[derive(Debug, Drop)]
pub enum Spans {
    /// The canonical list of the area's rectangles: bands from top to bottom, the runs of a band from left to right.
    Rects(Vec<Rect>),
    /// The list has more rectangles than the limit.
    TooMany,
}

/// A row as a coordinate of a rectangle.
fn coordinate(row: i32) -> i16
    requires low { negsuc 2047 ≤ℤ row }
    requires high { row ≤ℤ pos 4095 }
    ensures { result ≡ row }
{
    row as i16
}

/// The rectangles of the pixels that are inside the polygon and whose bit of the pattern is 1, where they are at most
/// `limit`, and `TooMany` exactly where they are more. Rows are made from the lowest up, and no further once there are more.
pub fn spans_of(
    alloc: Global,
    polygon: &Polygon,
    pattern: &Pattern,
    limit: u32,
) -> Result<Spans, AllocError>
    ensures { IfOk result (λ spans. AreSpans polygon.now pattern.now limit spans) }
{
    let points = polygon.points();
    let top = first_row(points);
    let mut row = slab_top(points, 4095);
    let mut slab = Slab::new(alloc, row);
    let mut columns = Vec::new(alloc);
    let mut stripes = Vec::new(alloc);
    let mut count = 0;
    while top < row {
        row -= 1;
        slab = slab_for(alloc, points, slab, row)?;
        let word = pattern.word_at(row);
        let runs = row_runs(alloc, slab.edges(), row, word, &mut columns)?;
        count += put_runs(&mut stripes, coordinate(row), runs)?;
        if count > limit as usize {
            return Ok(Spans::TooMany);
        }
    }
    let rects = rects_of(alloc, stripes)?;
    Ok(Spans::Rects(rects))
}
