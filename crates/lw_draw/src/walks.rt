// A line on its way from row to row: divided for the first row that is drawn, and stepped to each further one.

ghost use Rattle.std.specs.Prelude.{◌≡◌, ◌+◌, ◌-◌, ◌^◌, ◌<◌, ◌≤◌, pos, true, false, if◌then◌else◌};
ghost use Rattle.lw_draw.specs.LineSpans.{has_row};
ghost use Rattle.lw_draw.specs.Quotients.{total_of, gain_of, IsQuotient};
ghost use Rattle.lw_draw.specs.Walks.{IsWalk};

use crate::quotients::Quotient;
use crate::row_spans::{Line, steps, steps_to};

// How a line stands in one of its rows.
#[derive(Clone, Copy)]
pub(crate) enum Walk {
    // The line has no other row.
    Level,
    // Its long axis is that of x: the first of its steps that is past the row.
    Flat(Quotient),
    // Its long axis is that of y: how far it has moved on that of x.
    Steep(Quotient),
}

// How the line stands in this row, worked out anew.
pub(crate) fn walk_at(line: Line, y: i32) -> Walk
    requires { has_row line y ≡ true }
    ensures { IsWalk line y result }
{
    let wide = u64::from(steps(line.x0, line.x1));
    let high = u64::from(steps(line.y0, line.y1));
    let moved = 2 * (u64::from(steps_to(line.y0, line.y1, y)) * wide);
    if wide < high {
        Walk::Steep(Quotient::new(moved + high, 2 * wide, 2 * high))
    } else if 0 < high {
        Walk::Flat(Quotient::new(moved + (wide + 2 * high - 1), 2 * wide, 2 * high))
    } else {
        Walk::Level
    }
}

// How it stands in the next row, if that is before the end.
pub(crate) fn next_row(walk: Walk, line: Line, y: u32, end: u32) -> Walk
    requires here { y < end }
    requires row { has_row line (pos y) ≡ true }
    requires more { y + 1 < end → has_row line (pos (y + 1)) ≡ true }
    requires walk { IsWalk line (pos y) walk }
    ensures { y + 1 < end → IsWalk line (pos (y + 1)) result }
{
    if y + 1 == end {
        return walk;
    }
    let down = line.y0 <= line.y1;
    match walk {
        Walk::Level => Walk::Level,
        Walk::Flat(past) => Walk::Flat(stepped(past, down)),
        Walk::Steep(moved) => Walk::Steep(stepped(moved, down)),
    }
}

// The quotient of the row below, of a line that goes down or up.
fn stepped(quotient: Quotient, down: bool) -> Quotient
    requires on { down ≡ true → total_of quotient + gain_of quotient < 2 ^ 40 }
    requires back { down ≡ false → gain_of quotient ≤ total_of quotient }
    ensures { IsQuotient
        (if down then total_of quotient + gain_of quotient else total_of quotient - gain_of quotient)
        (gain_of quotient) quotient.divisor result }
{
    if down {
        quotient.next()
    } else {
        quotient.prior()
    }
}
