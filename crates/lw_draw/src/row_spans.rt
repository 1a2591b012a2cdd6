// The pixels that a line has in a row: one span of columns, by how the line stands there.

ghost use Rattle.std.specs.Prelude.{◌≡◌, ◌+◌, ◌≤◌, min, true, if◌then◌else◌};
ghost use Rattle.std.specs.Prelude.{ℤ, pos, ◌+ℤ◌, ◌-ℤ◌, ◌<ℤ◌, int_le, unsigned_abs};
ghost use Rattle.std.specs.Int.{int_min, int_max};
ghost use Rattle.lw_region.specs.Rectangle.{within};
ghost use Rattle.lw_machine.specs.Shapes.{is_on_axes, is_on_line};
ghost use Rattle.lw_draw.specs.LineSpans.{has_row, in_reach};
ghost use Rattle.lw_draw.specs.Walks.{wide, rows_before, IsFirstStep, IsFlatRow, IsSteepRow, IsWalk};

use crate::quotients::Quotient;
use crate::walks::Walk;

// A line from (x0, y0) to (x1, y1).
#[derive(Clone, Copy)]
pub(crate) struct Line {
    pub x0: i16,
    pub y0: i16,
    pub x1: i16,
    pub y1: i16,
}

// Columns from one on, before another.
#[derive(Clone, Copy)]
pub(crate) struct Reach {
    pub from: i32,
    pub end: i32,
}

// The columns of the line's pixels in one of its rows, in which it stands so.
pub(crate) fn row_span(line: Line, y: i32, walk: Walk) -> Reach
    requires row { has_row line y ≡ true }
    requires walk { IsWalk line y walk }
    ensures { (x : ℤ) → is_on_line line.x0 line.y0 line.x1 line.y1 x y ≡ in_reach result x }
{
    match walk {
        Walk::Level => flat_span(line, 0, steps(line.x0, line.x1) + 1),
        Walk::Flat(past) => flat_span(line, first_step(line, y, past), past_step(line, past)),
        Walk::Steep(moved) => steep_span(line, moved),
    }
}

// The columns in a row of a line whose long axis is that of x: those of the steps from the row's first on, before the first
// past it.
fn flat_span(line: Line, first: u32, past: u32) -> Reach
    requires first { first ≤ wide line + 1 }
    requires past { past ≤ wide line + 1 }
    ensures { (x y : ℤ) → has_row line y ≡ true → IsFirstStep line (rows_before line y) first →
        IsFirstStep line (rows_before line y + 1) past → is_on_axes line.x0 line.x1 line.y0 line.y1 x y ≡ in_reach result x }
{
    if line.x0 <= line.x1 {
        Reach {
            from: right_of(line.x0, first),
            end: right_of(line.x0, past),
        }
    } else {
        Reach {
            from: left_of(line.x0, past) + 1,
            end: left_of(line.x0, first) + 1,
        }
    }
}

// The first step of such a line in a row.
fn first_step(line: Line, y: i32, past: Quotient) -> u32
    requires { IsFlatRow line y past }
    ensures first { IsFirstStep line (rows_before line y) result }
    ensures near { result ≤ wide line + 1 }
{
    if y == i32::from(line.y0) {
        return 0;
    }
    at_most(past.prior().value, steps(line.x0, line.x1) + 1)
}

// Its first step past a row; the number of its pixels if there is none.
fn past_step(line: Line, past: Quotient) -> u32
    ensures first { (y : ℤ) → IsFlatRow line y past → IsFirstStep line (rows_before line y + 1) result }
    ensures near { result ≤ wide line + 1 }
{
    at_most(past.value, steps(line.x0, line.x1) + 1)
}

// The column in a row of a line whose long axis is that of y.
fn steep_span(line: Line, moved: Quotient) -> Reach
    requires { moved.value ≤ 65536 }
    ensures { (x y : ℤ) → has_row line y ≡ true → IsSteepRow line y moved →
        is_on_axes line.y0 line.y1 line.x0 line.x1 y x ≡ in_reach result x }
{
    let column = towards(line.x0, line.x1, moved.value as u32);
    Reach {
        from: column,
        end: column + 1,
    }
}

// The number, or the greatest that it may be.
fn at_most(number: u64, greatest: u32) -> u32
    ensures { result ≡ min number greatest }
{
    number.min(u64::from(greatest)) as u32
}

// The place this many steps from one place towards another.
fn towards(from: i16, to: i16, steps: u32) -> i32
    requires { steps ≤ 65536 }
    ensures value { result ≡ (if int_le from to then from +ℤ pos steps else from -ℤ pos steps) }
    ensures near { result <ℤ pos 100000 }
{
    if from <= to {
        right_of(from, steps)
    } else {
        left_of(from, steps)
    }
}

// The place this many steps to the right.
fn right_of(place: i16, steps: u32) -> i32
    requires { steps ≤ 65536 }
    ensures value { result ≡ place +ℤ pos steps }
    ensures near { result <ℤ pos 100000 }
{
    i32::from(place) + steps as i32
}

// The place this many steps to the left.
fn left_of(place: i16, steps: u32) -> i32
    requires { steps ≤ 65536 }
    ensures value { result ≡ place -ℤ pos steps }
    ensures near { result <ℤ pos 100000 }
{
    i32::from(place) - steps as i32
}

// How far apart two places are.
pub(crate) fn steps(from: i16, to: i16) -> u32
    ensures value { result ≡ unsigned_abs (to -ℤ from) }
    ensures small { result ≤ 65535 }
{
    (i32::from(to) - i32::from(from)).unsigned_abs()
}

// How far a place between two others is from the first.
pub(crate) fn steps_to(from: i16, to: i16, place: i32) -> u32
    requires { within (int_min from to) place (int_max from to) ≡ true }
    ensures value { result ≡ unsigned_abs (place -ℤ from) }
    ensures between { result ≤ unsigned_abs (to -ℤ from) }
{
    (place - i32::from(from)).unsigned_abs()
}
