ghost use Rattle.std.specs.Prelude.{◌≡◌, Bool, true, false, cond, ◌≤◌, ◌<◌, ◌+◌, List, [], ◌∷◌, ◌++◌, ℤ, pos, negsuc, ◌+ℤ◌};
ghost use Rattle.std.specs.Prelude.{◌-ℤ◌, ◌≤ℤ◌, ◌<ℤ◌, length, vec_len, vec_capacity, OnOk};
ghost use Rattle.std.specs.Int.{int_min, int_max};
ghost use Rattle.lw_region.specs.Banded.{AreRuns};
ghost use Rattle.lw_region.specs.declared.operation.Operation.TheVariants.{Union, Intersection, SymmetricDifference, Difference};
ghost use Rattle.lw_region.specs.Columns.{columns, first_column, first_end, others, some_run, run_rectangles, next_bound};
ghost use Rattle.lw_region.specs.Columns.{behind_bound, IsRowOf};

use crate::operation::Operation;
use crate::rect::Rect;
use std::alloc::AllocError;

// Stands for the column of a rectangle where there is none: after all that are looked at.
const NO_COLUMN: i32 = 65536;

#[tactic(auto, using(std::proofs::lemmas::Int::ints), unfolding(crate::specs::Columns::first_column))]
fn first_column(rects: &[Rect]) -> i32
    ensures value { result ≡ first_column rects.now }
    ensures least { negsuc 32767 ≤ℤ result }
    ensures most { result ≤ℤ pos 65536 }
    ensures inside { 0 < length rects.now → result ≤ℤ pos 32767 }
{
    match rects.split_first() {
        None => NO_COLUMN,
        Some((rect, _)) => i32::from(rect.min_x()),
    }
}

#[tactic(auto, using(std::proofs::lemmas::Int::ints), unfolding(crate::specs::Columns::first_end))]
fn first_end(rects: &[Rect]) -> i32
    ensures value { result ≡ first_end rects.now }
    ensures least { negsuc 32767 ≤ℤ result }
    ensures most { result ≤ℤ pos 65536 }
    ensures inside { 0 < length rects.now → result ≤ℤ pos 32767 }
{
    match rects.split_first() {
        None => NO_COLUMN,
        Some((rect, _)) => i32::from(rect.max_x()),
    }
}

#[tactic(auto, unfolding(crate::specs::Columns::others))]
fn others(rects: &[Rect]) -> &[Rect]
    ensures { result.now ≡ others rects.now }
{
    match rects.split_first() {
        None => rects,
        Some((_, others)) => others,
    }
}

// Whether one of the two has a rectangle left.
fn is_any_left(a: &[Rect], b: &[Rect]) -> bool
    ensures none { result ≡ false → (a.now ≡ []) × (b.now ≡ []) }
    ensures some { result ≡ true → 0 < length a.now + length b.now }
{
    !a.is_empty() || !b.is_empty()
}

// Adds the run of these columns, if it is one.
#[tactic(auto, using(std::proofs::lemmas::Int::ints), unfolding(crate::specs::Columns::some_run))]
fn push_run(out: &mut Vec<Rect>, first: i32, last: i32, top: i16, bottom: i16)
    requires columns { first ≤ℤ last → (negsuc 32767 ≤ℤ first) × (last ≤ℤ pos 32767) }
    requires rows { top ≤ℤ bottom }
    requires room { first ≤ℤ last → vec_len out.old < vec_capacity out.old }
    ensures items { out.new.items ≡ out.old.items ++ run_rectangles top bottom (some_run first last) }
    ensures len { vec_len out.new ≤ vec_len out.old + 1 }
    ensures none { last <ℤ first → vec_len out.new ≡ vec_len out.old }
    ensures capacity { vec_capacity out.new ≡ vec_capacity out.old }
{
    if first <= last {
        out.push_reserved(Rect::of_words(first as i16, top, last as i16, bottom));
    }
}

// Adds the runs of one band.
pub(crate) fn copy_row(rects: &[Rect], top: i16, bottom: i16, out: &mut Vec<Rect>)
    requires rows { top ≤ℤ bottom }
    requires room { vec_len out.old + length rects.now ≤ vec_capacity out.old }
    ensures { out.new.items ≡ out.old.items ++ run_rectangles top bottom (columns rects.now) }
{
    for rect in rects {
        out.push_reserved(Rect::of_words(rect.min_x(), top, rect.max_x(), bottom));
    }
}

// A run takes in what begins in it or right after it, from either band, and is over where neither has such a
// rectangle left.
fn append_union(a: &[Rect], b: &[Rect], top: i16, bottom: i16, out: &mut Vec<Rect>)
    requires columns_a { AreRuns (columns a.now) }
    requires columns_b { AreRuns (columns b.now) }
    requires rows { top ≤ℤ bottom }
    requires room { vec_len out.old + (length a.now + length b.now) ≤ vec_capacity out.old }
    requires some { 0 < length a.now + length b.now }
    ensures { IsRowOf Union a.now b.now top bottom out.old.items out.new.items }
{
    let mut left_a = a;
    let mut left_b = b;
    let mut start = first_column(a).min(first_column(b));
    let mut end = start - 1;
    while is_any_left(left_a, left_b) {
        let column_a = first_column(left_a);
        let column_b = first_column(left_b);
        if column_a <= end + 1 {
            end = end.max(first_end(left_a));
            left_a = others(left_a);
            continue;
        }
        if column_b <= end + 1 {
            end = end.max(first_end(left_b));
            left_b = others(left_b);
            continue;
        }
        push_run(out, start, end, top, bottom);
        start = column_a.min(column_b);
        end = start - 1;
    }
    push_run(out, start, end, top, bottom);
}

// What two rectangles have in common is a run; then the one that ends first is done with.
fn append_intersection(a: &[Rect], b: &[Rect], top: i16, bottom: i16, out: &mut Vec<Rect>)
    requires columns_a { AreRuns (columns a.now) }
    requires columns_b { AreRuns (columns b.now) }
    requires rows { top ≤ℤ bottom }
    requires room { vec_len out.old + (length a.now + length b.now) ≤ vec_capacity out.old }
    ensures { IsRowOf Intersection a.now b.now top bottom out.old.items out.new.items }
{
    let mut left_a = a;
    let mut left_b = b;
    while let Some((r, rs)) = left_a.split_first() {
        let Some((s, ss)) = left_b.split_first() else {
            return;
        };
        let first = i32::from(r.min_x().max(s.min_x()));
        let last = i32::from(r.max_x().min(s.max_x()));
        push_run(out, first, last, top, bottom);
        if r.max_x() <= s.max_x() {
            left_a = rs;
        } else {
            left_b = ss;
        }
    }
}

// The first column of the rectangle from column `at` on.
#[tactic(auto, using(std::proofs::lemmas::Int::ints, std::proofs::lemmas::Int::clamps))]
fn first_from(at: i32, rect: &Rect) -> i32
    ensures value { result ≡ int_max at rect.now.min_x }
    ensures least { negsuc 32767 ≤ℤ result }
{
    at.max(i32::from(rect.min_x()))
}

// The last column of the rectangle before the next one begins.
#[tactic(auto, using(std::proofs::lemmas::Int::ints, std::proofs::lemmas::Int::clamps))]
fn last_before(rect: &Rect, next: &Rect) -> i32
    ensures value { result ≡ int_min rect.now.max_x (next.now.min_x -ℤ pos 1) }
    ensures most { result ≤ℤ pos 32767 }
{
    i32::from(rect.max_x()).min(i32::from(next.min_x()) - 1)
}

// The column right after the rectangle.
#[tactic(auto, using(std::proofs::lemmas::Int::ints))]
fn behind(rect: &Rect) -> i32
    ensures { result ≡ rect.now.max_x +ℤ pos 1 }
{
    i32::from(rect.max_x()) + 1
}

// What is left of a rectangle of the first band, from column `at` on, is a run up to the next rectangle of the
// second band; then the one of the two that ends first is done with.
fn append_difference(a: &[Rect], b: &[Rect], top: i16, bottom: i16, out: &mut Vec<Rect>)
    requires columns_a { AreRuns (columns a.now) }
    requires columns_b { AreRuns (columns b.now) }
    requires rows { top ≤ℤ bottom }
    requires room { vec_len out.old + (length a.now + length b.now) ≤ vec_capacity out.old }
    ensures { IsRowOf Difference a.now b.now top bottom out.old.items out.new.items }
{
    let mut left_a = a;
    let mut left_b = b;
    let mut at = first_column(a).min(first_column(b));
    while let Some((r, rs)) = left_a.split_first() {
        let first = first_from(at, r);
        let Some((s, ss)) = left_b.split_first() else {
            push_run(out, first, i32::from(r.max_x()), top, bottom);
            return copy_row(rs, top, bottom, out);
        };
        push_run(out, first, last_before(r, s), top, bottom);
        if r.max_x() <= s.max_x() {
            left_a = rs;
        } else {
            at = behind(s);
            left_b = ss;
        }
    }
}

#[tactic(auto, using(std::proofs::lemmas::Int::ints), unfolding(crate::specs::Columns::next_bound))]
fn next_bound(rects: &[Rect], is_begun: bool) -> i32
    ensures value { result ≡ next_bound is_begun rects.now }
    ensures least { negsuc 32767 ≤ℤ result }
    ensures most { 0 < length rects.now → result ≤ℤ pos 32768 }
    ensures none { result ≤ℤ pos 65537 }
{
    if is_begun {
        first_end(rects) + 1
    } else {
        first_column(rects)
    }
}

#[tactic(auto, unfolding(crate::specs::Columns::behind_bound))]
fn behind_bound(rects: &[Rect], is_begun: bool) -> &[Rect]
    ensures { result.now ≡ behind_bound is_begun rects.now }
{
    if is_begun { others(rects) } else { rects }
}

// Where the run begins that is over before column `column`: after its end where none is open.
fn run_start(is_open: bool, start: i32, column: i32) -> i32
    ensures { result ≡ cond is_open start column }
{
    if is_open { start } else { column }
}

// Goes from one column to the next at which a rectangle of either band begins or is over. A run begins or is over
// there too, but where both bands change.
fn append_symmetric_difference(a: &[Rect], b: &[Rect], top: i16, bottom: i16, out: &mut Vec<Rect>)
    requires columns_a { AreRuns (columns a.now) }
    requires columns_b { AreRuns (columns b.now) }
    requires rows { top ≤ℤ bottom }
    requires room { vec_len out.old + (length a.now + length b.now) ≤ vec_capacity out.old }
    ensures { IsRowOf SymmetricDifference a.now b.now top bottom out.old.items out.new.items }
{
    let mut left_a = a;
    let mut left_b = b;
    let mut is_begun_a = false;
    let mut is_begun_b = false;
    let mut start = first_column(a).min(first_column(b)) - 1;
    while is_any_left(left_a, left_b) {
        let bound_a = next_bound(left_a, is_begun_a);
        let bound_b = next_bound(left_b, is_begun_b);
        if bound_a == bound_b {
            left_a = behind_bound(left_a, is_begun_a);
            is_begun_a = !is_begun_a;
            left_b = behind_bound(left_b, is_begun_b);
            is_begun_b = !is_begun_b;
            continue;
        }
        let column = bound_a.min(bound_b);
        let is_open = Operation::SymmetricDifference.holds(is_begun_a, is_begun_b);
        let first = run_start(is_open, start, column);
        push_run(out, first, column - 1, top, bottom);
        start = column;
        if bound_a < bound_b {
            left_a = behind_bound(left_a, is_begun_a);
            is_begun_a = !is_begun_a;
            continue;
        }
        left_b = behind_bound(left_b, is_begun_b);
        is_begun_b = !is_begun_b;
    }
}

// Adds to `out` the runs of the columns for which the operation holds on the columns of two bands, in the rows
// `top` to `bottom`.
pub(crate) fn append_row(
    operation: Operation,
    a: &[Rect],
    b: &[Rect],
    top: i16,
    bottom: i16,
    out: &mut Vec<Rect>,
) -> Result<(), AllocError>
    requires columns_a { AreRuns (columns a.now) }
    requires columns_b { AreRuns (columns b.now) }
    requires rows { top ≤ℤ bottom }
    ensures { OnOk result (IsRowOf operation a.now b.now top bottom out.old.items out.new.items) }
{
    out.reserve(a.len() + b.len())?;
    if b.is_empty() {
        if operation.holds(true, false) {
            copy_row(a, top, bottom, out);
        }
        return Ok(());
    }
    if a.is_empty() {
        if operation.holds(false, true) {
            copy_row(b, top, bottom, out);
        }
        return Ok(());
    }
    match operation {
        Operation::Union => append_union(a, b, top, bottom, out),
        Operation::Intersection => append_intersection(a, b, top, bottom, out),
        Operation::SymmetricDifference => append_symmetric_difference(a, b, top, bottom, out),
        Operation::Difference => append_difference(a, b, top, bottom, out),
    }
    Ok(())
}
