// The calls on regions.

ghost use Rattle.std.specs.Prelude.{◌≡◌, ◌&&◌, true, ◌∷◌};
ghost use Rattle.std.specs.List.{list_any};
ghost use Rattle.lw_region.specs.Rectangle.{has_pixel};
ghost use Rattle.lw_region.specs.Bands.{bands};
ghost use Rattle.lw_region.specs.Pixels.{union, intersection, symmetric_difference, difference};
ghost use Rattle.lw_c_rectangles.specs.Bounds.{rectangle_of};
ghost use Rattle.lw_c_arrays.specs.Lists.{are_ordered, set_of};
ghost use Rattle.lw_c_arrays.specs.Combined.{combined};
ghost use Rattle.lw_c_arrays.specs.Answers.{IsMade, has_answer, IsBounded, IsAround};

use crate::answers::{BAD_RECTANGLE, DONE, EMPTY, NO_MEMORY, NO_ROOM};
use crate::bounds::{has_pixel, joined};
use crate::lists::{are_ordered, combined};
use crate::operation::Operation;
use lw_c_rectangles::{Bounds, write_out};
use lw_region::Rect;
use std::alloc::Global;

/// Writes the canonical list of the pixels that are in `a` or in `b` (OrRegionRegion), and how many rectangles it has. Where it
/// answers that `out` has no room, `count` says how many there are, and `out` is as before; after any other refusal both are.
#[unsafe(no_mangle)]
pub extern "C" fn lw_region_union(
    alloc: Global,
    a: &[Bounds],
    b: &[Bounds],
    out: &mut [Bounds],
    count: &mut usize,
) -> i32
    ensures { IsMade (are_ordered a.now && are_ordered b.now) (bands (union (set_of a.now) (set_of b.now)))
        out.old out.new count.old count.new result }
{
    made(alloc, Operation::Union, a, b, out, count)
}

/// The same of the pixels that are in `a` and in `b` (AndRegionRegion).
#[unsafe(no_mangle)]
pub extern "C" fn lw_region_intersection(
    alloc: Global,
    a: &[Bounds],
    b: &[Bounds],
    out: &mut [Bounds],
    count: &mut usize,
) -> i32
    ensures { IsMade (are_ordered a.now && are_ordered b.now) (bands (intersection (set_of a.now) (set_of b.now)))
        out.old out.new count.old count.new result }
{
    made(alloc, Operation::Intersection, a, b, out, count)
}

/// The same of the pixels that are in one of `a` and `b` alone (XorRegionRegion).
#[unsafe(no_mangle)]
pub extern "C" fn lw_region_symmetric_difference(
    alloc: Global,
    a: &[Bounds],
    b: &[Bounds],
    out: &mut [Bounds],
    count: &mut usize,
) -> i32
    ensures { IsMade (are_ordered a.now && are_ordered b.now) (bands (symmetric_difference (set_of a.now) (set_of b.now)))
        out.old out.new count.old count.new result }
{
    made(alloc, Operation::SymmetricDifference, a, b, out, count)
}

/// The same of the pixels that are in `a` and not in `b` (ClearRectRegion, of a region).
#[unsafe(no_mangle)]
pub extern "C" fn lw_region_difference(
    alloc: Global,
    a: &[Bounds],
    b: &[Bounds],
    out: &mut [Bounds],
    count: &mut usize,
) -> i32
    ensures { IsMade (are_ordered a.now && are_ordered b.now) (bands (difference (set_of a.now) (set_of b.now)))
        out.old out.new count.old count.new result }
{
    made(alloc, Operation::Difference, a, b, out, count)
}

fn made(
    alloc: Global,
    operation: Operation,
    a: &[Bounds],
    b: &[Bounds],
    out: &mut [Bounds],
    count: &mut usize,
) -> i32
    ensures { IsMade (are_ordered a.now && are_ordered b.now) (bands (combined operation (set_of a.now) (set_of b.now)))
        out.old out.new count.old count.new result }
{
    if !(are_ordered(a) && are_ordered(b)) {
        return BAD_RECTANGLE;
    }
    let Ok(region) = combined(alloc, operation, a, b) else {
        return NO_MEMORY;
    };
    hand_out(region.rects(), out, count)
}

// Writes the result out, where there is room for it, and how long it is.
fn hand_out(rects: &[Rect], out: &mut [Bounds], count: &mut usize) -> i32
    ensures { IsMade true rects.now out.old out.new count.old count.new result }
{
    *count = rects.len();
    if out.len() < rects.len() {
        return NO_ROOM;
    }
    write_out(rects, out);
    DONE
}

/// Whether some rectangle of the array has the pixel at column `x` and row `y`: 1 or 0, or that a rectangle is none.
#[unsafe(no_mangle)]
pub extern "C" fn lw_region_has(list: &[Bounds], x: i32, y: i32) -> i32
    ensures { result ≡ has_answer list.now x y }
{
    if !are_ordered(list) {
        return BAD_RECTANGLE;
    }
    if has(list, x, y) { 1 } else { 0 }
}

// The same of an array of rectangles.
fn has(list: &[Bounds], x: i32, y: i32) -> bool
    ensures { result ≡ list_any (λ b. has_pixel (rectangle_of b) x y) list.now }
{
    list.iter().any(|bounds| has_pixel(bounds, x, y))
}

/// Tells the bounds of an array of rectangles, the least rectangle in which each of them lies; of none there are none.
#[unsafe(no_mangle)]
pub extern "C" fn lw_region_bounds(list: &[Bounds], bounds: &mut Bounds) -> i32
    ensures { IsBounded list.now bounds.old bounds.new result }
{
    if !are_ordered(list) {
        return BAD_RECTANGLE;
    }
    let Some((first, rest)) = list.split_first() else {
        return EMPTY;
    };
    *bounds = around(*first, rest);
    DONE
}

fn around(first: Bounds, rest: &[Bounds]) -> Bounds
    ensures { IsAround (first ∷ rest.now) result }
{
    let mut around = first;
    for bounds in rest {
        around = joined(&around, bounds);
    }
    around
}
