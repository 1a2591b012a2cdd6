// Arrays of rectangles and the regions of their pixels.

ghost use Rattle.std.specs.Prelude.{◌≡◌, ◌<◌, ℤ, length, IfOk, IsTrue};
ghost use Rattle.lw_region.specs.Bands.{bands, covers};
ghost use Rattle.lw_region.specs.Pixels.{pixels_of};
ghost use Rattle.lw_c_arrays.specs.Lists.{rectangles_of, are_ordered, set_of};
ghost use Rattle.lw_c_arrays.specs.Combined.{combined};

use crate::operation::{Operation, combine};
use lw_c_rectangles::{Bounds, is_ordered, rect_of};
use lw_region::{Region, or_region};
use std::alloc::{AllocError, Global};

pub(crate) fn are_ordered(list: &[Bounds]) -> bool
    ensures { result ≡ are_ordered list.now }
{
    list.iter().all(|bounds| is_ordered(bounds))
}

// The region of at most one rectangle.
fn region_of_few(alloc: Global, list: &[Bounds]) -> Result<Region, AllocError>
    requires few { length list.now < 2 }
    requires ordered { IsTrue (are_ordered list.now) }
    ensures { IfOk result (λ made. (x y : ℤ) → covers made x y ≡ covers (rectangles_of list.now) x y) }
{
    match list.split_first() {
        None => Ok(Region::new(alloc)),
        Some((only, _)) => {
            let mut made = Region::new(alloc);
            made.or_rect(alloc, &rect_of(only))?;
            Ok(made)
        }
    }
}

// The region of these rectangles, made of the regions of the two halves.
fn region_of_all(alloc: Global, list: &[Bounds]) -> Result<Region, AllocError>
    requires ordered { IsTrue (are_ordered list.now) }
    ensures { IfOk result (λ made. (x y : ℤ) → covers made x y ≡ covers (rectangles_of list.now) x y) }
{
    if list.len() < 2 {
        return region_of_few(alloc, list);
    }
    let (left, right) = list.split_at(list.len() / 2);
    let mut made = region_of_all(alloc, left)?;
    let other = region_of_all(alloc, right)?;
    or_region(alloc, &other, &mut made)?;
    Ok(made)
}

// The same, told by its list.
fn region_of(alloc: Global, list: &[Bounds]) -> Result<Region, AllocError>
    requires ordered { IsTrue (are_ordered list.now) }
    ensures { IfOk result (λ made. made ≡ bands (set_of list.now)) }
{
    let made = region_of_all(alloc, list)?;
    let _ = made.rects();
    Ok(made)
}

// What an operation makes of two arrays.
pub(crate) fn combined(
    alloc: Global,
    operation: Operation,
    a: &[Bounds],
    b: &[Bounds],
) -> Result<Region, AllocError>
    requires first { IsTrue (are_ordered a.now) }
    requires second { IsTrue (are_ordered b.now) }
    ensures { IfOk result (λ made. made ≡ bands (combined operation (set_of a.now) (set_of b.now))) }
{
    let mut made = region_of(alloc, a)?;
    let other = region_of(alloc, b)?;
    combine(alloc, operation, &mut made, &other)?;
    Ok(made)
}
