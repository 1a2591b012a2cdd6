// The desktop after an arrangement: in the area of the plan what no layer has then, and elsewhere what it was.

ghost use Rattle.std.specs.Prelude.{◌≡◌, ◌<ℤ◌, ◌++◌, ℤ, map, true, false, IfOk, OnOk, IsTrue, None};
ghost use Rattle.std.specs.List.{All};
ghost use Rattle.lw_region.specs.Rectangle.{AreApart};
ghost use Rattle.lw_region.specs.Bands.{covers};
ghost use Rattle.lw_calls.specs.Limits.{IsWithinLimits};
ghost use Rattle.lw_cliprects.specs.Parts.{LieIn};
ghost use Rattle.lw_machine.specs.Screen.{screen_bounds};
ghost use Rattle.lw_strips.specs.Strips.{strip_of};
ghost use Rattle.lw_strips.specs.Laying.{screen, LiesIn};
ghost use Rattle.lw_stack.specs.Stack.{LieApart};
ghost use Rattle.lw_stack.specs.Desktop.{is_bare, IsDesktop};
ghost use Rattle.lw_arrange.specs.Areas.{HasArea};
ghost use Rattle.lw_arrange.specs.Desktops.{IsSorted, IsRestOf};

use crate::arrangement::Arrangement;
use lw_calls::Sizes;
use lw_region::{Rect, Region, clear_region, or_region};
use lw_stack::Info;
use lw_strips::Strip;
use std::alloc::{AllocError, Global};

/// The strips of the desktop after the arrangement. Where no layer's bounds change, all stay as they are; else those do that
/// don't touch its area, and of the others and what the area then has of the desktop a canonical list is made, so that what was cut
/// is joined again.
pub(crate) fn desktop_after(
    alloc: Global,
    info: &Info,
    arrangement: &Arrangement,
) -> Result<Vec<Strip>, AllocError>
    requires sizes { arrangement.now.stack.sizes ≡ info.now.sizes }
    requires area { HasArea info.now arrangement.now }
    ensures { IfOk result (λ strips. IsDesktop arrangement.now.stack strips.items) }
{
    // Reading the sizes tells the proof what holds of the list and of the plan.
    let _ = info.sizes();
    let _ = arrangement.sizes();
    if are_same(info.all_bounds(), arrangement.all_bounds()) {
        let nothing = Region::new(alloc);
        return remade(alloc, info, arrangement, &nothing, &nothing);
    }
    remade(
        alloc,
        info,
        arrangement,
        arrangement.area(),
        arrangement.rest(),
    )
}

// Whether both lists have the same bounds.
fn are_same(before: &[Option<Rect>], after: &[Option<Rect>]) -> bool
    ensures { IsTrue result → before.now ≡ after.now }
{
    before == after
}

// The strips of the desktop after the arrangement, which outside this area has the same places as before, and in it these.
fn remade(
    alloc: Global,
    info: &Info,
    arrangement: &Arrangement,
    area: &Region,
    rest: &Region,
) -> Result<Vec<Strip>, AllocError>
    requires sizes { arrangement.now.stack.sizes ≡ info.now.sizes }
    requires inside { LieIn (screen_bounds info.now.sizes) area.now }
    requires bare { (x y : ℤ) → covers area.now x y ≡ false → is_bare info.now x y ≡ is_bare arrangement.now.stack x y }
    requires rest { IsRestOf arrangement.now.stack area.now rest.now }
    ensures { IfOk result (λ strips. IsDesktop arrangement.now.stack strips.items) }
{
    // Reading the sizes tells the proof what holds of the list and of the plan.
    let _ = info.sizes();
    let sizes = arrangement.sizes();
    let desktop = info.desktop();
    let mut strips = Vec::with_capacity(alloc, desktop.len())?;
    let mut near = Region::new(alloc);
    for strip in desktop {
        sort(alloc, strip, area, &mut strips, &mut near)?;
    }
    clear_region(alloc, area, &mut near)?;
    or_region(alloc, rest, &mut near)?;
    push_blank(near.rects(), sizes, &mut strips)?;
    Ok(strips)
}

// Adds a strip to those that stay, or its places to the region if it is near the area.
fn sort(
    alloc: Global,
    strip: &Strip,
    area: &Region,
    strips: &mut Vec<Strip>,
    near: &mut Region,
) -> Result<(), AllocError>
    ensures { OnOk result (IsSorted area.now strip.now strips.old.items near.old strips.new.items near.new) }
{
    if is_near(strip.rect(), area) {
        return near.or_rect(alloc, strip.rect());
    }
    strips.push(Strip::blank(*strip.rect(), strip.depth()))?;
    Ok(())
}

// Whether the rectangle meets the area or lies beside it.
fn is_near(rect: &Rect, area: &Region) -> bool
    ensures { result ≡ false → LieApart area.now rect.now }
{
    let parts = area.rects();
    for part in parts {
        if touch(part, rect) {
            return true;
        }
    }
    false
}

// Whether no column and no row is free between two rectangles.
fn touch(a: &Rect, b: &Rect) -> bool
    ensures { result ≡ false → AreApart a.now b.now }
{
    if ends_before(a.max_y(), b.min_y()) {
        return false;
    }
    if ends_before(b.max_y(), a.min_y()) {
        return false;
    }
    if ends_before(a.max_x(), b.min_x()) {
        return false;
    }
    !ends_before(b.max_x(), a.min_x())
}

// Whether a place is free between the last one and the first.
fn ends_before(last: i16, first: i16) -> bool
    ensures { result ≡ true → last <ℤ first }
{
    i32::from(last) + 1 < i32::from(first)
}

// Adds a strip of pen 0 for each rectangle of a screen of these sizes.
fn push_blank(rects: &[Rect], sizes: &Sizes, strips: &mut Vec<Strip>) -> Result<(), AllocError>
    requires sizes { IsWithinLimits sizes.now }
    requires inside { All (λ r. LiesIn r (screen sizes.now.width sizes.now.height)) rects.now }
    ensures { OnOk result (strips.new.items ≡ strips.old.items ++ map (λ r. strip_of r sizes.now.depth None) rects.now) }
{
    for rect in rects {
        // Reading this tells the proof that the rectangle is ordered.
        let _ = rect.min_x();
        strips.push(Strip::blank(*rect, sizes.depth))?;
    }
    Ok(())
}
