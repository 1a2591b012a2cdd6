ghost use Rattle.std.specs.Prelude.{◌≡◌, ◌↔◌, ℕ, ◌<◌, ◌==◌, false, not, ◌&&◌, ◌||◌, [], length, ℤ, IfOk, OnOk, OnErr};
ghost use Rattle.std.specs.List.{All, slice_index_or};
ghost use Rattle.std.specs.Option.{is_some};
ghost use Rattle.lw_region.specs.Rectangle.{has_pixel};
ghost use Rattle.lw_region.specs.Bands.{covers};
ghost use Rattle.lw_calls.specs.Limits.{IsWithinLimits};
ghost use Rattle.lw_machine.specs.Screen.{bounds_have, screen_bounds};
ghost use Rattle.lw_stack.specs.Stack.{bounds_at, first_at, AreShownIn, LieApart};

use crate::sets::SlotSets;
use lw_calls::Sizes;
use lw_region::{Rect, Region, difference, intersection};
use lw_strips::screen_of;
use std::alloc::{AllocError, Global};

/// What is shown within an area: of each layer, and of nothing but the desktop.
#[derive(Debug, Drop)]
pub struct Shown {
    /// By slot what is shown of its layer.
    pub sets: SlotSets,
    /// What no layer has.
    pub rest: Region,
}

/// What is shown within an area of each layer of a list of slots from front to back, by slot: the places of the area where it is
/// the first of the list whose bounds have them. A slot that isn't in the list has an empty region. `bounds` has the layers'
/// bounds by slot. (One pass from the front over what is left of the area, as the X server's miComputeClips makes it, which ends
/// where nothing is left.) What is left at the end is the rest. Places of the area off the screen are told as any other. It fails
/// only when out of memory.
pub fn shown_in(
    alloc: Global,
    area: &Region,
    order: &[u32],
    bounds: &[Option<Rect>],
) -> Result<Shown, AllocError>
    requires { All (λ s. s < length bounds.now) order.now }
    ensures sets { IfOk result (λ shown. AreShownIn area.now bounds.now order.now shown.sets.items) }
    ensures rest { IfOk result (λ shown. (x y : ℤ) →
        covers shown.rest x y ≡ (covers area.now x y && not (is_some (first_at bounds.now order.now x y)))) }
{
    let mut sets = SlotSets::new(alloc, bounds.len());
    // What the layers in front leave of the area.
    let mut rest = area.copy(alloc)?;
    for slot in order {
        if rest.rects().is_empty() {
            return Ok(Shown { sets, rest });
        }
        show_in(alloc, *slot, bounds, &mut rest, &mut sets)?;
    }
    Ok(Shown { sets, rest })
}

// Adds to a slot's set what its bounds have of the rest, which then is without them.
fn show_in(
    alloc: Global,
    slot: u32,
    bounds: &[Option<Rect>],
    rest: &mut Region,
    sets: &mut SlotSets,
) -> Result<(), AllocError>
    requires has_bounds { slot < length bounds.now }
    requires has_set { slot < length sets.old.items }
    ensures many { OnOk result (length sets.new.items ≡ length sets.old.items) }
    ensures rest { OnOk result ((x y : ℤ) →
        covers rest.new x y ≡ (covers rest.old x y && not (bounds_have (bounds_at bounds.now slot) x y))) }
    ensures sets { OnOk result ((s : ℕ) (x y : ℤ) →
        covers (slice_index_or sets.new.items s []) x y
        ≡ (covers (slice_index_or sets.old.items s []) x y
        || ((covers rest.old x y && bounds_have (bounds_at bounds.now slot) x y) && (slot == s)))) }
{
    match &bounds[slot as usize] {
        Some(rect) => take_part(alloc, slot, rect, rest, sets),
        None => Ok(()),
    }
}

// Adds to a slot's set what the rectangle has of the rest, which then is without it. One that has nothing of it costs no region.
fn take_part(
    alloc: Global,
    slot: u32,
    rect: &Rect,
    rest: &mut Region,
    sets: &mut SlotSets,
) -> Result<(), AllocError>
    requires { slot < length sets.old.items }
    ensures many { OnOk result (length sets.new.items ≡ length sets.old.items) }
    ensures rest { OnOk result ((x y : ℤ) → covers rest.new x y ≡ (covers rest.old x y && not (has_pixel rect.now x y))) }
    ensures sets { OnOk result ((s : ℕ) (x y : ℤ) →
        covers (slice_index_or sets.new.items s []) x y
        ≡ (covers (slice_index_or sets.old.items s []) x y
        || ((covers rest.old x y && has_pixel rect.now x y) && (slot == s)))) }
{
    if !meets(rest, rect) {
        return Ok(());
    }
    let part = intersection(alloc, rest.rects(), rect.as_list())?;
    sets.add(alloc, slot, part)?;
    rest.clear_rect(alloc, rect)
}

/// Whether the rectangle has a pixel of the region.
pub fn meets(region: &Region, rect: &Rect) -> bool
    ensures { (result ≡ false) ↔ LieApart region.now rect.now }
{
    let rects = region.rects();
    for part in rects {
        if part.meet(rect).is_some() {
            return true;
        }
    }
    false
}

/// The part of the bounds that lies on a screen of these sizes; `None` where no pixel of them does, or there are no bounds.
pub fn on_screen(sizes: &Sizes, bounds: Option<Rect>) -> Option<Rect>
    requires { IsWithinLimits sizes.now }
    ensures { (x y : ℤ) → bounds_have result x y ≡ (has_pixel (screen_bounds sizes.now) x y && bounds_have bounds x y) }
{
    match bounds {
        Some(rect) => screen_of_sizes(sizes).meet(&rect),
        None => None,
    }
}

// The rectangle of a screen of these sizes.
pub(crate) fn screen_of_sizes(sizes: &Sizes) -> Rect
    requires { IsWithinLimits sizes.now }
    ensures { result ≡ screen_bounds sizes.now }
{
    screen_of(sizes.width, sizes.height)
}

// The pixels of the bounds that aren't covered; none without bounds.
pub(crate) fn uncovered(
    alloc: Global,
    bounds: Option<Rect>,
    covered: &Region,
) -> Result<Region, AllocError>
    ensures { IfOk result
        (λ shown. (x y : ℤ) → covers shown x y ≡ (bounds_have bounds x y && not (covers covered.now x y))) }
{
    match &bounds {
        Some(rect) => difference(alloc, rect.as_list(), covered.rects()),
        None => Ok(Region::new(alloc)),
    }
}

/// Adds the pixels of the bounds, if there are any, to the region. It fails only when out of memory, and then the region stays as
/// it was.
pub fn cover(alloc: Global, bounds: Option<Rect>, covered: &mut Region) -> Result<(), AllocError>
    ensures ok { OnOk result ((x y : ℤ) → covers covered.new x y ≡ (covers covered.old x y || bounds_have bounds x y)) }
    ensures err { OnErr result (covered.new ≡ covered.old) }
{
    let Some(rect) = &bounds else {
        return Ok(());
    };
    covered.or_rect(alloc, rect)?;
    Ok(())
}
