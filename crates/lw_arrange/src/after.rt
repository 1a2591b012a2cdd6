ghost use Rattle.std.specs.Prelude.{◌≡◌, ◌<◌, true, length, Some, None, IfOk, IsTrue};
ghost use Rattle.std.specs.List.{All, slice_set};
ghost use Rattle.lw_calls.specs.Touches.{is_arrangement};
ghost use Rattle.lw_calls.specs.Limits.{call_fits};
ghost use Rattle.lw_machine.specs.Arrangement.{bounds_of, active_without, without};
ghost use Rattle.lw_stack.specs.Stack.{bounds_at, stack_of};
ghost use Rattle.lw_arrange.specs.AskedBounds.{IsRect, change_fits, make_spans};
ghost use Rattle.lw_arrange.specs.Planning.{with_new, without_slot, with_front, with_back, with_pair, with_change};
ghost use Rattle.lw_arrange.specs.Planning.{with_activated, with_order, stack_after, changed_bounds, IsChangeRect, HasNewRect};

use crate::asked_bounds::{changed_by, edges_of_box, rect_of};
use crate::order::{place_new, put_before_backdrops, put_before_one, put_first, without};
use lw_calls::{Call, Make};
use lw_layer::Look;
use lw_region::Rect;
use lw_stack::{Info, InfoDraft};
use std::alloc::{AllocError, Global};

/// The list, the bounds and the active window after a call that isn't refused. Of the desktop it says nothing.
pub(crate) fn after(
    alloc: Global,
    info: &Info,
    looks: &[Option<Look>],
    call: &Call,
) -> Result<InfoDraft, AllocError>
    requires all { is_arrangement call.now ≡ true }
    requires fits { IsTrue (call_fits info.now.sizes call.now) }
    requires many { length looks.now ≡ info.now.sizes.slots }
    requires placed { HasNewRect info.now call.now }
    ensures { IfOk result (λ draft. stack_of info.now.sizes draft ≡ stack_after info.now looks.now call.now) }
{
    match call {
        Call::Create { slot, make } => with_new(alloc, info, looks, *slot, make),
        Call::OpenWindow { slot, make, .. } => with_new(alloc, info, looks, *slot, make),
        Call::Close { slot } => without_slot(alloc, info, *slot),
        Call::ToFront { slot } => with_front(alloc, info, *slot),
        Call::ToBack { slot } => with_back(alloc, info, looks, *slot),
        Call::InFrontOf { slot, other } => with_pair(alloc, info, *slot, *other),
        Call::MoveBy { slot, .. } | Call::SizeBy { slot, .. } | Call::SetBox { slot, .. } => {
            with_change(alloc, info, *slot, call)
        }
        Call::Activate { slot } => with_activated(alloc, info, *slot),
        // No other call arranges layers.
        _ => unreachable!(),
    }
}

fn with_new(
    alloc: Global,
    info: &Info,
    looks: &[Option<Look>],
    slot: u32,
    make: &Make,
) -> Result<InfoDraft, AllocError>
    requires low { slot < info.now.sizes.slots }
    requires many { length looks.now ≡ info.now.sizes.slots }
    requires spans { IsTrue (make_spans make.now) }
    requires placed { IsRect (bounds_of make.now) }
    ensures { IfOk result (λ draft. stack_of info.now.sizes draft ≡ with_new info.now looks.now slot make.now) }
{
    let order = place_new(
        looks,
        make.backdrop,
        make.place,
        slot,
        order_of(alloc, info)?,
    )?;
    let bounds = bounds_with(alloc, info, slot, new_bounds(make))?;
    Ok(InfoDraft {
        order,
        bounds,
        active: info.active(),
        desktop: Vec::new(alloc),
    })
}

/// The bounds of a new layer.
fn new_bounds(make: &Make) -> Option<Rect>
    requires spans { IsTrue (make_spans make.now) }
    requires placed { IsRect (bounds_of make.now) }
    ensures { result ≡ Some (bounds_of make.now) }
{
    rect_of(&edges_of_box(make.x, make.y, make.w, make.h))
}

fn without_slot(alloc: Global, info: &Info, slot: u32) -> Result<InfoDraft, AllocError>
    requires { slot < info.now.sizes.slots }
    ensures { IfOk result (λ draft. stack_of info.now.sizes draft ≡ without_slot info.now slot) }
{
    Ok(InfoDraft {
        order: rest_of(alloc, info, slot)?,
        bounds: bounds_with(alloc, info, slot, None)?,
        active: active_without(slot, info.active()),
        desktop: Vec::new(alloc),
    })
}

/// The active window, unless it is this one.
fn active_without(slot: u32, active: Option<u32>) -> Option<u32>
    ensures { result ≡ active_without slot active }
{
    match active {
        None => None,
        Some(other) => if other == slot { None } else { active },
    }
}

fn with_front(alloc: Global, info: &Info, slot: u32) -> Result<InfoDraft, AllocError>
    ensures { IfOk result (λ draft. stack_of info.now.sizes draft ≡ with_front info.now slot) }
{
    let order = put_first(slot, rest_of(alloc, info, slot)?)?;
    with_order(alloc, info, order)
}

fn with_back(
    alloc: Global,
    info: &Info,
    looks: &[Option<Look>],
    slot: u32,
) -> Result<InfoDraft, AllocError>
    requires { length looks.now ≡ info.now.sizes.slots }
    ensures { IfOk result (λ draft. stack_of info.now.sizes draft ≡ with_back info.now looks.now slot) }
{
    let order = put_before_backdrops(looks, slot, rest_of(alloc, info, slot)?)?;
    with_order(alloc, info, order)
}

fn with_pair(alloc: Global, info: &Info, slot: u32, other: u32) -> Result<InfoDraft, AllocError>
    ensures { IfOk result (λ draft. stack_of info.now.sizes draft ≡ with_pair info.now slot other) }
{
    if slot == other {
        return with_order(alloc, info, order_of(alloc, info)?);
    }
    let order = put_before_one(other, slot, rest_of(alloc, info, slot)?)?;
    with_order(alloc, info, order)
}

fn with_order(alloc: Global, info: &Info, order: Vec<u32>) -> Result<InfoDraft, AllocError>
    ensures { IfOk result (λ draft. stack_of info.now.sizes draft ≡ with_order info.now order.items) }
{
    Ok(InfoDraft {
        order,
        bounds: bounds_of(alloc, info)?,
        active: info.active(),
        desktop: Vec::new(alloc),
    })
}

fn with_change(alloc: Global, info: &Info, slot: u32, call: &Call) -> Result<InfoDraft, AllocError>
    requires low { slot < info.now.sizes.slots }
    requires fits { IsTrue (change_fits call.now) }
    requires placed { IsChangeRect call.now (bounds_at info.now.bounds slot) }
    ensures { IfOk result (λ draft. stack_of info.now.sizes draft ≡ with_change info.now slot call.now) }
{
    Ok(InfoDraft {
        order: order_of(alloc, info)?,
        bounds: bounds_with(alloc, info, slot, changed_bounds(info, slot, call))?,
        active: info.active(),
        desktop: Vec::new(alloc),
    })
}

fn changed_bounds(info: &Info, slot: u32, call: &Call) -> Option<Rect>
    requires fits { IsTrue (change_fits call.now) }
    requires placed { IsChangeRect call.now (bounds_at info.now.bounds slot) }
    ensures { result ≡ changed_bounds call.now (bounds_at info.now.bounds slot) }
{
    match info.bounds(slot) {
        None => None,
        Some(bounds) => rect_of(&changed_by(call, &bounds)),
    }
}

fn with_activated(alloc: Global, info: &Info, slot: u32) -> Result<InfoDraft, AllocError>
    ensures { IfOk result (λ draft. stack_of info.now.sizes draft ≡ with_activated info.now slot) }
{
    Ok(InfoDraft {
        order: order_of(alloc, info)?,
        bounds: bounds_of(alloc, info)?,
        active: Some(slot),
        desktop: Vec::new(alloc),
    })
}

fn order_of(alloc: Global, info: &Info) -> Result<Vec<u32>, AllocError>
    ensures value { IfOk result (λ order. order.items ≡ info.now.front_to_back) }
    ensures slots { IfOk result (λ order. All (λ s. s < info.now.sizes.slots) order.items) }
{
    Vec::from_slice(alloc, info.order())
}

/// The list without a slot.
fn rest_of(alloc: Global, info: &Info, slot: u32) -> Result<Vec<u32>, AllocError>
    ensures value { IfOk result (λ order. order.items ≡ without slot info.now.front_to_back) }
    ensures slots { IfOk result (λ order. All (λ s. s < info.now.sizes.slots) order.items) }
{
    without(alloc, slot, info.order())
}

fn bounds_of(alloc: Global, info: &Info) -> Result<Vec<Option<Rect>>, AllocError>
    ensures { IfOk result (λ bounds. bounds.items ≡ info.now.bounds) }
{
    Vec::from_slice(alloc, info.all_bounds())
}

/// The bounds of all slots, with those of one changed.
fn bounds_with(
    alloc: Global,
    info: &Info,
    slot: u32,
    changed: Option<Rect>,
) -> Result<Vec<Option<Rect>>, AllocError>
    requires { slot < info.now.sizes.slots }
    ensures { IfOk result (λ bounds. bounds.items ≡ slice_set info.now.bounds slot changed) }
{
    let _sizes = info.sizes();
    let mut bounds = bounds_of(alloc, info)?;
    bounds[slot as usize] = changed;
    Ok(bounds)
}
