ghost use Rattle.std.specs.Prelude.{◌≡◌, ◌<◌, true, length, IsTrue};
ghost use Rattle.lw_calls.specs.Touches.{is_arrangement};
ghost use Rattle.lw_calls.specs.Limits.{call_fits};
ghost use Rattle.lw_machine.specs.Arrangement.{bounds_of};
ghost use Rattle.lw_stack.specs.Stack.{bounds_at};
ghost use Rattle.lw_arrange.specs.AskedBounds.{change_fits, may_lie, needs_of, new_needs, make_spans};
ghost use Rattle.lw_arrange.specs.Planning.{live_at, is_free_at, is_of_other, may_change, creation_refused, closing_refused};
ghost use Rattle.lw_arrange.specs.Planning.{reordering_refused, pair_refused, change_refused, activation_refused, refused};

use crate::asked_bounds::{Needs, changed_by, edges_of_box, may_have};
use lw_calls::{Call, Make, Reply};
use lw_layer::Look;
use lw_stack::Info;

/// The first refusal of a call that arranges layers, or `None` where none holds.
pub(crate) fn refused(
    info: &Info,
    looks: &[Option<Look>],
    fresh: bool,
    task: u32,
    call: &Call,
) -> Option<Reply>
    requires all { is_arrangement call.now ≡ true }
    requires fits { IsTrue (call_fits info.now.sizes call.now) }
    requires many { length looks.now ≡ info.now.sizes.slots }
    ensures { result ≡ refused info.now looks.now fresh task call.now }
{
    match call {
        Call::Create { slot, make } => creation_refused(info, fresh, *slot, make, false),
        Call::OpenWindow {
            slot,
            make,
            framed,
            ..
        } => creation_refused(info, fresh, *slot, make, *framed),
        Call::Close { slot } => closing_refused(info, looks, task, *slot),
        Call::ToFront { slot } | Call::ToBack { slot } => reordering_refused(info, looks, *slot),
        Call::InFrontOf { slot, other } => pair_refused(info, looks, *slot, *other),
        Call::MoveBy { slot, .. } | Call::SizeBy { slot, .. } | Call::SetBox { slot, .. } => {
            change_refused(info, looks, *slot, call)
        }
        Call::Activate { slot } => activation_refused(info, looks, *slot),
        // No other call arranges layers.
        _ => unreachable!(),
    }
}

/// Whether a layer may be created in a slot: in none that has bounds.
fn is_free(info: &Info, fresh: bool, slot: u32) -> bool
    ensures { result ≡ is_free_at info.now fresh slot }
{
    fresh && info.bounds(slot).is_none()
}

/// What is told of a live slot: of one that has its place among the others.
fn live(info: &Info, looks: &[Option<Look>], slot: u32) -> Option<Look>
    requires low { slot < info.now.sizes.slots }
    requires many { length looks.now ≡ info.now.sizes.slots }
    ensures { result ≡ live_at info.now looks.now slot }
{
    match info.bounds(slot) {
        None => None,
        Some(_) => looks[slot as usize],
    }
}

fn creation_refused(info: &Info, fresh: bool, slot: u32, make: &Make, framed: bool) -> Option<Reply>
    requires { IsTrue (make_spans make.now) }
    ensures { result ≡ creation_refused info.now fresh slot make.now framed }
{
    if !is_free(info, fresh, slot) {
        return Some(Reply::AlreadyOpen);
    }
    if !may_be_made(info, make, framed) {
        return Some(Reply::OutOfBounds);
    }
    None
}

/// Whether a new layer may have the bounds that are asked for.
fn may_be_made(info: &Info, make: &Make, framed: bool) -> bool
    requires { IsTrue (make_spans make.now) }
    ensures { result ≡ may_lie info.now.sizes (new_needs make.now framed) (bounds_of make.now) }
{
    let needs = Needs {
        framed,
        kind: make.kind,
        scroll_x: 0,
        scroll_y: 0,
        bits_w: make.bits_w,
        bits_h: make.bits_h,
    };
    may_have(
        info.sizes(),
        &needs,
        &edges_of_box(make.x, make.y, make.w, make.h),
    )
}

fn closing_refused(info: &Info, looks: &[Option<Look>], task: u32, slot: u32) -> Option<Reply>
    requires low { slot < info.now.sizes.slots }
    requires many { length looks.now ≡ info.now.sizes.slots }
    ensures { result ≡ closing_refused info.now looks.now task slot }
{
    let Some(look) = live(info, looks, slot) else {
        return Some(Reply::NotOpen);
    };
    if is_of_other(task, look.owner) {
        return Some(Reply::NotOwner);
    }
    None
}

/// Whether another task opened the window.
fn is_of_other(task: u32, owner: Option<u32>) -> bool
    ensures { result ≡ is_of_other task owner }
{
    match owner {
        None => false,
        Some(owner) => owner != task,
    }
}

fn reordering_refused(info: &Info, looks: &[Option<Look>], slot: u32) -> Option<Reply>
    requires low { slot < info.now.sizes.slots }
    requires many { length looks.now ≡ info.now.sizes.slots }
    ensures { result ≡ reordering_refused info.now looks.now slot }
{
    let Some(look) = live(info, looks, slot) else {
        return Some(Reply::NotOpen);
    };
    if look.backdrop {
        return Some(Reply::Backdrop);
    }
    None
}

fn pair_refused(info: &Info, looks: &[Option<Look>], slot: u32, other: u32) -> Option<Reply>
    requires low { slot < info.now.sizes.slots }
    requires other_low { other < info.now.sizes.slots }
    requires many { length looks.now ≡ info.now.sizes.slots }
    ensures { result ≡ pair_refused info.now looks.now slot other }
{
    let Some(look) = live(info, looks, slot) else {
        return Some(Reply::NotOpen);
    };
    let Some(other_look) = live(info, looks, other) else {
        return Some(Reply::NotOpen);
    };
    if look.backdrop || other_look.backdrop {
        return Some(Reply::Backdrop);
    }
    None
}

fn change_refused(info: &Info, looks: &[Option<Look>], slot: u32, call: &Call) -> Option<Reply>
    requires low { slot < info.now.sizes.slots }
    requires fits { IsTrue (change_fits call.now) }
    requires many { length looks.now ≡ info.now.sizes.slots }
    ensures { result ≡ change_refused info.now looks.now slot call.now }
{
    let refusal = reordering_refused(info, looks, slot);
    if refusal.is_some() {
        return refusal;
    }
    if !may_change(info, looks, slot, call) {
        return Some(Reply::OutOfBounds);
    }
    None
}

/// Whether a slot's bounds, changed by the call, are such as its layer may have.
fn may_change(info: &Info, looks: &[Option<Look>], slot: u32, call: &Call) -> bool
    requires low { slot < info.now.sizes.slots }
    requires fits { IsTrue (change_fits call.now) }
    requires many { length looks.now ≡ info.now.sizes.slots }
    ensures { result ≡ may_change info.now (live_at info.now looks.now slot) call.now (bounds_at info.now.bounds slot) }
{
    let Some(bounds) = info.bounds(slot) else {
        return false;
    };
    let Some(look) = looks[slot as usize] else {
        return false;
    };
    may_have(info.sizes(), &needs_of(&look), &changed_by(call, &bounds))
}

fn needs_of(look: &Look) -> Needs
    ensures { result ≡ needs_of look.now }
{
    Needs {
        framed: look.framed,
        kind: look.kind,
        scroll_x: look.scroll_x,
        scroll_y: look.scroll_y,
        bits_w: look.bits_w,
        bits_h: look.bits_h,
    }
}

fn activation_refused(info: &Info, looks: &[Option<Look>], slot: u32) -> Option<Reply>
    requires low { slot < info.now.sizes.slots }
    requires many { length looks.now ≡ info.now.sizes.slots }
    ensures { result ≡ activation_refused info.now looks.now slot }
{
    let Some(look) = live(info, looks, slot) else {
        return Some(Reply::NotOpen);
    };
    if look.owner.is_none() {
        return Some(Reply::NotWindow);
    }
    None
}
