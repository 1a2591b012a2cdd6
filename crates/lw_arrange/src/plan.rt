ghost use Rattle.std.specs.Prelude.{◌≡◌, true, not, ◌&&◌, length, ℤ, IfOk, IsTrue};
ghost use Rattle.std.specs.Option.{is_some};
ghost use Rattle.lw_region.specs.Bands.{covers};
ghost use Rattle.lw_calls.specs.Touches.{is_arrangement};
ghost use Rattle.lw_calls.specs.Limits.{call_fits};
ghost use Rattle.lw_machine.specs.Desk.{Desk};
ghost use Rattle.lw_stack.specs.Stack.{bounds_at, first_at, stack_of, AreShownIn};
ghost use Rattle.lw_arrange.specs.Arranged.{AreOf, IsStepOf};
ghost use Rattle.lw_arrange.specs.Steps.{KeepsSizes};
ghost use Rattle.lw_arrange.specs.Areas.{IsAreaOf, StepHasArea, slot_arranged};
ghost use Rattle.lw_arrange.specs.Pieces.{StepHasPieces};

use crate::after::after;
use crate::arrangement::{Arrangement, Step};
use crate::copied::copied;
use crate::pieces::pieces_of;
use crate::refused::refused;
use lw_calls::Call;
use lw_layer::Look;
use lw_region::{Rect, Region};
use lw_stack::{Info, InfoDraft, Shown, cover, on_screen, shown_in};
use std::alloc::{AllocError, Global};

/// What a task's call that arranges layers does, told from LayerInfo and the looks of all slots alone: its first refusal, or the
/// plan of it. `fresh` says of a call that creates a layer whether one may be created in its slot. It fails only when out of
/// memory.
pub fn plan_step(
    alloc: Global,
    info: &Info,
    looks: &[Option<Look>],
    fresh: bool,
    task: u32,
    call: &Call,
) -> Result<Step, AllocError>
    requires all { is_arrangement call.now ≡ true }
    requires fits { IsTrue (call_fits info.now.sizes call.now) }
    requires many { length looks.now ≡ info.now.sizes.slots }
    ensures step { IfOk result
        (λ step. (d : Desk) → AreOf d info.now looks.now fresh call.now → IsStepOf d task call.now step) }
    ensures sizes { IfOk result (λ step. KeepsSizes info.now.sizes step) }
    ensures area { IfOk result (λ step. StepHasArea info.now step) }
    ensures pieces { IfOk result (λ step. StepHasPieces info.now step) }
{
    let sizes = *info.sizes();
    if let Some(reply) = refused(info, looks, fresh, task, call) {
        return Ok(Step::Refused(reply));
    }
    let after = after(alloc, info, looks, call)?;
    let area = area_of(alloc, info, &after, call)?;
    let shown = shown_in(
        alloc,
        &area,
        after.order.as_slice(),
        after.bounds.as_slice(),
    )?;
    let were = shown_before(alloc, info, &area)?;
    let pieces = pieces_of(alloc, sizes.slots, &were, &shown)?;
    let call = copied(alloc, call)?;
    Ok(Step::Arranged(Arrangement::new(task, call, sizes, after, area, shown, pieces)))
}

// What is shown of each layer in the area before the call.
fn shown_before(alloc: Global, info: &Info, area: &Region) -> Result<Shown, AllocError>
    ensures sets { IfOk result (λ were. AreShownIn area.now info.now.bounds info.now.front_to_back were.sets.items) }
    ensures rest { IfOk result (λ were. (x y : ℤ) →
        covers were.rest x y ≡ (covers area.now x y && not (is_some (first_at info.now.bounds info.now.front_to_back x y)))) }
{
    shown_in(alloc, area, info.order(), info.all_bounds())
}

// What the former and the new bounds of the call's slot have of the screen; no place of a call that changes no layer's bounds nor
// its place in the list.
fn area_of(alloc: Global, info: &Info, after: &InfoDraft, call: &Call) -> Result<Region, AllocError>
    ensures { IfOk result (λ area. IsAreaOf info.now (stack_of info.now.sizes after.now) call.now area) }
{
    let mut area = Region::new(alloc);
    let Some(slot) = slot_arranged(call) else {
        return Ok(area);
    };
    let sizes = info.sizes();
    cover(alloc, on_screen(sizes, info.bounds(slot)), &mut area)?;
    cover(
        alloc,
        on_screen(sizes, bounds_after(after, slot)),
        &mut area,
    )?;
    Ok(area)
}

// The bounds of a slot after the call.
fn bounds_after(after: &InfoDraft, slot: u32) -> Option<Rect>
    ensures { result ≡ bounds_at after.now.bounds.items slot }
{
    match after.bounds.get(slot as usize) {
        Some(bounds) => *bounds,
        None => None,
    }
}

// The slot whose bounds or whose place in the list the call may change.
fn slot_arranged(call: &Call) -> Option<u32>
    ensures { result ≡ slot_arranged call.now }
{
    match call {
        Call::Create { slot, .. }
        | Call::OpenWindow { slot, .. }
        | Call::Close { slot }
        | Call::ToFront { slot }
        | Call::ToBack { slot }
        | Call::InFrontOf { slot, .. }
        | Call::MoveBy { slot, .. }
        | Call::SizeBy { slot, .. }
        | Call::SetBox { slot, .. } => Some(*slot),
        _ => None,
    }
}
