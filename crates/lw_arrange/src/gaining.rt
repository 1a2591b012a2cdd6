// Which pixels of a layer an arrangement fills.

ghost use Rattle.std.specs.Prelude.{◌≡◌, ◌<◌, ◌≤◌, true, not, Some, IfOk};
ghost use Rattle.std.specs.List.{list_any};
ghost use Rattle.lw_region.specs.Rectangle.{width, height};
ghost use Rattle.lw_cliprects.specs.Parts.{LieIn};
ghost use Rattle.lw_layer.specs.View as view;
ghost use Rattle.lw_layer.specs.View.{with_live};
ghost use Rattle.lw_layer.specs.Pieces.{HasFrameRoom};
ghost use Rattle.lw_stack.specs.Stack.{bounds_at};
ghost use Rattle.lw_reveal.specs.Changed.{carried_to, MayHave};
ghost use Rattle.lw_arrange.specs.Prepared.{created_by, kind_of, created_live, shown_at, with_bounds, cell_after, IsCreation};
ghost use Rattle.lw_arrange.specs.Prepared.{MayOpen, MayBecome, MayPrepare};
ghost use Rattle.lw_arrange.specs.Areas.{IsShownElsewhere};
ghost use Rattle.lw_arrange.specs.Filled.{AreGained};
ghost use Rattle.lw_arrange.specs.Framed.{IsFrameGained, has_corners};

use crate::arrangement::Arrangement;
use crate::showing::{changed_visible, new_visible};
use lw_calls::{Call, Kind};
use lw_layer::{Cell, inner_rectangle, kept_region};
use lw_region::{Rect, Region, clear_region};
use lw_reveal::counted_region;
use std::alloc::{AllocError, Global};

/// The layer pixels that the arrangement fills, with the hook of the slot's layer or else with pen 0: those that it keeps
/// afterwards and that don't count as kept before, and none of a super-bitmap layer or of a slot that isn't live afterwards. In a
/// framed window whose size changes the pixels of the old frame that lie in the new inner rectangle don't count (the manual's
/// Layers Library chapter: backfill hooks; which pixels a layer keeps, and which count, is this project's own). They are in layer
/// coordinates. Outside the arrangement's area the cell has to show what the plan says. It fails only when out of memory.
pub fn gained(alloc: Global, cell: &Cell, arrangement: &Arrangement) -> Result<Region, AllocError>
    requires slot { cell.now.number < arrangement.now.stack.sizes.slots }
    requires may { MayPrepare arrangement.now cell.now }
    requires elsewhere { IsShownElsewhere arrangement.now cell.now }
    ensures { IfOk result (λ region. AreGained cell.now (cell_after arrangement.now cell.now) region) }
{
    let slot = cell.slot();
    match arrangement.bounds(slot) {
        None => Ok(Region::new(alloc)),
        Some(bounds) => gained_within(alloc, cell, arrangement, &bounds),
    }
}

// The pixels of a cell that has these bounds afterwards.
fn gained_within(
    alloc: Global,
    cell: &Cell,
    arrangement: &Arrangement,
    bounds: &Rect,
) -> Result<Region, AllocError>
    requires slot { cell.now.number < arrangement.now.stack.sizes.slots }
    requires bounds { bounds_at arrangement.now.stack.bounds cell.now.number ≡ Some bounds.now }
    requires may { MayBecome (created_by arrangement.now.task arrangement.now.call) arrangement.now.stack.sizes.depth bounds.now
        (shown_at arrangement.now cell.now.number) cell.now cell.now.state }
    requires elsewhere { IsShownElsewhere arrangement.now cell.now }
    ensures { IfOk result
        (λ region. AreGained cell.now
        (with_bounds (created_by arrangement.now.task arrangement.now.call) arrangement.now.stack.sizes.depth bounds.now
        (shown_at arrangement.now cell.now.number) cell.now cell.now.state) region) }
{
    // Reading the sizes tells the proof what holds of the plan.
    let _ = arrangement.sizes();
    match cell.look() {
        None => gained_anew(
            alloc,
            cell,
            arrangement,
            bounds,
            new_visible(cell, arrangement),
        ),
        Some(_) => gained_more(alloc, cell, arrangement, bounds),
    }
}

// The pixels of a new layer: all that it keeps.
fn gained_anew(
    alloc: Global,
    cell: &Cell,
    arrangement: &Arrangement,
    bounds: &Rect,
    visible: &Region,
) -> Result<Region, AllocError>
    requires idle { cell.now.state ≡ view.Live → ⊥ }
    requires may { MayOpen (created_by arrangement.now.task arrangement.now.call) arrangement.now.stack.sizes.depth bounds.now }
    requires inside { LieIn bounds.now visible.now }
    ensures { IfOk result (λ region. AreGained cell.now (record { number = cell.now.number; state = view.Live; live = created_live (created_by arrangement.now.task arrangement.now.call) arrangement.now.stack.sizes.depth bounds.now visible.now }) region) }
{
    let kind = created_kind(arrangement);
    kept_region(alloc, kind, bounds, visible.rects())
}

// The kind of the layer that the call creates.
fn created_kind(arrangement: &Arrangement) -> Kind
    requires { IsCreation (created_by arrangement.now.task arrangement.now.call) }
    ensures { kind_of (created_by arrangement.now.task arrangement.now.call) ≡ Some result }
{
    match arrangement.call() {
        Call::Create { make, .. } => make.kind,
        Call::OpenWindow { make, .. } => make.kind,
        _ => unreachable!(),
    }
}

// The pixels of a layer that stays live: those that it keeps afterwards without those that count as kept before.
fn gained_more(
    alloc: Global,
    cell: &Cell,
    arrangement: &Arrangement,
    bounds: &Rect,
) -> Result<Region, AllocError>
    requires slot { cell.now.number < arrangement.now.stack.sizes.slots }
    requires live { cell.now.state ≡ view.Live }
    requires bounds { bounds_at arrangement.now.stack.bounds cell.now.number ≡ Some bounds.now }
    requires may { MayHave cell.now.live bounds.now (shown_at arrangement.now cell.now.number) }
    requires elsewhere { IsShownElsewhere arrangement.now cell.now }
    ensures { IfOk result
        (λ region. AreGained cell.now
        (with_live (λ c. carried_to bounds.now (shown_at arrangement.now cell.now.number) c) cell.now) region) }
{
    let Some(layer) = cell.layer() else {
        unreachable!();
    };
    let look = layer.look();
    let Some(visible) = changed_visible(alloc, cell, layer, arrangement, bounds)? else {
        return Ok(Region::new(alloc));
    };
    let before = counted_region(alloc, layer, bounds)?;
    let mut gained = kept_region(alloc, look.kind, bounds, visible.rects())?;
    clear_region(alloc, &before, &mut gained)?;
    Ok(gained)
}

/// Whether some of these pixels that a window with these bounds gains, in layer coordinates, lies in its frame; none does of a
/// window without one (the manual's Intuition Windows chapter; that such a frame is painted again is this project's own).
pub fn gains_frame(gained: &Region, framed: bool, bounds: &Rect) -> bool
    requires wide { width bounds.now ≤ 2048 }
    requires high { height bounds.now ≤ 2048 }
    requires room { framed ≡ true → HasFrameRoom bounds.now }
    ensures { IsFrameGained gained.now framed bounds.now result }
{
    if !framed {
        return false;
    }
    match inner_rectangle(Kind::Smart, framed, bounds) {
        None => false,
        Some(inner) => leaves(&inner, gained.rects()),
    }
}

// Whether one of these rectangles isn't within the rectangle.
fn leaves(inner: &Rect, rects: &[Rect]) -> bool
    ensures { result ≡ list_any (λ r. not (has_corners inner.now r)) rects.now }
{
    rects.iter().any(|rect| !has_corners(inner, rect))
}

// Whether the first rectangle has the first and the last pixel of the second one.
#[tactic(auto, using(std::proofs::lemmas::Int::ints))]
fn has_corners(inner: &Rect, rect: &Rect) -> bool
    ensures { result ≡ has_corners inner.now rect.now }
{
    inner.has(i32::from(rect.min_x()), i32::from(rect.min_y()))
        && inner.has(i32::from(rect.max_x()), i32::from(rect.max_y()))
}
