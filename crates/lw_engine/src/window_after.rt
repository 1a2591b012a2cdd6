// What an arrangement makes of the window that a layer is which stays live.

ghost use Rattle.std.specs.Prelude.{◌≡◌, ◌≤◌, ◌&&◌, ◌||◌, not, true, Option, Some};
ghost use Rattle.lw_region.specs.Rectangle.{Rectangle, width, height};
ghost use Rattle.lw_machine.specs.Hook.{Hook};
ghost use Rattle.lw_machine.specs.Layer.{is_window, is_framed};
ghost use Rattle.lw_machine.specs.Desk.{is_the};
ghost use Rattle.lw_machine.specs.Reveal.{Across, same_bounds};
ghost use Rattle.lw_layer.specs.View as view;
ghost use Rattle.lw_layer.specs.View.{hooked};
ghost use Rattle.lw_frames.specs.Telling.{IsDone};
ghost use Rattle.lw_stack.specs.Stack.{bounds_at};
ghost use Rattle.lw_arrange.specs.Prepared.{cell_after, MayPrepare};
ghost use Rattle.lw_arrange.specs.Filled.{AreGained};
ghost use Rattle.lw_engine.specs.Slots.{followed, is_sized, no_window_after, IsWindowAfter};

use lw_arrange::{Arrangement, gains_frame};
use lw_calls::Assets;
use lw_frames::{paint_own_frame, tell};
use lw_layer::{Cell, Layer, Look};
use lw_region::{Rect, Region};
use lw_windows::Change;
use std::alloc::Global;

/// What becomes of a window: whether its frame is to be painted, whether it is the active one afterwards, and what it is told.
#[derive(Clone, Copy, Debug, PartialEq, Eq)]
pub(crate) struct WindowAfter {
    pub(crate) frame: bool,
    pub(crate) active: bool,
    /// Whether it has some damage is looked up when it is told.
    pub(crate) change: Change,
}

impl WindowAfter {
    /// Of a layer that isn't live before and afterwards nothing is told.
    pub(crate) fn none() -> WindowAfter
        ensures { result ≡ no_window_after }
    {
        WindowAfter {
            frame: false,
            active: false,
            change: Change {
                sized: false,
                changed: false,
                deactivated: false,
                activated: false,
                damaged: false,
            },
        }
    }
}

/// What becomes of the window that the slot's layer is, if it stays live, where these are the pixels that it gains, whatever hook
/// the layer has.
pub(crate) fn window_after(cell: &Cell, arrangement: &Arrangement, gained: &Region) -> WindowAfter
    requires may { MayPrepare arrangement.now cell.now }
    requires gained { cell.now.state ≡ view.Live → is_framed cell.now.live.layer.window ≡ true
        → AreGained cell.now (cell_after arrangement.now cell.now) gained.now }
    ensures { cell.now.state ≡ view.Live → (h : Option Hook) (r : Rectangle)
        → bounds_at arrangement.now.stack.bounds cell.now.number ≡ Some r
        → IsWindowAfter arrangement.now (hooked h cell.now) r result }
{
    let Some(look) = cell.look() else {
        return WindowAfter::none();
    };
    let Some(bounds) = arrangement.bounds(cell.slot()) else {
        return WindowAfter::none();
    };
    let active = is_slot(arrangement.active(), cell.slot());
    let change = change_of(&look, &bounds, active);
    let on_frame = gains_frame(gained, look.framed, &bounds);
    WindowAfter {
        frame: is_due(&change, on_frame),
        active,
        change,
    }
}

/// Whether this slot is named.
pub(crate) fn is_slot(named: Option<u32>, slot: u32) -> bool
    ensures { result ≡ is_the named slot }
{
    match named {
        Some(number) => number == slot,
        None => false,
    }
}

// What an arrangement did to a layer that has these bounds afterwards and is then the active window or not.
fn change_of(look: &Look, bounds: &Rect, active: bool) -> Change
    ensures sized { result.sized ≡ is_sized look.now.bounds bounds.now }
    ensures changed { result.changed ≡ not (same_bounds (Some look.now.bounds) (Some bounds.now)) }
    ensures deactivated { result.deactivated ≡ (look.now.active && not active) }
    ensures activated { result.activated ≡ (active && not look.now.active) }
{
    Change {
        sized: has_other_size(&look.bounds, bounds),
        changed: has_other_bounds(&look.bounds, bounds),
        deactivated: look.active && !active,
        activated: active && !look.active,
        damaged: false,
    }
}

// Whether the rectangles have different bounds.
#[tactic(auto, unfolding(lw_machine::specs::Reveal::same_bounds))]
fn has_other_bounds(before: &Rect, after: &Rect) -> bool
    ensures { result ≡ not (same_bounds (Some before.now) (Some after.now)) }
{
    before != after
}

// Whether one rectangle has another number of columns or lines than the other.
fn has_other_size(before: &Rect, after: &Rect) -> bool
    ensures { result ≡ is_sized before.now after.now }
{
    before.width() != after.width() || before.height() != after.height()
}

// Whether the frame of a window that stays live is due: its size or its activity changed, or it gains a pixel of the frame.
fn is_due(change: &Change, on_frame: bool) -> bool
    ensures { result ≡ (change.now.sized || ((change.now.deactivated || change.now.activated) || on_frame)) }
{
    change.sized || change.deactivated || change.activated || on_frame
}

/// The layer is the active window or not, its frame is painted where that is due, and its window is told.
pub(crate) fn follow(alloc: Global, layer: &mut Layer, assets: &Assets, window: &WindowAfter)
    requires { is_window layer.old.layer.window ≡ true → 5 ≤ layer.old.room }
    ensures { (q : Across) → IsDone q window.now.change → layer.new ≡ followed assets.now.glyphs window.now q layer.old }
{
    layer.set_active(window.active);
    if window.frame {
        paint_own_frame(alloc, layer, assets, window.active);
    }
    tell(layer, &window.change);
}
