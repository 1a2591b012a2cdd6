// What an arrangement makes of a layer that stays live, in two steps: making it ready takes all the memory, and applying it
// takes none.

ghost use Rattle.std.specs.Prelude.{◌≡◌, IfOk};
ghost use Rattle.lw_layer.specs.View as view;
ghost use Rattle.lw_layer.specs.View.{with_live};
ghost use Rattle.lw_layer.specs.Drafts.{IsLiveDraft, IsState, state_of, live_of, live_view};
ghost use Rattle.lw_reveal.specs.Changed.{carried_to, MayHave};
ghost use Rattle.lw_reveal.specs.Changes.{IsChange};
ghost use Rattle.lw_reveal.specs.Handing.{own_whole};

use crate::carrying::{all_buffers, place_of};
use crate::damage::damage_after;
use crate::handing::hand_all;
use crate::pairing::find_pairs;
use lw_calls::Kind;
use lw_cliprects::Parts;
use lw_damage::Damage;
use lw_layer::{Cell, Draft, DraftState, Layer, LiveDraft};
use lw_planes::{Planes, Spare};
use lw_region::{Rect, Region};
use lw_strips::Strip;
use lw_super::write_back;
use std::alloc::{AllocError, Global};

/// What a live layer is to become once its bounds, or what is visible of it, are others.
#[derive(Debug, Drop)]
pub struct Change {
    /// The new bounds, in screen coordinates.
    pub bounds: Rect,
    /// The new bounds, cut into visible and hidden rectangles.
    pub parts: Parts,
    /// The damage of the revealed layer.
    pub damage: Damage,
    /// A strip for each new visible rectangle, blank where a former bitmap is handed over.
    pub strips: Vec<Strip>,
    /// For each new hidden rectangle of a smart layer a buffer of its size, or a bitmap of one pixel where a former one is handed
    /// over; none for other layers.
    pub covered: Vec<Planes>,
    /// By the number of each former rectangle with a buffer beside an own bitmap, the visible ones first, the number of the new
    /// rectangle to which its bitmap is handed over, if it is.
    pub handed: Vec<Option<usize>>,
}

/// Makes ready what the live layer becomes once it has these bounds and these visible pixels, both in screen coordinates. The
/// layer stays as it is. Its new bitmaps take memory from `spare` as far as that has some. It fails only when out of memory.
pub fn prepare(
    alloc: Global,
    layer: &Layer,
    bounds: &Rect,
    visible: Region,
    spare: &mut Spare,
) -> Result<Change, AllocError>
    requires may { MayHave layer.now bounds.now visible }
    ensures change { IfOk result (λ k. IsChange layer.now k) }
    ensures bounds { IfOk result (λ k. k.bounds ≡ bounds.now) }
    ensures visible { IfOk result (λ k. k.parts.visible ≡ visible) }
{
    // Reading this tells the proof that the bounds are ordered.
    let _ = bounds.min_x();
    let look = layer.look();
    let damage = damage_after(alloc, layer, bounds, &visible)?;
    let parts = Parts::cut(alloc, bounds, visible)?;
    let pairing = find_pairs(alloc, layer, &look, bounds, &parts)?;
    let _ = parts.hidden();
    let shown = parts.visible().len();
    let place = place_of(&look, bounds);
    let (strips, covered) = all_buffers(alloc, layer, &place, &pairing, shown, spare)?;
    Ok(Change {
        bounds: *bounds,
        parts,
        damage,
        strips,
        covered,
        handed: pairing.handed,
    })
}

/// Applies a change to the live layer for which it was made: the layer is then revealed in its new bounds. The memory of the
/// bitmaps that it no longer has goes to `spare`. It takes no memory and can't be refused.
pub fn apply(cell: &mut Cell, change: Change, spare: &mut Spare)
    requires live { cell.old.state ≡ view.Live }
    requires change { IsChange cell.old.live change }
    ensures { cell.new ≡ with_live (carried_to change.bounds change.parts.visible) cell.old }
{
    let slot = cell.slot();
    let state = DraftState::Closed;
    let former = cell.take_up(Draft { slot, state });
    let state = changed_state(former.state, change, spare);
    cell.take_up(Draft { slot, state });
}

// What a slot with a live layer holds once the change is applied.
fn changed_state(former: DraftState, change: Change, spare: &mut Spare) -> DraftState
    requires sound { IsState former }
    requires live { state_of former ≡ view.Live }
    requires change { IsChange (live_of former) change }
    ensures sound { IsState result }
    ensures live { state_of result ≡ view.Live }
    ensures layer { live_of result ≡ carried_to change.bounds change.parts.visible (live_of former) }
{
    match former {
        DraftState::Live(live) => DraftState::Live(changed(live, change, spare)),
        _ => unreachable!(),
    }
}

// The live layer once the change is applied.
fn changed(live: LiveDraft, change: Change, spare: &mut Spare) -> LiveDraft
    requires sound { IsLiveDraft live }
    requires change { IsChange (live_view live) change }
    ensures sound { IsLiveDraft result }
    ensures layer { live_view result ≡ carried_to change.bounds change.parts.visible (live_view live) }
{
    let mut live = live;
    let mut change = change;
    // Reading these tells the proof what holds of the bounds and of their parts.
    let _ = live.bounds.min_x();
    let _ = live.parts.visible();
    let _ = live.parts.hidden();
    let _ = change.bounds.min_x();
    let _ = change.parts.visible();
    let _ = change.parts.hidden();
    write_whole(&mut live);
    hand_all(
        &mut live.strips,
        &mut live.covered,
        &change.handed,
        &mut change.strips,
        &mut change.covered,
        spare,
    );
    live.bounds = change.bounds;
    live.parts = change.parts;
    live.damage = change.damage;
    live.strips = change.strips;
    live.covered = change.covered;
    live
}

// A super-bitmap layer's own bitmap gets all pens of the layer.
fn write_whole(live: &mut LiveDraft)
    requires { IsLiveDraft live.old }
    ensures { live.new ≡ record live.old { superbits = own_whole live.old.kind live.old } }
{
    match live.kind {
        Kind::Simple => {}
        Kind::Smart => {}
        Kind::SuperBitmap => write_back(live),
    }
}
