// What an arrangement makes of one slot, in two steps: making it ready takes all the memory, and settling it takes none.

ghost use Rattle.std.specs.Prelude.{◌≡◌, ◌+◌, ◌-◌, ◌<◌, ◌≤◌, ◌==◌, ◌++◌, reverse, length, ◌||◌, option_map, is_some, true};
ghost use Rattle.std.specs.Prelude.{false, if◌then◌else◌, [], IfOk};
ghost use Rattle.lw_region.specs.Rectangle.{Rectangle};
ghost use Rattle.lw_strips.specs.Pools.{copies, copies_in};
ghost use Rattle.lw_machine.specs.Arrangement.{hook_from};
ghost use Rattle.lw_machine.specs.Layer.{is_framed};
ghost use Rattle.lw_machine.specs.Reveal.{Across};
ghost use Rattle.lw_layer.specs.View as view;
ghost use Rattle.lw_layer.specs.View.{CellView, with_layer, with_live};
ghost use Rattle.lw_layer.specs.Drafts.{IsLiveDraft, live_view, no_layer};
ghost use Rattle.lw_layer.specs.Windows.{HasRoom};
ghost use Rattle.lw_frames.specs.Framing.{with_own_frame};
ghost use Rattle.lw_frames.specs.Telling.{IsDone};
ghost use Rattle.lw_reveal.specs.Changed.{carried_to};
ghost use Rattle.lw_reveal.specs.Changes.{IsChange};
ghost use Rattle.lw_arrange.specs.Prepared.{cell_after, MayPrepare};
ghost use Rattle.lw_arrange.specs.Areas.{IsShownElsewhere};
ghost use Rattle.lw_arrange.specs.Filled.{AreGained};
ghost use Rattle.lw_engine.specs.Desks.{hook_at};
ghost use Rattle.lw_engine.specs.Slots.{asked_hook, bare, filled_as, followed, hook_in, IsStill, IsSettled};
ghost use Rattle.lw_engine.specs.Slots.{IsReadyFor, IsLeft, MayBeReady};

use crate::slot::Slot;
use crate::window_after::{WindowAfter, follow, is_slot, window_after};
use lw_arrange::{Arrangement, Becomes, Exchange, gained, is_unaffected, prepare, turn_into};
use lw_backfill::{Backfill, Shelf, Solid};
use lw_calls::{Assets, Call};
use lw_frames::paint_own_frame;
use lw_hook_fill::fill;
use lw_layer::{Cell, Layer, LiveDraft};
use lw_planes::Spare;
use lw_region::Region;
use lw_reveal::Change;
use lw_strips::Pool;
use std::alloc::{AllocError, Global};
use std::marker::Model;
use std::mem;

/// What is ready to be made of one slot: what was prepared for its cell, the pieces that it loses and gains, the pixels that are
/// then filled, the hook that a new layer takes from the shelf, and what becomes of the window of a layer that stays live.
#[derive(Drop)]
pub(crate) struct Ready<B: Backfill> {
    pub(crate) slot: u32,
    pub(crate) prepared: Becomes,
    pub(crate) exchange: Exchange,
    pub(crate) gained: Region,
    pub(crate) taken: Option<B>,
    pub(crate) window: WindowAfter,
}

impl<B: Backfill> Model for Ready<B> {
    ghost use Rattle.std.specs.Prelude.{option_map};
    ghost use Rattle.lw_engine.specs.Slots.{ReadyView};

    ghost Value = { ReadyView };

    ghost view = { λ r. record {
      slot = r.slot;
      prepared = r.prepared;
      lost = r.exchange.lost.items;
      claims = r.exchange.gained.items;
      gained = r.gained;
      taken = option_map B.hook r.taken;
      window = r.window;
    } };
}

impl<B: Backfill> Ready<B> {
    /// The slot's number.
    pub(crate) fn slot(&self) -> u32
        ensures { result ≡ self.now.slot }
    {
        self.slot
    }

    /// Whether it is ready for this slot.
    pub(crate) fn is_for(&self, slot: u32) -> bool
        ensures { result ≡ (self.now.slot == slot) }
    {
        self.slot == slot
    }

    /// A new layer takes this hook.
    pub(crate) fn receive(&mut self, hook: Option<B>)
        ensures { self.new ≡ record self.old { taken = option_map B.hook hook } }
    {
        self.taken = hook;
    }

    /// Puts the strips that the slot loses into the pool, which has room for them.
    pub(crate) fn give_up(&mut self, pool: &mut Pool)
        requires { length self.old.lost ≤ pool.old.spare }
        ensures pool { pool.new ≡ record {
          strips = pool.old.strips ++ reverse self.old.lost;
          spare = pool.old.spare - length self.old.lost;
        } }
        ensures given { self.new ≡ record self.old { lost = [] } }
    {
        self.exchange.give_up(pool);
    }
}

impl<B: Backfill> Slot<B> {
    /// Prepares the slot for the arrangement, before which these hooks are on the shelf. It changes nothing, and leaves the hook
    /// of a new layer on the shelf. It fails only when out of memory.
    pub(crate) fn prepare(
        &self,
        alloc: Global,
        shelf: &Shelf<B>,
        arrangement: &Arrangement,
        spare: &mut Spare,
    ) -> Result<Ready<B>, AllocError>
        requires slot { self.now.number < arrangement.now.stack.sizes.slots }
        requires may { MayBeReady arrangement.now self.now }
        ensures { IfOk result (λ ready. IsReadyFor arrangement.now shelf.now self.now ready) }
    {
        let cell = &*self.cell;
        // Reading these tells the proof what holds of the cell, and that the region's list is canonical.
        let _ = cell.look();
        let prepared = prepare(alloc, cell, arrangement, spare)?;
        let hooked = self.has_hook(shelf, arrangement.call());
        let gained = pixels_gained(alloc, cell, arrangement, hooked)?;
        let window = window_after(cell, arrangement, &gained);
        let gained = pixels_filled(alloc, gained, hooked, window.change.sized);
        let _ = gained.rects();
        Ok(Ready {
            slot: cell.slot(),
            prepared: prepared.becomes,
            exchange: prepared.exchange,
            gained,
            taken: None,
            window,
        })
    }

    /// Whether the arrangement leaves the slot as it is, so that nothing has to be made ready: its layer is no window, is as active as
    /// before, keeps its bounds, and neither loses nor gains a piece. No clip rectangle of it is looked at.
    pub(crate) fn is_left(&self, arrangement: &Arrangement) -> bool
        requires { MayBeReady arrangement.now self.now }
        ensures { result ≡ true → IsLeft arrangement.now self.now }
    {
        let cell = &*self.cell;
        let Some(look) = cell.look() else {
            return false;
        };
        if look.owner.is_some() {
            return false;
        }
        if look.active != is_slot(arrangement.active(), cell.slot()) {
            return false;
        }
        is_unaffected(cell, arrangement)
    }

    // Whether the slot's layer has a hook, or is to take one from the shelf.
    fn has_hook(&self, shelf: &Shelf<B>, call: &Call) -> bool
        ensures { result ≡ (is_some (hook_in self.now) || is_some (asked_hook shelf.now call.now self.now.number)) }
    {
        self.held.is_some() || asks_for_hook(shelf, call, self.cell.slot())
    }

    /// Makes of the slot what is ready for it, which gave its strips up: it claims those that it gains; a layer that is deleted
    /// drops its hook, a new layer takes its own, what a layer gained is filled, by its hook if it has one, which then turns if
    /// that was a pixel, and a window's frame is painted and its messages put. It takes no memory and can't be refused.
    pub(crate) fn settle(
        &mut self,
        alloc: Global,
        assets: &Assets,
        ready: &mut Ready<B>,
        pool: &mut Pool,
        spare: &mut Spare,
    )
        requires settled { (to : CellView) × IsSettled assets.now.glyphs self.old to ready.old }
        requires pool { (r : Rectangle) → copies r ready.old.claims ≤ copies_in r pool.old.strips }
        ensures settled { (to : CellView) → IsSettled assets.now.glyphs self.old to ready.old → self.new ≡ to }
        ensures numbers { (r : Rectangle) → copies_in r pool.old.strips ≡ copies_in r pool.new.strips + copies r ready.old.claims }
    {
        ready.exchange.claim(pool);
        match mem::replace(&mut ready.prepared, Becomes::Stays) {
            Becomes::Stays => self.stay(alloc, assets, &ready.window),
            Becomes::Closes => self.close(spare),
            Becomes::Opens(draft) => {
                let taken = ready.taken.take();
                self.open(alloc, assets, draft, taken, &ready.gained, spare)
            }
            Becomes::Changes(change) => {
                self.change(alloc, assets, change, &ready.gained, &ready.window, spare)
            }
        }
    }

    // The layer, if there is one, stays as it is, and its window is told.
    fn stay(&mut self, alloc: Global, assets: &Assets, window: &WindowAfter)
        requires { (to : CellView) × IsStill assets.now.glyphs self.old to window.now self.old.state }
        ensures { (to : CellView) → IsStill assets.now.glyphs self.old to window.now self.old.state → self.new ≡ to }
    {
        let Some(layer) = self.cell.layer_mut() else {
            return;
        };
        follow(alloc, layer, assets, window);
    }

    // The layer is deleted, and its hook dropped.
    fn close(&mut self, spare: &mut Spare)
        requires { self.old.state ≡ view.Live }
        ensures { self.new ≡ record { number = self.old.number; state = view.Closed; live = no_layer } }
    {
        turn_into(&mut *self.cell, Becomes::Closes, spare);
        self.held = None;
    }

    // The layer is created, with this hook if there is one, and its frame is painted if it has one.
    fn open(
        &mut self,
        alloc: Global,
        assets: &Assets,
        draft: Box<LiveDraft>,
        taken: Option<B>,
        gained: &Region,
        spare: &mut Spare,
    )
        requires idle { self.old.state ≡ view.Live → ⊥ }
        requires draft { IsLiveDraft draft.value }
        ensures { self.new ≡ record {
          number = self.old.number;
          state = view.Live;
          live = with_own_frame assets.now.glyphs false (filled_as (option_map B.hook taken) gained.now (live_view draft.value));
        } }
    {
        let cell = &mut *self.cell;
        turn_into(cell, Becomes::Opens(draft), spare);
        self.held = taken;
        let Some(layer) = cell.layer_mut() else {
            unreachable!();
        };
        fill_gained(layer, &mut self.held, gained);
        paint_own_frame(alloc, layer, assets, false);
    }

    // The layer has other bounds, or another part of it is visible: what it gained is filled, and then its window's frame and
    // messages are as they are due.
    fn change(
        &mut self,
        alloc: Global,
        assets: &Assets,
        change: Box<Change>,
        gained: &Region,
        window: &WindowAfter,
        spare: &mut Spare,
    )
        requires live { self.old.state ≡ view.Live }
        requires room { HasRoom 5 self.old }
        requires change { IsChange (bare self.old).live change.value }
        ensures { (q : Across) → IsDone q window.now.change → self.new ≡ with_live
            (λ c. followed assets.now.glyphs window.now q
            (filled_as (hook_in self.old) gained.now (carried_to change.value.bounds change.value.parts.visible c)))
            (bare self.old) }
    {
        let cell = &mut *self.cell;
        // Reading this tells the proof that the cell has no hook of its own.
        let _ = cell.look();
        turn_into(cell, Becomes::Changes(change), spare);
        let Some(layer) = cell.layer_mut() else {
            unreachable!();
        };
        fill_gained(layer, &mut self.held, gained);
        follow(alloc, layer, assets, window);
    }
}

// The pixels that the slot's layer gains, where it then has a hook or where it is a framed window already, and else none.
fn pixels_gained(
    alloc: Global,
    cell: &Cell,
    arrangement: &Arrangement,
    hooked: bool,
) -> Result<Region, AllocError>
    requires slot { cell.now.number < arrangement.now.stack.sizes.slots }
    requires may { MayPrepare arrangement.now cell.now }
    requires elsewhere { IsShownElsewhere arrangement.now cell.now }
    ensures hook { IfOk result (λ region. hooked ≡ true → AreGained cell.now (cell_after arrangement.now cell.now) region) }
    ensures frame { IfOk result (λ region. cell.now.state ≡ view.Live → is_framed cell.now.live.layer.window ≡ true
        → AreGained cell.now (cell_after arrangement.now cell.now) region) }
    ensures none { IfOk result (λ region. hooked ≡ false → is_framed cell.now.live.layer.window ≡ false → region ≡ []) }
{
    if hooked || has_frame(cell) {
        return gained(alloc, cell, arrangement);
    }
    Ok(Region::new(alloc))
}

// Whether the slot's layer is a framed window.
fn has_frame(cell: &Cell) -> bool
    ensures live { cell.now.state ≡ view.Live → result ≡ is_framed cell.now.live.layer.window }
    ensures idle { (cell.now.state ≡ view.Live → ⊥) → result ≡ false }
{
    match cell.look() {
        Some(look) => look.framed,
        None => false,
    }
}

// These pixels, where there is a hook or the size changes, so that they are to be filled, and else none.
fn pixels_filled(alloc: Global, gained: Region, hooked: bool, sized: bool) -> Region
    ensures { result ≡ (if hooked || sized then gained else []) }
{
    if hooked || sized {
        gained
    } else {
        Region::new(alloc)
    }
}

// Whether the call creates or opens a layer in this slot with a hook that is on the shelf.
fn asks_for_hook<B: Backfill>(shelf: &Shelf<B>, call: &Call, number: u32) -> bool
    ensures { result ≡ is_some (asked_hook shelf.now call.now number) }
{
    match call {
        Call::Create { slot, make } | Call::OpenWindow { slot, make, .. } => {
            number == *slot && is_there(shelf, make.hook)
        }
        _ => false,
    }
}

// Whether a hook is asked for, and is on the shelf.
fn is_there<B: Backfill>(shelf: &Shelf<B>, hook: Option<u32>) -> bool
    ensures { result ≡ is_some (hook_from (hook_at shelf.now) hook) }
{
    match hook {
        Some(hook) => shelf.get(hook).is_some(),
        None => false,
    }
}

// Has the pixels filled with the layer's hook, if it has one, which then turns if there are some, and else with pen 0.
fn fill_gained<B: Backfill>(layer: &mut Layer, held: &mut Option<B>, gained: &Region)
    ensures { with_layer (λ l. record l { hook = option_map B.hook held.new }) layer.new
        ≡ filled_as (option_map B.hook held.old) gained.now layer.old }
{
    // Reading this tells the proof that the layer has only pens of its depth.
    let _ = layer.depth();
    if gained.rects().is_empty() {
        return;
    }
    match held {
        Some(hook) => {
            fill(layer, hook, gained);
            hook.turned();
        }
        None => fill(layer, &Solid::new(0), gained),
    }
}
