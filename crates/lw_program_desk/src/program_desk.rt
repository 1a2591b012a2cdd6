ghost use Rattle.std.specs.Prelude.{◌≡◌, ◌≤◌, true, false, map, List, [], length, All, None, IsTrue, IsOk, IfOk, OnOk, OnErr, IsErrOf, ◌↔◌};
ghost use Rattle.lw_calls.specs.Limits.{IsWithinLimits, call_fits};
ghost use Rattle.lw_machine.specs.Desk.{Desk as MachineDesk, empty_desk, shelf_of};
ghost use Rattle.lw_machine.specs.Step.{after, reply};
ghost use Rattle.lw_engine_trait.specs.Memory.{takes_memory};
ghost use Rattle.lw_machine.specs.Screen.{screen_bounds};
ghost use Rattle.lw_region.specs.Rectangle.{IsOrdered};
ghost use Rattle.lw_changes.specs.Changed.{has_all};
ghost use Rattle.lw_changes.specs.Refusing.{is_refusal};
ghost use Rattle.lw_changes.specs.Touched.{touched_slot, bounds_list, bounds_on, touched};
ghost use Rattle.lw_program_desk.specs.Views.{DeskView, StandsFor, PartsAre, with_changes};
ghost use Rattle.lw_program_desk.specs.Standing.{IsStep, StandsStill};
ghost use Rattle.lw_program_desk.specs.Noting.{AreNoted, IsNoted};

use crate::held::{AfterStep, Held, make_step};
use crate::tiles::Tiles;
use lw_backfill::Backfill;
use lw_calls::{Assets, Call, Reply, Sizes};
use lw_changes::{Changes, is_refusal, touched_slot};
use lw_engine::LayerEngine;
use lw_region::Rect;
use lw_runs::Parts;
use std::alloc::{AllocError, Global};
use std::marker::Model;

/// A desk of one caller, with what it was opened with. Contracts see it as the desks of the machine for which it stands.
#[derive(Drop)]
pub struct ProgramDesk {
    sizes: Sizes,
    assets: Assets,
    // Always there between calls: a call takes the parts, and puts them back.
    held: Option<Held>,
    // Where the screen may have changed since the list was empty.
    changes: Changes,
}

impl Model for ProgramDesk {
    ghost use Rattle.lw_program_desk.specs.Views.{DeskView, IsKept};

    ghost Value = { DeskView };

    ghost view = { λ p. record { sizes = p.sizes; assets = p.assets; held = p.held; changes = p.changes } };

    ghost invariant = { λ p. IsKept (record { sizes = p.sizes; assets = p.assets; held = p.held; changes = p.changes }) };
}

impl ProgramDesk {
    /// The desk before the first call, with these glyphs and bitmaps, and with these hooks on the shelf, in their order. It fails
    /// only when out of memory.
    pub fn open(
        alloc: Global,
        sizes: Sizes,
        assets: Assets,
        hooks: Vec<Tiles>,
    ) -> Result<ProgramDesk, AllocError>
        requires limits { IsWithinLimits sizes }
        requires task { sizes.tasks ≡ 1 }
        ensures sizes { IfOk result (λ made. made.sizes ≡ sizes) }
        ensures desk { IfOk result (λ made. StandsFor made
            (empty_desk sizes assets (shelf_of (map (λ h. ⟦<Tiles as Backfill>⟧.hook h) hooks.items)))) }
        ensures changes { IfOk result (λ made. made.changes ≡ []) }
    {
        let held = opened(alloc, sizes, &assets, hooks)?;
        Ok(ProgramDesk {
            sizes,
            assets,
            held: Some(held),
            changes: Changes::new(),
        })
    }

    /// The sizes that it was opened with.
    pub fn sizes(&self) -> &Sizes
        ensures { result.now ≡ self.now.sizes }
    {
        &self.sizes
    }

    // The same, with what a desk keeps of them.
    pub(crate) fn limited_sizes(&self) -> &Sizes
        ensures value { result.now ≡ self.now.sizes }
        ensures limits { IsWithinLimits self.now.sizes }
    {
        &self.sizes
    }

    // The parts, which stand for all that the desk stands for, and for some desk.
    pub(crate) fn held(&self) -> &Held
        ensures stand { (d : MachineDesk) → StandsFor self.now d → PartsAre self.now.sizes self.now.assets result.now d }
        ensures desk { (d : MachineDesk) × PartsAre self.now.sizes self.now.assets result.now d }
    {
        match &self.held {
            Some(held) => held,
            None => unreachable!(),
        }
    }

    /// Makes one call, which has to fit the sizes, and gives its reply. A call that takes no memory can't fail; any other fails
    /// only when out of memory, and the desk then stands for what it stood for. Where the call changes the screen is noted; a
    /// call that is refused, or that touches no layer, leaves the list as it was.
    pub fn call(&mut self, alloc: Global, call: &Call) -> Result<Reply, AllocError>
        requires fits { IsTrue (call_fits self.old.sizes call.now) }
        ensures step { IfOk result (λ r. IsStep self.old call.now r self.new) }
        ensures unchanged { OnErr result (StandsStill self.old self.new) }
        ensures sizes { self.new.sizes ≡ self.old.sizes }
        ensures memory { takes_memory call.now ≡ false → IsOk result }
        ensures noted { OnOk result (IsNoted self.old call.now self.new) }
        ensures as_before { OnErr result (self.new.changes ≡ self.old.changes) }
        ensures refused { IfOk result (λ r. is_refusal r ≡ true → self.new.changes ≡ self.old.changes) }
        ensures untouched { touched_slot call.now ≡ None → self.new.changes ≡ self.old.changes }
    {
        let slot = touched_slot(call);
        let own = self.bounds_of(slot);
        let active = self.bounds_of(self.active());
        let reply = self.step(alloc, call)?;
        if slot.is_none() {
            return Ok(reply);
        }
        if is_refusal(&reply) {
            return Ok(reply);
        }
        self.note(call, &own, &active);
        Ok(reply)
    }

    // Makes a call and notes nothing.
    fn step(&mut self, alloc: Global, call: &Call) -> Result<Reply, AllocError>
        requires fits { IsTrue (call_fits self.old.sizes call.now) }
        ensures step { IfOk result (λ r. IsStep self.old call.now r self.new) }
        ensures unchanged { OnErr result (StandsStill self.old self.new) }
        ensures sizes { self.new.sizes ≡ self.old.sizes }
        ensures memory { takes_memory call.now ≡ false → IsOk result }
        ensures changes { self.new.changes ≡ self.old.changes }
    {
        let Some(held) = self.held.take() else {
            unreachable!();
        };
        let AfterCall { held, told } = make_call(alloc, self.sizes, &self.assets, held, call);
        self.held = Some(held);
        told
    }

    /// The rectangles that were noted since the list was empty: at most 16, which lie on the screen. Outside them each pixel
    /// shows the pen that it showed then.
    pub fn changes(&self) -> &[Rect]
        ensures value { result.now ≡ self.now.changes }
        ensures few { length self.now.changes ≤ 16 }
        ensures on_screen { has_all (screen_bounds self.now.sizes) self.now.changes ≡ true }
        ensures ordered { All IsOrdered self.now.changes }
    {
        self.changes.rects()
    }

    /// Forgets them all.
    pub fn forget_changes(&mut self)
        ensures { self.new ≡ with_changes self.old [] }
    {
        self.changes.clear();
    }

    // Notes what a call touched that led to this desk, by where its layer and the active window were before it.
    fn note(&mut self, call: &Call, own: &Option<Rect>, active: &Option<Rect>)
        ensures kept { self.new ≡ with_changes self.old self.new.changes }
        ensures noted { (d e : MachineDesk) → StandsFor self.old e → bounds_list own.now ≡ bounds_on d (touched_slot call.now)
            → bounds_list active.now ≡ bounds_on d d.active
            → AreNoted self.old.sizes (touched d call.now e) self.old.changes self.new.changes }
    {
        let mut changes = self.changes.copy();
        self.note_in(call, own, active, &mut changes);
        self.changes = changes;
    }
}

// The parts before the first call.
fn opened(
    alloc: Global,
    sizes: Sizes,
    assets: &Assets,
    hooks: Vec<Tiles>,
) -> Result<Held, AllocError>
    requires limits { IsWithinLimits sizes }
    ensures { IfOk result (λ h. PartsAre sizes assets.now h
        (empty_desk sizes assets.now (shelf_of (map (λ k. ⟦<Tiles as Backfill>⟧.hook k) hooks.items)))) }
{
    let engine = LayerEngine::<Tiles>::new(sizes, assets);
    let opened = engine.open(alloc, hooks)?;
    Ok(Held {
        info: opened.info,
        cells: opened.slots,
        registers: opened.registers,
    })
}

// What a call leaves of the parts, and its reply, or that memory ran out.
#[derive(Drop)]
struct AfterCall {
    held: Held,
    told: Result<Reply, AllocError>,
}

// Makes a call on the parts.
fn make_call(alloc: Global, sizes: Sizes, assets: &Assets, held: Held, call: &Call) -> AfterCall
    requires fits { IsTrue (call_fits sizes call.now) }
    requires task { sizes.tasks ≡ 1 }
    requires desk { (d : MachineDesk) × PartsAre sizes assets.now held d }
    ensures step { IfOk result.told (λ r. (d : MachineDesk) → PartsAre sizes assets.now held d
        → (r ≡ reply d 0 call.now) × PartsAre sizes assets.now result.held (after d 0 call.now)) }
    ensures unchanged { OnErr result.told ((d : MachineDesk) → PartsAre sizes assets.now held d
        → PartsAre sizes assets.now result.held d) }
    ensures memory { takes_memory call.now ≡ false → IsOk result.told }
{
    let engine = LayerEngine::<Tiles>::new(sizes, assets);
    let Held {
        info,
        cells,
        registers,
    } = held;
    let parts = Parts {
        info,
        cells,
        registers,
    };
    let AfterStep { parts, told } = make_step(alloc, &engine, parts, call);
    let Parts {
        info,
        cells,
        registers,
    } = parts;
    let held = Held {
        info,
        cells,
        registers,
    };
    AfterCall { held, told }
}
