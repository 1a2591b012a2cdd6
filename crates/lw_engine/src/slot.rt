// A slot of the desk: its cell, and beside it the hook of its layer.

ghost use Rattle.std.specs.Prelude.{◌≡◌, ◌↔◌, false, option_map, Option, IsOk, IfOk, OnOk, OnErr, IsTrue};
ghost use Rattle.lw_calls.specs.declared.sizes.Sizes.{Sizes};
ghost use Rattle.lw_calls.specs.Limits.{call_fits};
ghost use Rattle.lw_calls.specs.declared.touch.CallClass.TheVariants.{OnLayer, OnLayers};
ghost use Rattle.lw_calls.specs.Touches.{class_of};
ghost use Rattle.lw_engine_trait.specs.Memory.{takes_memory};
ghost use Rattle.lw_machine.specs.Layer.{may_open};
ghost use Rattle.lw_layer.specs.View as view;
ghost use Rattle.lw_layer.specs.View.{hooked};
ghost use Rattle.lw_layer.specs.StandsFor.{slot_of};
ghost use Rattle.lw_layer.specs.Windows.{without_room, HasRoom};
ghost use Rattle.lw_layer_calls.specs.Parts.{IsLayerStep, IsPairStep};
ghost use Rattle.lw_engine.specs.Slots.{hook_in};
ghost use Rattle.lw_engine.specs.Desks.{unopened_cell};
ghost use Rattle.lw_engine.specs.Owners.{AreStripsOf};

use lw_backfill::Backfill;
use lw_calls::{Assets, Call, Reply};
use lw_layer::Cell;
use lw_layer_calls::{Regs, on_layer, on_layers};
use lw_strips::Strip;
use std::alloc::{AllocError, Global};
use std::marker::Model;

/// A slot of the desk: its cell, and beside it the backfill hook of its layer, if it has one (the manual's Layers Library
/// chapter). Contracts see the cell with the hook on its layer. The cell is boxed, since slots are moved out of their locks and
/// back, and a cell is large.
#[derive(Drop)]
pub struct Slot<B: Backfill> {
    pub(crate) cell: Box<Cell>,
    pub(crate) held: Option<B>,
}

impl<B: Backfill> Model for Slot<B> {
    ghost use Rattle.std.specs.Prelude.{option_map};
    ghost use Rattle.lw_layer.specs.View.{CellView, hooked};

    ghost Value = { CellView };

    ghost view = { λ s. hooked (option_map B.hook s.held) s.cell.value };
}

impl<B: Backfill> Slot<B> {
    /// The slot of a layer that was not created so far. It fails only when out of memory.
    pub fn unopened(alloc: Global, slot: u32) -> Result<Slot<B>, AllocError>
        ensures { IfOk result (λ s. s ≡ unopened_cell slot) }
    {
        let cell = Box::new(alloc, Cell::unopened(slot))?;
        Ok(Slot { cell, held: None })
    }

    /// The slot's cell, which knows nothing of the hook.
    pub fn cell(&self) -> &Cell
        ensures { self.now ≡ hooked (hook_in self.now) result.now }
    {
        &*self.cell
    }

    /// The strips that the slot's layer shows on the screen, as `Layer::strips` lends them; a slot that isn't live has none.
    pub fn strips(&self) -> &[Strip]
        ensures { AreStripsOf self.now result.now }
    {
        match self.cell.layer() {
            Some(layer) => {
                // Reading them tells the proof that their list is canonical.
                let _ = layer.visible();
                layer.strips()
            }
            None => &[],
        }
    }

    // Whether a layer is live in the slot.
    pub(crate) fn is_live(&self) -> bool
        ensures { IsTrue result ↔ (self.now.state ≡ view.Live) }
    {
        self.cell.layer().is_some()
    }

    // Whether in this version a layer may be created in the slot.
    pub(crate) fn may_open(&self, version: u32) -> bool
        ensures { result ≡ may_open version (slot_of self.now.state self.now.live) }
    {
        self.cell.may_open(version)
    }

    // The layer has this hook from now on, or none. Its former one is dropped.
    pub(crate) fn install(&mut self, hook: Option<B>)
        ensures { self.new ≡ hooked (option_map B.hook hook) self.old }
    {
        self.held = hook;
    }

    /// Makes one call on the slot's layer, as `on_layer` does.
    pub fn on_layer(
        &mut self,
        alloc: Global,
        regs: &Regs,
        assets: &Assets,
        task: u32,
        call: &Call,
    ) -> Result<Reply, AllocError>
        requires class { class_of call.now ≡ OnLayer self.old.number }
        requires fits { (sizes : Sizes) × IsTrue (call_fits sizes call.now) }
        ensures step { IfOk result (λ r. IsLayerStep task self.old regs.now assets.now call.now r self.new) }
        ensures number { self.new.number ≡ self.old.number }
        ensures unchanged { OnErr result (self.new ≡ self.old) }
        ensures memory { takes_memory call.now ≡ false → IsOk result }
    {
        on_layer(alloc, &mut *self.cell, regs, assets, task, call)
    }

    // Reserves room in the port of a window for as many messages as it may be due after an arrangement. It changes nothing else.
    pub(crate) fn reserve(&mut self, alloc: Global) -> Result<(), AllocError>
        ensures cell { without_room self.new ≡ without_room self.old }
        ensures room { OnOk result (HasRoom 5 self.new) }
    {
        self.cell.reserve(alloc, 5)
    }

    /// Makes one call on this slot's layer and another one's, of which the latter is only read, as `on_layers` does.
    pub fn with_source(&mut self, source: &Slot<B>, call: &Call) -> Reply
        requires class { class_of call.now ≡ OnLayers source.now.number self.old.number }
        requires fits { (sizes : Sizes) × IsTrue (call_fits sizes call.now) }
        ensures step { IsPairStep source.now self.old call.now result self.new }
        ensures number { self.new.number ≡ self.old.number }
    {
        on_layers(&*source.cell, &mut *self.cell, call)
    }
}

// A slot may go to another thread where its hook may: the bounds ask for the proofs.
fn cross_threads<B: Backfill + Send>() {
    crosses::<Slot<B>>();
}

fn crosses<T: Send>() {}
