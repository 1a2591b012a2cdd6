// The parts of a desk with no lock, and a call on them by its class.

ghost use Rattle.std.specs.Prelude.{◌≡◌, ℕ, ◌<◌, false, length, Some, IsOk, IfOk, OnErr, IsTrue};
ghost use Rattle.std.specs.List.{slice_get};
ghost use Rattle.lw_calls.specs.Limits.{call_fits};
ghost use Rattle.lw_calls.specs.declared.touch.CallClass.TheVariants.{OnRegisters, OnInfo, OnLayer, OnLayers, OnAll};
ghost use Rattle.lw_calls.specs.Touches.{class_of};
ghost use Rattle.lw_machine.specs.Desk.{Desk};
ghost use Rattle.lw_engine_trait.specs.Memory.{takes_memory};
ghost use Rattle.lw_engine_trait.specs.Steps.{AreParts};
ghost use Rattle.lw_runs.specs.Standing.{StandForDesk, IsStep, StandStill, AreNumbered, IsSetTo, IsTwoDone};

use lw_calls::{Call, CallClass, Reply, class_of};
use lw_engine_trait::Engine;
use std::alloc::{AllocError, Global};

/// The parts of a desk that an engine's calls are lent: LayerInfo, the cells of all slots, and the registers of
/// each task.
#[derive(Drop)]
pub struct Parts<E: Engine> {
    pub info: E::Info,
    /// In rising number.
    pub cells: Vec<E::Cell>,
    /// By task.
    pub registers: Vec<E::Regs>,
}

impl<E: Engine> Parts<E> {
    /// Makes one call of a task and gives its reply, as the machine's step says of every desk for which the parts stand. The call has
    /// to fit the engine's sizes. A call that takes no memory can't fail. Any other fails only when out of memory, and the parts then
    /// stand for the same desks as before.
    pub fn step(
        &mut self,
        engine: &E,
        alloc: Global,
        task: u32,
        call: &Call,
    ) -> Result<Reply, AllocError>
        requires fits { IsTrue (call_fits (E.sizes engine.now) call.now) }
        requires task { task < (E.sizes engine.now).tasks }
        requires desk { (d : Desk) × StandForDesk E.relations (E.sizes engine.now) (E.assets engine.now)
            self.old.info self.old.cells.items self.old.registers.items d }
        ensures step { IfOk result (λ r. IsStep E.relations (E.sizes engine.now) (E.assets engine.now)
            self.old.info self.old.cells.items self.old.registers.items task call.now r
            self.new.info self.new.cells.items self.new.registers.items) }
        ensures unchanged { OnErr result (StandStill E.relations (E.sizes engine.now) (E.assets engine.now)
            self.old.info self.old.cells.items self.old.registers.items
            self.new.info self.new.cells.items self.new.registers.items) }
        ensures memory { takes_memory call.now ≡ false → IsOk result }
    {
        match class_of(call) {
            CallClass::OnRegisters => self.on_registers(engine, alloc, task, call),
            CallClass::OnInfo => Ok(engine.look(&self.info, call)),
            CallClass::OnLayer(slot) => self.on_layer(engine, alloc, task, slot, call),
            CallClass::OnLayers(source, slot) => Ok(self.on_layers(engine, source, slot, call)),
            CallClass::OnAll => self.on_all(engine, alloc, task, call),
        }
    }

    // A call on the registers of its task.
    fn on_registers(
        &mut self,
        engine: &E,
        alloc: Global,
        task: u32,
        call: &Call,
    ) -> Result<Reply, AllocError>
        requires class { class_of call.now ≡ OnRegisters }
        requires fits { IsTrue (call_fits (E.sizes engine.now) call.now) }
        requires task { task < length self.old.registers.items }
        ensures step { IfOk result (λ r. IsStep E.relations (E.sizes engine.now) (E.assets engine.now)
            self.old.info self.old.cells.items self.old.registers.items task call.now r
            self.new.info self.new.cells.items self.new.registers.items) }
        ensures unchanged { OnErr result (StandStill E.relations (E.sizes engine.now) (E.assets engine.now)
            self.old.info self.old.cells.items self.old.registers.items
            self.new.info self.new.cells.items self.new.registers.items) }
        ensures memory { takes_memory call.now ≡ false → IsOk result }
    {
        engine.regs(alloc, &mut self.registers[task as usize], call)
    }

    // A call on one layer.
    fn on_layer(
        &mut self,
        engine: &E,
        alloc: Global,
        task: u32,
        slot: u32,
        call: &Call,
    ) -> Result<Reply, AllocError>
        requires class { class_of call.now ≡ OnLayer slot }
        requires fits { IsTrue (call_fits (E.sizes engine.now) call.now) }
        requires slot { slot < length self.old.cells.items }
        requires task { task < length self.old.registers.items }
        requires numbers { AreNumbered E.relations self.old.cells.items }
        ensures step { IfOk result (λ r. IsStep E.relations (E.sizes engine.now) (E.assets engine.now)
            self.old.info self.old.cells.items self.old.registers.items task call.now r
            self.new.info self.new.cells.items self.new.registers.items) }
        ensures unchanged { OnErr result (StandStill E.relations (E.sizes engine.now) (E.assets engine.now)
            self.old.info self.old.cells.items self.old.registers.items
            self.new.info self.new.cells.items self.new.registers.items) }
        ensures memory { takes_memory call.now ≡ false → IsOk result }
    {
        let held = &self.registers[task as usize];
        engine.one(alloc, &mut self.cells[slot as usize], held, task, call)
    }

    // A call on two layers.
    fn on_layers(&mut self, engine: &E, source: u32, slot: u32, call: &Call) -> Reply
        requires class { class_of call.now ≡ OnLayers source slot }
        requires fits { IsTrue (call_fits (E.sizes engine.now) call.now) }
        requires source { source < length self.old.cells.items }
        requires slot { slot < length self.old.cells.items }
        requires numbers { AreNumbered E.relations self.old.cells.items }
        ensures { (task : ℕ) → IsStep E.relations (E.sizes engine.now) (E.assets engine.now)
            self.old.info self.old.cells.items self.old.registers.items task call.now result
            self.new.info self.new.cells.items self.new.registers.items }
    {
        on_two(engine, self.cells.as_mut_slice(), source, slot, call)
    }

    // A call on all layers.
    fn on_all(
        &mut self,
        engine: &E,
        alloc: Global,
        task: u32,
        call: &Call,
    ) -> Result<Reply, AllocError>
        requires class { class_of call.now ≡ OnAll }
        requires fits { IsTrue (call_fits (E.sizes engine.now) call.now) }
        requires desk { (d : Desk) × AreParts E.relations (E.sizes engine.now) (E.assets engine.now)
            self.old.info self.old.cells.items d }
        ensures step { IfOk result (λ r. IsStep E.relations (E.sizes engine.now) (E.assets engine.now)
            self.old.info self.old.cells.items self.old.registers.items task call.now r
            self.new.info self.new.cells.items self.new.registers.items) }
        ensures unchanged { OnErr result (StandStill E.relations (E.sizes engine.now) (E.assets engine.now)
            self.old.info self.old.cells.items self.old.registers.items
            self.new.info self.new.cells.items self.new.registers.items) }
        ensures memory { takes_memory call.now ≡ false → IsOk result }
    {
        engine.all(alloc, &mut self.info, self.cells.as_mut_slice(), task, call)
    }
}

// Makes a call on two of all cells, of which it reads the first alone.
fn on_two<E: Engine>(
    engine: &E,
    cells: &mut [E::Cell],
    source: u32,
    slot: u32,
    call: &Call,
) -> Reply
    requires class { class_of call.now ≡ OnLayers source slot }
    requires fits { IsTrue (call_fits (E.sizes engine.now) call.now) }
    requires source { source < length cells.old }
    requires slot { slot < length cells.old }
    requires numbers { AreNumbered E.relations cells.old }
    ensures { (a b : _) → slice_get cells.old source ≡ Some a → slice_get cells.old slot ≡ Some b →
        IsSetTo (IsTwoDone E.relations (E.sizes engine.now) (E.assets engine.now) a b call.now result) slot
        cells.old cells.new }
{
    let source = source as usize;
    let slot = slot as usize;
    if source < slot {
        let (front, back) = cells.split_at_mut(slot);
        engine.two(&front[source], &mut back[0], call)
    } else {
        let (front, back) = cells.split_at_mut(source);
        engine.two(&back[0], &mut front[slot], call)
    }
}
