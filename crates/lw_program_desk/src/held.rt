// The parts of a desk, handed over for a call and back.

ghost use Rattle.std.specs.Prelude.{◌≡◌, false, IsTrue, IsOk, IfOk, OnErr};
ghost use Rattle.lw_calls.specs.Limits.{call_fits};
ghost use Rattle.lw_machine.specs.Desk.{Desk};
ghost use Rattle.lw_engine_trait.specs.Memory.{takes_memory};
ghost use Rattle.lw_runs.specs.Standing.{StandForDesk, IsStep, StandStill};
ghost use Rattle.lw_program_desk.specs.Views.{PartsView};

use crate::tiles::Tiles;
use lw_calls::{Call, Reply};
use lw_engine::{LayerInfo, Slot};
use lw_engine_trait::Engine;
use lw_layer_calls::Regs;
use lw_runs::Parts;
use std::alloc::{AllocError, Global};
use std::marker::Model;

// LayerInfo, the slots in rising number, and the registers of the one task.
#[derive(Drop)]
pub(crate) struct Held {
    pub(crate) info: LayerInfo<Tiles>,
    pub(crate) cells: Vec<Slot<Tiles>>,
    pub(crate) registers: Vec<Regs>,
}

impl Model for Held {
    ghost use Rattle.lw_program_desk.specs.Views.{PartsView};

    ghost Value = { PartsView };

    ghost view = { λ h. record { info = h.info; cells = h.cells.items; registers = h.registers.items } };
}

impl Held {
    pub(crate) fn info(&self) -> &LayerInfo<Tiles>
        ensures { result.now ≡ self.now.info }
    {
        &self.info
    }

    pub(crate) fn cells(&self) -> &[Slot<Tiles>]
        ensures { result.now ≡ self.now.cells }
    {
        self.cells.as_slice()
    }
}

// What a call leaves: the parts, and the reply, or that memory ran out.
#[derive(Drop)]
pub(crate) struct AfterStep<E: Engine> {
    pub(crate) parts: Parts<E>,
    pub(crate) told: Result<Reply, AllocError>,
}

// Makes a call on parts that are handed over.
pub(crate) fn make_step<E: Engine>(
    alloc: Global,
    engine: &E,
    parts: Parts<E>,
    call: &Call,
) -> AfterStep<E>
    requires fits { IsTrue (call_fits (E.sizes engine.now) call.now) }
    requires task { (E.sizes engine.now).tasks ≡ 1 }
    requires desk { (d : Desk) × StandForDesk E.relations (E.sizes engine.now) (E.assets engine.now)
        parts.info parts.cells.items parts.registers.items d }
    ensures step { IfOk result.told (λ r. IsStep E.relations (E.sizes engine.now) (E.assets engine.now)
        parts.info parts.cells.items parts.registers.items 0 call.now r
        result.parts.info result.parts.cells.items result.parts.registers.items) }
    ensures unchanged { OnErr result.told (StandStill E.relations (E.sizes engine.now) (E.assets engine.now)
        parts.info parts.cells.items parts.registers.items
        result.parts.info result.parts.cells.items result.parts.registers.items) }
    ensures memory { takes_memory call.now ≡ false → IsOk result.told }
{
    let mut parts = parts;
    let told = parts.step(engine, alloc, 0, call);
    AfterStep { parts, told }
}
