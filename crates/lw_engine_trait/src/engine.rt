ghost use Rattle.std.specs.Prelude.{◌≡◌, false, IsOk, IfOk, OnErr, IsTrue};
ghost use Rattle.lw_calls.specs.Assets.{Assets};
ghost use Rattle.lw_calls.specs.declared.sizes.Sizes.{Sizes};
ghost use Rattle.lw_calls.specs.Limits.{call_fits};
ghost use Rattle.lw_calls.specs.declared.touch.CallClass.TheVariants.{OnRegisters, OnInfo, OnLayer, OnLayers, OnAll};
ghost use Rattle.lw_calls.specs.Touches.{class_of};
ghost use Rattle.lw_machine.specs.Desk.{Desk};
ghost use Rattle.lw_engine_trait.specs.Memory.{takes_memory};
ghost use Rattle.lw_engine_trait.specs.Steps.{Relations, IsRegsStep, IsLookStep, IsOneStep, IsTwoStep, AreParts, IsAllStep};
ghost use Rattle.lw_engine_trait.specs.Steps.{AreStill};

use lw_calls::{Call, Reply};
use std::alloc::{AllocError, Global};

/// The step of the machine, by the classes of calls. An engine says which values stand for a task's registers,
/// for a slot and for LayerInfo; each of its functions is lent the values that a call of its class touches, and makes the
/// machine's step of them in every sound desk for whose parts they stand, with the engine's sizes, and to which its assets were
/// handed in. It takes no lock and returns. It fails only when out of memory, which a call that takes none never is, and the
/// values are then as before; those of all slots stand for the desks that they stood for.
pub trait Engine: Drop + Sync {
    /// What LayerInfo keeps.
    type Info: Drop + Send;
    /// A slot.
    type Cell: Drop + Send;
    /// A task's registers.
    type Regs: Drop + Send;

    ghost sizes: { Self → Sizes };

    ghost assets: { Self → Assets };
    // Which values stand for which parts.
    ghost relations: { Relations Self.Info Self.Cell Self.Regs };

    /// Makes a call on the registers of its task.
    fn regs(&self, alloc: Global, regs: &mut Self::Regs, call: &Call) -> Result<Reply, AllocError>
        requires class { class_of call.now ≡ OnRegisters }
        requires fits { IsTrue (call_fits (sizes self.now) call.now) }
        ensures step { IfOk result (λ r. IsRegsStep relations (sizes self.now) (assets self.now) regs.old call.now r regs.new) }
        ensures unchanged { OnErr result (regs.new ≡ regs.old) }
        ensures memory { takes_memory call.now ≡ false → IsOk result };

    /// Makes a call that looks at LayerInfo.
    fn look(&self, info: &Self::Info, call: &Call) -> Reply
        requires class { class_of call.now ≡ OnInfo }
        requires fits { IsTrue (call_fits (sizes self.now) call.now) }
        ensures step { IsLookStep relations (sizes self.now) (assets self.now) info.now call.now result };

    /// Makes a call of a task with these registers on the layer of a slot.
    fn one(
        &self,
        alloc: Global,
        cell: &mut Self::Cell,
        regs: &Self::Regs,
        task: u32,
        call: &Call,
    ) -> Result<Reply, AllocError>
        requires class { class_of call.now ≡ OnLayer (relations.number cell.old) }
        requires fits { IsTrue (call_fits (sizes self.now) call.now) }
        ensures step { IfOk result (λ r.
            IsOneStep relations (sizes self.now) (assets self.now) cell.old regs.now task call.now r cell.new) }
        ensures number { relations.number cell.new ≡ relations.number cell.old }
        ensures unchanged { OnErr result (cell.new ≡ cell.old) }
        ensures memory { takes_memory call.now ≡ false → IsOk result };

    /// Makes a call on the layers of two slots, of which it reads the first alone. It takes no memory.
    fn two(&self, source: &Self::Cell, to: &mut Self::Cell, call: &Call) -> Reply
        requires class { class_of call.now ≡ OnLayers (relations.number source.now) (relations.number to.old) }
        requires fits { IsTrue (call_fits (sizes self.now) call.now) }
        ensures step { IsTwoStep relations (sizes self.now) (assets self.now) source.now to.old call.now result to.new }
        ensures number { relations.number to.new ≡ relations.number to.old };

    /// Makes a call on the layers of all slots, whose cells are given in rising number. After it ran out of memory the parts
    /// stand for the same desks as before. They need not be the same values: room that was made in a cell before another cell's
    /// ran out may stay, and no desk tells of room. An engine's own function may say more, as that all is as before but for such
    /// room.
    fn all(
        &self,
        alloc: Global,
        info: &mut Self::Info,
        cells: &mut [Self::Cell],
        task: u32,
        call: &Call,
    ) -> Result<Reply, AllocError>
        requires class { class_of call.now ≡ OnAll }
        requires fits { IsTrue (call_fits (sizes self.now) call.now) }
        requires desk { (d : Desk) × AreParts relations (sizes self.now) (assets self.now) info.old cells.old d }
        ensures step { IfOk result (λ r.
            IsAllStep relations (sizes self.now) (assets self.now) info.old cells.old task call.now r info.new cells.new) }
        ensures unchanged { OnErr result
            (AreStill relations (sizes self.now) (assets self.now) info.old cells.old info.new cells.new) }
        ensures memory { takes_memory call.now ≡ false → IsOk result };
}
