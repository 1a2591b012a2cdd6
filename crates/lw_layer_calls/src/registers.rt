ghost use Rattle.std.specs.Prelude.{◌≡◌, ℕ, ◌<◌, false, length, IsOk, IfOk, OnErr, IsTrue};
ghost use Rattle.lw_calls.specs.declared.sizes.Sizes.{Sizes};
ghost use Rattle.lw_calls.specs.declared.call.Call.TheVariants.{RegRect, RegPair, RegClear};
ghost use Rattle.lw_calls.specs.Limits.{call_fits};
ghost use Rattle.lw_calls.specs.declared.touch.CallClass.TheVariants.{OnRegisters};
ghost use Rattle.lw_calls.specs.Touches.{class_of};
ghost use Rattle.lw_machine.specs.Desk.{Desk};
ghost use Rattle.lw_machine.specs.Step.{after, reply};
ghost use Rattle.lw_engine_trait.specs.Memory.{takes_memory};
ghost use Rattle.lw_layer_calls.specs.Registers.{StandForRegisters};
ghost use Rattle.lw_layer_calls.specs.Parts.{IsRegistersStep};

use crate::regs::Regs;
use lw_calls::{Call, PairOp, RectOp, Reply};
use lw_region::Rect;
use std::alloc::{AllocError, Global};

/// Makes one call on the region registers of a task and gives its reply (OrRectRegion and its kin), as the machine's step
/// says of every desk whose registers these are. It fails only when out of memory, which ClearRegion takes none of, and the
/// registers are then as before.
pub fn on_registers(alloc: Global, regs: &mut Regs, call: &Call) -> Result<Reply, AllocError>
    requires class { class_of call.now ≡ OnRegisters }
    requires fits { (sizes : Sizes) × IsTrue (call_fits sizes call.now) }
    ensures step { IfOk result (λ r. (d : Desk) (task : ℕ) → StandForRegisters regs.old (d.registers task) →
        (r ≡ reply d task call.now) × StandForRegisters regs.new ((after d task call.now).registers task)) }
    ensures unchanged { OnErr result (regs.new ≡ regs.old) }
    ensures memory { takes_memory call.now ≡ false → IsOk result }
    ensures eight { length regs.new ≡ 8 }
{
    match *call {
        Call::RegRect { op, reg, rect } => join_rect(alloc, regs, op, reg, &rect),
        Call::RegPair { op, source, into } => join_pair(alloc, regs, op, source, into),
        Call::RegClear { reg } => Ok(clear(regs, reg)),
        // No other call is on the registers.
        _ => unreachable!(),
    }
}

// Joins a rectangle to a register, unless that would have too many rectangles.
fn join_rect(
    alloc: Global,
    regs: &mut Regs,
    op: RectOp,
    reg: u32,
    rect: &Rect,
) -> Result<Reply, AllocError>
    requires { reg < 8 }
    ensures step { IfOk result (λ r. IsRegistersStep regs.old (RegRect op reg rect.now) r regs.new) }
    ensures unchanged { OnErr result (regs.new ≡ regs.old) }
    ensures eight { length regs.new ≡ 8 }
{
    regs.join_rect(alloc, op, reg, rect)
}

// Joins the register `source` to the register `into`, unless that would have too many rectangles.
fn join_pair(
    alloc: Global,
    regs: &mut Regs,
    op: PairOp,
    source: u32,
    into: u32,
) -> Result<Reply, AllocError>
    requires source { source < 8 }
    requires into { into < 8 }
    ensures step { IfOk result (λ r. IsRegistersStep regs.old (RegPair op source into) r regs.new) }
    ensures unchanged { OnErr result (regs.new ≡ regs.old) }
    ensures eight { length regs.new ≡ 8 }
{
    regs.join_pair(alloc, op, source, into)
}

// Empties a register.
fn clear(regs: &mut Regs, reg: u32) -> Reply
    requires { reg < 8 }
    ensures step { IsRegistersStep regs.old (RegClear reg) result regs.new }
    ensures eight { length regs.new ≡ 8 }
{
    regs.clear(reg);
    Reply::Done
}
