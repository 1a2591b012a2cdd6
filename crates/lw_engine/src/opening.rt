// The parts of a desk before its first call.

ghost use Rattle.std.specs.Prelude.{◌≡◌, [], map, replicate, IfOk};
ghost use Rattle.std.specs.List.{range_with_len};
ghost use Rattle.lw_engine.specs.Desks.{unopened_cell};

use crate::layer_info::LayerInfo;
use crate::slot::Slot;
use lw_backfill::Backfill;
use lw_layer_calls::Regs;
use std::alloc::{AllocError, Global};

/// The parts of a desk before its first call.
#[derive(Drop)]
pub struct Opened<B: Backfill> {
    pub info: LayerInfo<B>,
    /// In rising number.
    pub slots: Vec<Slot<B>>,
    /// By task.
    pub registers: Vec<Regs>,
}

// So many slots, of which none was opened.
pub(crate) fn unopened_slots<B: Backfill>(
    alloc: Global,
    count: u32,
) -> Result<Vec<Slot<B>>, AllocError>
    ensures { IfOk result (λ v. v.items ≡ map unopened_cell (range_with_len 0 count)) }
{
    let mut slots = Vec::with_capacity(alloc, count as usize)?;
    for slot in 0..count {
        slots.push(Slot::unopened(alloc, slot)?)?;
    }
    Ok(slots)
}

// Empty registers for so many tasks.
pub(crate) fn empty_registers(alloc: Global, count: u32) -> Result<Vec<Regs>, AllocError>
    ensures { IfOk result (λ v. v.items ≡ replicate count (replicate 8 [])) }
{
    let mut registers = Vec::with_capacity(alloc, count as usize)?;
    for _task in 0..count {
        registers.push(Regs::new(alloc))?;
    }
    Ok(registers)
}
