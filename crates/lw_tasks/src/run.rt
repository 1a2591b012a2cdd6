ghost use Rattle.std.specs.Prelude.{◌≡◌, map, true, IfOk};
ghost use Rattle.lw_calls.specs.Orders.{is_legal};
ghost use Rattle.lw_machine.specs.Finals.{run_final};

use lw_backfill::Backfill;
use lw_calls::{Final, OrderList, Plan};
use lw_engine::LayerEngine;
use lw_engine_trait::Engine;
use lw_runs::{Parts, Run, run_in_order};
use std::alloc::{AllocError, Global};

/// The final state of the machine's run of a plan in a legal order, several tasks included, where these hooks lie on the shelf:
/// each number makes its task's next call on the desk. It takes no lock and returns.
pub fn replay<B: Backfill + Send>(
    alloc: Global,
    plan: &Plan,
    hooks: Vec<B>,
    order: &OrderList,
) -> Result<Final, AllocError>
    requires legal { is_legal plan.now order.now ≡ true }
    ensures { IfOk result (λ last. last ≡ run_final plan.now (map B.hook hooks.items) order.now) }
{
    let engine = LayerEngine::<B>::new(*plan.sizes(), plan.assets());
    let opened = engine.open(alloc, hooks)?;
    let parts = Parts {
        info: opened.info,
        cells: opened.slots,
        registers: opened.registers,
    };
    let Run { parts, told } = run_in_order(alloc, &engine, plan, parts, order.tasks())?;
    let Parts { info, cells, .. } = parts;
    engine.finish(alloc, &info, cells.as_slice(), told)
}
