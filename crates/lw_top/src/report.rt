ghost use Rattle.std.specs.Prelude.{◌≡◌, ℕ, List, map, true, IfOk};
ghost use Rattle.lw_calls.specs.Orders.{is_legal};
ghost use Rattle.lw_machine.specs.Finals.{run_final};
ghost use Rattle.lw_machine.specs.Report.{run_report};
ghost use Rattle.lw_ilbm.specs.Pictures.{encoded};
ghost use Rattle.lw_top.specs.Commands.{output_of};

use crate::words::Output;
use lw_backfill::Backfill;
use lw_calls::{OrderList, Plan};
use lw_ilbm::encode;
use lw_locks::Gate;
use lw_report::write;
use lw_tasks::{replay, run_tasks};
use std::alloc::{AllocError, Global};
use std::sync::Wait;
use std::thread::Threads;

/// The report of the machine's run of a plan with these hooks, in the order in which its tasks, each on a thread, made its calls.
pub fn report_of_tasks<B: Backfill + Send, R: Threads + Wait + Sync, G: Gate + Sync>(
    rt: &R,
    alloc: Global,
    plan: &Plan,
    hooks: Vec<B>,
    gate: &G,
) -> Result<Vec<u8>, AllocError>
    ensures { IfOk result (λ text. (order : List ℕ) × (is_legal plan.now order ≡ true)
        × (text.items ≡ run_report plan.now (map B.hook hooks.items) order)) }
{
    let run = run_tasks(rt, alloc, plan, hooks, gate)?;
    write(alloc, plan, &run.last, &run.order)
}

/// The report of the machine's run of a plan in a legal order, with these hooks.
pub fn report_of<B: Backfill + Send>(
    alloc: Global,
    plan: &Plan,
    hooks: Vec<B>,
    order: &OrderList,
) -> Result<Vec<u8>, AllocError>
    requires legal { is_legal plan.now order.now ≡ true }
    ensures { IfOk result (λ text. text.items ≡ run_report plan.now (map B.hook hooks.items) order.now) }
{
    let last = replay(alloc, plan, hooks, order)?;
    write(alloc, plan, &last, order)
}

/// The screen that the machine's run of a plan in a legal order leaves, with these hooks, as an ILBM file.
fn file_of<B: Backfill + Send>(
    alloc: Global,
    plan: &Plan,
    hooks: Vec<B>,
    order: &OrderList,
) -> Result<Vec<u8>, AllocError>
    requires legal { is_legal plan.now order.now ≡ true }
    ensures { IfOk result (λ file. file.items ≡ encoded (run_final plan.now (map B.hook hooks.items) order.now).planes) }
{
    let last = replay(alloc, plan, hooks, order)?;
    encode(alloc, &last.planes)
}

/// What is written of the machine's run of a plan in a legal order, with these hooks.
pub fn output_of<B: Backfill + Send>(
    alloc: Global,
    output: Output,
    plan: &Plan,
    hooks: Vec<B>,
    order: &OrderList,
) -> Result<Vec<u8>, AllocError>
    requires legal { is_legal plan.now order.now ≡ true }
    ensures { IfOk result (λ text. text.items ≡ output_of output plan.now (map B.hook hooks.items) order.now) }
{
    match output {
        Output::Report => report_of(alloc, plan, hooks, order),
        Output::Picture => file_of(alloc, plan, hooks, order),
    }
}
