// A plan's run on threads.

ghost use Rattle.std.specs.Prelude.{◌≡◌, [], map, true, IfOk};
ghost use Rattle.lw_calls.specs.Entries.{entries};
ghost use Rattle.lw_calls.specs.Orders.{is_legal};
ghost use Rattle.lw_machine.specs.Finals.{run_final, opening_desk};
ghost use Rattle.lw_order.specs.Roles.{all_roles};
ghost use Rattle.lw_runs.specs.Whole.{order_of};

use lw_backfill::Backfill;
use lw_calls::{Final, OrderList, Plan, Replies};
use lw_engine::LayerEngine;
use lw_engine_trait::Engine;
use lw_locks::{Closed, Gate, Opening};
use lw_order::{Order, Seat};
use lw_runs::{TaskAnswers, order_by, run_all};
use std::alloc::{AllocError, Global};
use std::marker::Brand;
use std::sync::Wait;
use std::thread::Threads;

/// What a run leaves: the final state, the order of its calls, and the seat that knows its history.
#[derive(Drop)]
pub struct Run {
    pub last: Final,
    pub order: OrderList,
    pub seat: Seat,
}

/// Runs a plan whose hooks lie on the shelf, each task on a thread of its own where one can be made. It may wait, and so promises
/// no return. The seat knows the history of all calls: each task's calls, once and in their order. It fails only when out of
/// memory, and no task still runs then.
pub fn run_tasks<B: Backfill + Send, R: Threads + Wait + Sync, G: Gate + Sync>(
    rt: &R,
    alloc: Global,
    plan: &Plan,
    hooks: Vec<B>,
    gate: &G,
) -> Result<Run, AllocError>
    ensures order { IfOk result (λ run. run.order ≡ order_of run.seat.history) }
    ensures history { IfOk result (λ run. entries plan.now [] run.order ≡ run.seat.history) }
    ensures legal { IfOk result (λ run. is_legal plan.now run.order ≡ true) }
    ensures last { IfOk result (λ run. run.last ≡ run_final plan.now (map B.hook hooks.items) run.order) }
{
    let (order, seat) = Order::start(alloc, plan.sizes())?;
    run_on::<B, Brand, R, G>(rt, alloc, gate, plan, hooks, order, seat)
}

// On a desk for which this order word was made.
fn run_on<B: Backfill + Send, N: Opening + Send + Sync, R: Threads + Wait + Sync, G: Gate + Sync>(
    rt: &R,
    alloc: Global,
    gate: &G,
    plan: &Plan,
    hooks: Vec<B>,
    order: Order,
    seat: Seat,
) -> Result<Run, AllocError>
    requires desk { N.desk ≡ opening_desk plan.now (map B.hook hooks.items) }
    requires word { order.word ≡ N.word }
    requires sizes { order.sizes ≡ plan.now.sizes }
    requires seat_word { seat.word ≡ N.word }
    requires history { seat.history ≡ [] }
    requires roles { seat.roles ≡ all_roles plan.now.sizes.slots plan.now.sizes.tasks }
    ensures order { IfOk result (λ run. run.order ≡ order_of run.seat.history) }
    ensures history { IfOk result (λ run. entries plan.now [] run.order ≡ run.seat.history) }
    ensures legal { IfOk result (λ run. is_legal plan.now run.order ≡ true) }
    ensures last { IfOk result (λ run. run.last ≡ run_final plan.now (map B.hook hooks.items) run.order) }
{
    let engine = LayerEngine::<B>::new(*plan.sizes(), plan.assets());
    let opened = engine.open(alloc, hooks)?;
    let (info, cells, regs) = (opened.info, opened.slots, opened.registers);
    let (closed, all) = run_all::<_, N, R, G>(
        rt, alloc, gate, plan, order, seat, engine, info, cells, regs,
    )?;
    let Closed {
        info,
        cells,
        seat,
        ..
    } = closed;
    let order = order_by(alloc, all.as_slice())?;
    let replies = replies_of(alloc, all)?;
    let engine = LayerEngine::<B>::new(*plan.sizes(), plan.assets());
    let last = engine.finish(alloc, &info, cells.as_slice(), replies)?;
    Ok(Run {
        last,
        order: OrderList::new(order),
        seat,
    })
}

// Each task's replies.
fn replies_of(alloc: Global, all: Vec<TaskAnswers>) -> Result<Vec<Replies>, AllocError>
    ensures { IfOk result (λ replies. replies.items ≡ map (λ told. told.replies) all.items) }
{
    let mut replies = Vec::new(alloc);
    for told in all {
        replies.push(told.replies)?;
    }
    Ok(replies)
}
