// A plan's run on threads, over any engine.

ghost use Rattle.std.specs.Prelude.{◌≡◌, [], vec_len, IfOk};
ghost use Rattle.lw_calls.specs.Plan.{IsPlan};
ghost use Rattle.lw_machine.specs.Desk.{empty_desk};
ghost use Rattle.lw_machine.specs.Parts.{info_part};
ghost use Rattle.lw_order.specs.Roles.{all_roles};
ghost use Rattle.lw_engine_trait.specs.Steps.{AreCells};
ghost use Rattle.lw_locks.specs.Held.{AreTasksRegs};
ghost use Rattle.lw_runs.specs.Whole.{HaveRun};

use crate::answers::TaskAnswers;
use crate::threads::{parted, run_each};
use lw_calls::Plan;
use lw_engine_trait::Engine;
use lw_locks::{Closed, Desk, Gate, Opening};
use lw_order::{Order, Seat};
use std::alloc::{AllocError, Global};
use std::sync::Wait;
use std::thread::Threads;

/// Runs all tasks on a desk of these parts, each on a thread of its own where one can be made, and takes it apart. It may wait,
/// and so promises no return. It fails only when out of memory, and no task still runs then.
pub fn run_all<E: Engine, N: Opening + Send + Sync, R: Threads + Wait + Sync, G: Gate + Sync>(
    rt: &R,
    alloc: Global,
    gate: &G,
    plan: &Plan,
    order: Order,
    seat: Seat,
    engine: E,
    info: E::Info,
    cells: Vec<E::Cell>,
    regs: Vec<E::Regs>,
) -> Result<(Closed<E>, Vec<TaskAnswers>), AllocError>
    requires plan { IsPlan plan.now }
    requires desk_sizes { N.desk.sizes ≡ plan.now.sizes }
    requires word { order.word ≡ N.word }
    requires sizes { order.sizes ≡ N.desk.sizes }
    requires seat_word { seat.word ≡ N.word }
    requires history { seat.history ≡ [] }
    requires roles { seat.roles ≡ all_roles N.desk.sizes.slots N.desk.sizes.tasks }
    requires empty { N.desk ≡ empty_desk N.desk.sizes N.desk.assets N.desk.shelf }
    requires engine_sizes { E.sizes engine ≡ N.desk.sizes }
    requires engine_assets { E.assets engine ≡ N.desk.assets }
    requires info { E.relations.info_is N.desk.sizes info (info_part N.desk) }
    requires slots { vec_len cells ≡ N.desk.sizes.slots }
    requires cells { AreCells E.relations cells.items N.desk }
    requires tasks { vec_len regs ≡ N.desk.sizes.tasks }
    requires regs { AreTasksRegs E.relations regs.items N.desk }
    ensures { IfOk result (λ r. HaveRun E.relations N.desk plan.now r.0.info r.0.cells.items r.0.seat.history r.1.items) }
{
    let (desk, passes) = Desk::<E, N>::start(alloc, order, seat, engine, info, cells, regs)?;
    let runs = run_each(rt, alloc, gate, plan, &desk, passes)?;
    let (passes, all) = parted(alloc, runs)?;
    let Ok(closed) = desk.close(alloc, passes) else {
        return Err(AllocError);
    };
    Ok((closed, all))
}
