// Tasks on threads, each with its pass, on one desk.

ghost use Rattle.std.specs.Prelude.{◌≡◌, ℕ, ◌<◌, [], ◌∷◌, ◌++◌, map, Some, Ok, vec_len, IfOk, OnOk};
ghost use Rattle.std.specs.List.{slice_get, range_with_len};
ghost use Rattle.lw_calls.specs.Plan.{IsPlan};
ghost use Rattle.lw_locks.specs.Seen.{opening_pass};
ghost use Rattle.lw_runs.specs.Whole.{HasAll};

use crate::answers::TaskAnswers;
use crate::task::run_task;
use lw_calls::Plan;
use lw_engine_trait::Engine;
use lw_locks::{Desk, Gate, Opening, Pass};
use std::alloc::{AllocError, Global};
use std::sync::Wait;
use std::thread;
use std::thread::Threads;

/// A task's pass after its run, and what it was told.
#[derive(Drop)]
pub struct TaskRun<E: Engine, N: Opening> {
    pub pass: Pass<E, N>,
    pub told: Result<TaskAnswers, AllocError>,
}

/// Runs each task on a thread of its own where one can be made.
pub fn run_each<E: Engine, N: Opening + Send + Sync, R: Threads + Wait + Sync, G: Gate + Sync>(
    rt: &R,
    alloc: Global,
    gate: &G,
    plan: &Plan,
    desk: &Desk<E, N>,
    passes: Vec<Pass<E, N>>,
) -> Result<Vec<TaskRun<E, N>>, AllocError>
    requires plan { IsPlan plan.now }
    requires sizes { N.desk.sizes ≡ plan.now.sizes }
    requires passes { passes.items ≡ map opening_pass (range_with_len 0 plan.now.sizes.tasks) }
    ensures many { IfOk result (λ runs. vec_len runs ≡ plan.now.sizes.tasks) }
    ensures told { IfOk result (λ runs. (t : ℕ) (run : _) → slice_get runs.items t ≡ Some run
        → (run.pass.task ≡ t) × IfOk run.told (λ told. HasAll N.desk plan.now t run.pass.history told)) }
{
    let run = |mut pass: Pass<E, N>| -> TaskRun<E, N>
        requires plan { IsPlan plan.now }
        requires sizes { N.desk.sizes ≡ plan.now.sizes }
        requires task { pass.task < plan.now.sizes.tasks }
        requires first { pass.history ≡ [] }
        ensures task { result.pass.task ≡ pass.task }
        ensures told { IfOk result.told (λ told. HasAll N.desk plan.entry.now pass.task result.pass.history told) }
    {
        let told = run_task(desk, rt, alloc, gate, plan, &mut pass);
        TaskRun { pass, told }
    };
    let runs = thread::map_vec(rt, passes, &run)?;
    Ok(runs)
}

/// The passes of runs, and what their tasks were told. It fails where one of these, or this call, ran out of memory.
pub fn parted<E: Engine, N: Opening>(
    alloc: Global,
    runs: Vec<TaskRun<E, N>>,
) -> Result<(Vec<Pass<E, N>>, Vec<TaskAnswers>), AllocError>
    ensures passes { IfOk result (λ r. r.0.items ≡ map (λ run. run.pass) runs.items) }
    ensures told { IfOk result (λ r. map (λ told. Ok told) r.1.items ≡ map (λ run. run.told) runs.items) }
{
    let mut passes = Vec::new(alloc);
    let mut all = Vec::new(alloc);
    for run in runs {
        run.part(&mut passes, &mut all)?;
    }
    Ok((passes, all))
}

impl<E: Engine, N: Opening> TaskRun<E, N> {
    fn part(
        self,
        passes: &mut Vec<Pass<E, N>>,
        all: &mut Vec<TaskAnswers>,
    ) -> Result<(), AllocError>
        ensures passes { OnOk result (passes.new.items ≡ passes.old.items ++ self.pass ∷ []) }
        ensures told { OnOk result (map (λ told. Ok told) all.new.items ≡ map (λ told. Ok told) all.old.items ++ self.told ∷ []) }
    {
        let TaskRun { pass, told } = self;
        all.push(told?)?;
        passes.push(pass)?;
        Ok(())
    }
}
