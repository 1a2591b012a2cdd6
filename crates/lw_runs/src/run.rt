ghost use Rattle.std.specs.Prelude.{◌≡◌, ℕ, ◌<◌, ◌++◌, [], List, length, replicate, true, IsTrue, IfOk, OnOk, Some};
ghost use Rattle.std.specs.List.{slice_index_or, slice_get};
ghost use Rattle.lw_calls.specs.declared.entry.Entry.{Entry};
ghost use Rattle.lw_calls.specs.declared.reply.Reply.{Reply as AnyReply};
ghost use Rattle.lw_calls.specs.Limits.{call_fits};
ghost use Rattle.lw_calls.specs.Plan.{IsPlan, task_calls};
ghost use Rattle.lw_calls.specs.Orders.{keeps_groups};
ghost use Rattle.lw_calls.specs.Entries.{entries};
ghost use Rattle.lw_machine.specs.Desk.{Desk};
ghost use Rattle.lw_machine.specs.Finals.{opening_desk};
ghost use Rattle.lw_machine.specs.Hook.{Hook};
ghost use Rattle.lw_runs.specs.Run.{HasRun, next_of};
ghost use Rattle.lw_runs.specs.Standing.{StandForDesk};

use crate::parts::Parts;
use lw_calls::{Call, Plan, Replies};
use lw_engine_trait::Engine;
use std::alloc::{AllocError, Global};

/// The run of a plan on these parts in an order of its tasks: each number makes its task's next call. It fails only when out of
/// memory.
pub fn run_in_order<E: Engine>(
    alloc: Global,
    engine: &E,
    plan: &Plan,
    parts: Parts<E>,
    tasks: &[u32],
) -> Result<Run<E>, AllocError>
    requires sizes { E.sizes engine.now ≡ plan.now.sizes }
    requires plan { IsPlan plan.now }
    requires legal { keeps_groups plan.now [] tasks.now ≡ true }
    requires opened { (hooks : List Hook) × StandForDesk E.relations (E.sizes engine.now) (E.assets engine.now)
        parts.info parts.cells.items parts.registers.items (opening_desk plan.now hooks) }
    ensures { IfOk result (λ run. (hooks : List Hook)
        → StandForDesk E.relations (E.sizes engine.now) (E.assets engine.now)
        parts.info parts.cells.items parts.registers.items (opening_desk plan.now hooks)
        → HasRun plan.now hooks (entries plan.now [] tasks.now)
        (StandForDesk E.relations (E.sizes engine.now) (E.assets engine.now)
        run.parts.info run.parts.cells.items run.parts.registers.items) run.told.items) }
{
    let told = no_replies(alloc, plan.sizes().tasks)?;
    let mut run = Run { parts, told };
    run.make_all(alloc, engine, plan, tasks)?;
    Ok(run)
}

/// A run under way: the parts of the desk, and each task's replies so far. So many replies as a task had, so many calls it made.
#[derive(Drop)]
pub struct Run<E: Engine> {
    pub parts: Parts<E>,
    pub told: Vec<Replies>,
}

impl<E: Engine> Run<E> {
    /// Makes the calls that the numbers stand for, one after another.
    fn make_all(
        &mut self,
        alloc: Global,
        engine: &E,
        plan: &Plan,
        tasks: &[u32],
    ) -> Result<(), AllocError>
        requires sizes { E.sizes engine.now ≡ plan.now.sizes }
        requires plan { IsPlan plan.now }
        requires legal { keeps_groups plan.now [] tasks.now ≡ true }
        requires opened { (hooks : List Hook) × HasRun plan.now hooks []
            (StandForDesk E.relations (E.sizes engine.now) (E.assets engine.now)
            self.old.parts.info self.old.parts.cells.items self.old.parts.registers.items) self.old.told.items }
        ensures { OnOk result ((hooks : List Hook) → HasRun plan.now hooks []
            (StandForDesk E.relations (E.sizes engine.now) (E.assets engine.now)
            self.old.parts.info self.old.parts.cells.items self.old.parts.registers.items) self.old.told.items
            → HasRun plan.now hooks (entries plan.now [] tasks.now)
            (StandForDesk E.relations (E.sizes engine.now) (E.assets engine.now)
            self.new.parts.info self.new.parts.cells.items self.new.parts.registers.items) self.new.told.items) }
    {
        for task in tasks {
            self.make_next(alloc, engine, plan, *task)?;
        }
        Ok(())
    }

    /// Makes the next call of a task, which has one left.
    fn make_next(
        &mut self,
        alloc: Global,
        engine: &E,
        plan: &Plan,
        task: u32,
    ) -> Result<(), AllocError>
        requires sizes { E.sizes engine.now ≡ plan.now.sizes }
        requires plan { IsPlan plan.now }
        requires task { task < plan.now.sizes.tasks }
        requires lists { length self.old.told.items ≡ plan.now.sizes.tasks }
        requires left { length (slice_index_or self.old.told.items task []) < length (task_calls plan.now task) }
        requires desk { (d : Desk) × StandForDesk E.relations (E.sizes engine.now) (E.assets engine.now)
            self.old.parts.info self.old.parts.cells.items self.old.parts.registers.items d }
        ensures { OnOk result ((hooks : List Hook) (past : List Entry) → HasRun plan.now hooks past
            (StandForDesk E.relations (E.sizes engine.now) (E.assets engine.now)
            self.old.parts.info self.old.parts.cells.items self.old.parts.registers.items) self.old.told.items
            → HasRun plan.now hooks (past ++ next_of plan.now past task)
            (StandForDesk E.relations (E.sizes engine.now) (E.assets engine.now)
            self.new.parts.info self.new.parts.cells.items self.new.parts.registers.items) self.new.told.items) }
    {
        let told = &mut self.told[task as usize];
        let call = call_of(plan, task, told.list().len());
        let reply = self.parts.step(engine, alloc, task, call)?;
        told.push(reply)
    }
}

/// The call of a task that is its call `made`.
pub(crate) fn call_of(plan: &Plan, task: u32, made: usize) -> &Call
    requires plan { IsPlan plan.now }
    requires task { task < plan.now.sizes.tasks }
    requires left { made < length (task_calls plan.now task) }
    ensures call { slice_get (task_calls plan.now task) made ≡ Some result.now }
    ensures fits { IsTrue (call_fits plan.now.sizes result.now) }
{
    &plan.calls(task)[made]
}

/// No reply yet, for each of so many tasks.
fn no_replies(alloc: Global, count: u32) -> Result<Vec<Replies>, AllocError>
    ensures { IfOk result (λ told. told.items ≡ replicate count []) }
{
    let mut told = Vec::new(alloc);
    for _task in 0..count {
        told.push(Replies::new(Vec::new(alloc)))?;
    }
    Ok(told)
}
