// A task's calls, made through its pass.

ghost use Rattle.std.specs.Prelude.{◌≡◌, ℕ, ◌+◌, ◌<◌, ◌≤◌, [], ◌∷◌, length, IfOk, OnOk, IsTrue};
ghost use Rattle.lw_calls.specs.declared.touch.Role.TheVariants.{Task};
ghost use Rattle.lw_calls.specs.Entries.{count_of};
ghost use Rattle.lw_calls.specs.Limits.{call_fits};
ghost use Rattle.lw_calls.specs.Plan.{IsPlan, task_calls, task_groups};
ghost use Rattle.lw_locks.specs.Promised.{Done};
ghost use Rattle.lw_runs.specs.Whole.{HasAll};
ghost use Rattle.lw_runs.specs.Made.{HasBegun, IsFree, IsNext};

use crate::answers::TaskAnswers;
use crate::run::call_of;
use lw_calls::{Call, CallClass, Group, Plan, class_of};
use lw_engine_trait::Engine;
use lw_locks::{Answer, Desk, Gate, Opening, Pass};
use std::alloc::{AllocError, Global};
use std::sync::Wait;

// Makes one call.
fn make_one<E: Engine, N: Opening, R: Wait, G: Gate>(
    desk: &Desk<E, N>,
    rt: &R,
    alloc: Global,
    gate: &G,
    pass: &mut Pass<E, N>,
    call: &Call,
) -> Result<Answer, AllocError>
    requires fits { IsTrue (call_fits N.desk.sizes call.now) }
    requires room { count_of pass.old.task pass.old.history < 4294967295 }
    ensures task { pass.new.task ≡ pass.old.task }
    ensures done { IfOk result (λ a. Done N.desk (Task pass.old.task ∷ []) pass.old.task pass.old.history pass.new.history call.now a.reply a.ticket) }
{
    match class_of(call) {
        CallClass::OnRegisters => desk.own(alloc, gate, pass, call),
        _ => desk.call(rt, alloc, gate, pass, call),
    }
}

// Makes the task's next calls up to a number, none of which is in a group, and keeps their answers.
fn make_up_to<E: Engine, N: Opening, R: Wait, G: Gate>(
    desk: &Desk<E, N>,
    rt: &R,
    alloc: Global,
    gate: &G,
    plan: &Plan,
    pass: &mut Pass<E, N>,
    to: usize,
    answers: &mut Vec<Answer>,
) -> Result<(), AllocError>
    requires plan { IsPlan plan.now }
    requires sizes { N.desk.sizes ≡ plan.now.sizes }
    requires task { pass.old.task < plan.now.sizes.tasks }
    requires begun { HasBegun N.desk plan.now pass.old.task pass.old.history answers.old.items }
    requires ahead { length answers.old.items ≤ to }
    requires left { to ≤ length (task_calls plan.now pass.old.task) }
    requires free { (n : ℕ) → length answers.old.items ≤ n → n < to → IsFree (task_groups plan.now pass.old.task) n }
    ensures task { pass.new.task ≡ pass.old.task }
    ensures many { OnOk result (length answers.new.items ≡ to) }
    ensures begun { OnOk result (HasBegun N.desk plan.now pass.old.task pass.new.history answers.new.items) }
{
    for next in answers.len()..to {
        let call = call_of(plan, pass.task(), next);
        answers.reserve(1)?;
        let answer = make_one(desk, rt, alloc, gate, pass, call)?;
        answers.push_reserved(answer);
    }
    Ok(())
}

// Makes the calls of the task's next group, which it has come to.
fn make_group<E: Engine, N: Opening, R: Wait, G: Gate>(
    desk: &Desk<E, N>,
    rt: &R,
    alloc: Global,
    gate: &G,
    plan: &Plan,
    pass: &mut Pass<E, N>,
    group: &Group,
    answers: &mut Vec<Answer>,
) -> Result<(), AllocError>
    requires plan { IsPlan plan.now }
    requires sizes { N.desk.sizes ≡ plan.now.sizes }
    requires task { pass.old.task < plan.now.sizes.tasks }
    requires begun { HasBegun N.desk plan.now pass.old.task pass.old.history answers.old.items }
    requires next { IsNext (task_calls plan.now pass.old.task) (task_groups plan.now pass.old.task) (length answers.old.items) group.now }
    requires here { length answers.old.items ≡ group.now.first }
    ensures task { pass.new.task ≡ pass.old.task }
    ensures many { OnOk result (length answers.new.items ≡ group.now.last + 1) }
    ensures begun { OnOk result (HasBegun N.desk plan.now pass.old.task pass.new.history answers.new.items) }
{
    let (first, last) = (group.first as usize, group.last as usize);
    let calls = plan.calls(pass.task());
    let part = &calls[first..last + 1];
    desk.group(rt, alloc, gate, pass, group.hold, part, answers)
}

/// Makes the calls of the pass's task, which made none so far, one after another, and each group's under one holding of its
/// locks. It may wait, and so promises no return. It fails only when out of memory, and the task then makes no further call.
pub(crate) fn run_task<E: Engine, N: Opening, R: Wait, G: Gate>(
    desk: &Desk<E, N>,
    rt: &R,
    alloc: Global,
    gate: &G,
    plan: &Plan,
    pass: &mut Pass<E, N>,
) -> Result<TaskAnswers, AllocError>
    requires plan { IsPlan plan.now }
    requires sizes { N.desk.sizes ≡ plan.now.sizes }
    requires task { pass.old.task < plan.now.sizes.tasks }
    requires first { pass.old.history ≡ [] }
    ensures task { pass.new.task ≡ pass.old.task }
    ensures told { IfOk result (λ told. HasAll N.desk plan.now pass.old.task pass.new.history told) }
{
    let mut answers = Vec::new(alloc);
    for group in plan.groups(pass.task()) {
        let first = group.first as usize;
        make_up_to(desk, rt, alloc, gate, plan, pass, first, &mut answers)?;
        make_group(desk, rt, alloc, gate, plan, pass, group, &mut answers)?;
    }
    let all = plan.calls(pass.task()).len();
    make_up_to(desk, rt, alloc, gate, plan, pass, all, &mut answers)?;
    TaskAnswers::of(alloc, answers)
}
