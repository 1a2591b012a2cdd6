//! The lines of tasks.

ghost use Rattle.std.specs.Prelude.{◌≡◌, ◌<◌, ◌++◌, true, OnOk};
ghost use Rattle.lw_canonical.specs.Canonical.{lines_from, lines_of_task};
ghost use Rattle.lw_calls.specs.Plan.{task_calls, task_groups, groups_fit};
ghost use Rattle.lw_print.specs.Behind.{text_of};
ghost use Rattle.lw_print.specs.Grouping.{lines_around};

use crate::calls::push_call;
use crate::groups::{groups_behind, push_closing, push_opening, word_at};
use crate::lines::push_named_line;
use lw_calls::{Call, Group, Plan};
use lw_text_output::{name_of, push_line};
use std::alloc::{AllocError, Global};

/// Writes the lines of a task.
pub fn push_task(alloc: Global, out: &mut Vec<u8>, plan: &Plan, task: u32) -> Result<(), AllocError>
    requires { task < plan.now.sizes.tasks }
    ensures { OnOk result (out.new.items ≡ out.old.items ++ text_of (lines_of_task plan.now task)) }
{
    push_named_line(out, b"task", name_of(plan.task_names(), task as usize))?;
    push_calls(alloc, out, plan, task)?;
    push_line(out, b"end")
}

/// Writes the lines of a task's calls and groups.
fn push_calls(alloc: Global, out: &mut Vec<u8>, plan: &Plan, task: u32) -> Result<(), AllocError>
    requires { task < plan.now.sizes.tasks }
    ensures { OnOk result (out.new.items ≡ out.old.items
        ++ text_of (lines_from plan.now (task_calls plan.now task) (task_groups plan.now task) 0
        (task_calls plan.now task))) }
{
    // The clause of `sizes` tells the proof that the groups of the task stand in order.
    let _sizes = plan.sizes();
    let calls = plan.calls(task);
    let mut left = plan.groups(task);
    for number in 0..calls.len() {
        push_grouped(alloc, out, plan, calls, left, number, &calls[number])?;
        left = groups_behind(left, number);
    }
    Ok(())
}

/// Writes the line of a call, with those of its group, or that of what its group stands for at its first call. `left` has the
/// groups that didn't end before it.
fn push_grouped(
    alloc: Global,
    out: &mut Vec<u8>,
    plan: &Plan,
    calls: &[Call],
    left: &[Group],
    number: usize,
    call: &Call,
) -> Result<(), AllocError>
    requires { groups_fit calls.now left.now ≡ true }
    ensures { OnOk result (out.new.items ≡ out.old.items
        ++ text_of (lines_around plan.now calls.now left.now number call.now)) }
{
    let names = plan.slot_names();
    let word = word_at(alloc, plan.pairs(), calls, left, number)?;
    push_opening(alloc, out, names, calls, left, number, &word)?;
    if word.is_none() {
        push_call(alloc, out, names, plan.bitmap_names(), call)?;
    }
    push_closing(out, names, calls, left, number, &word)
}
