//! The whole report.

ghost use Rattle.std.specs.Prelude.{◌≡◌, IfOk};
ghost use Rattle.lw_machine.specs.Report.{report};

use crate::layers::{Part, push_part};
use crate::order::push_order;
use crate::planes::push_planes;
use crate::replies::push_replies;
use lw_calls::{Final, OrderList, Plan};
use lw_text_output::push_line;
use std::alloc::{AllocError, Global};

/// The report of a plan after the calls of an order, which has a task's number for each call, where `last` is what the
/// run left: bytes, with a line feed after each line. The only error is running out of memory.
pub fn write(
    alloc: Global,
    plan: &Plan,
    last: &Final,
    order: &OrderList,
) -> Result<Vec<u8>, AllocError>
    ensures { IfOk result (λ text. text.items ≡ report plan.now order.now last.now) }
{
    let mut out = Vec::new(alloc);
    let names = plan.slot_names();
    let slots = last.slots.as_slice();
    push_order(alloc, &mut out, order.tasks())?;
    push_planes(alloc, &mut out, &last.planes)?;
    push_part(alloc, &mut out, Part::Visible, names, slots)?;
    push_part(alloc, &mut out, Part::Damage, names, slots)?;
    push_part(alloc, &mut out, Part::Messages, names, slots)?;
    push_replies(
        alloc,
        &mut out,
        names,
        plan.task_names(),
        last.replies.as_slice(),
    )?;
    push_line(&mut out, b"done")?;
    Ok(out)
}
