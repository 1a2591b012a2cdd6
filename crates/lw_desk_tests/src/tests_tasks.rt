ghost use Rattle.std.specs.Prelude.{◌≡◌, true};
ghost use Rattle.lw_calls.specs.Orders.{is_legal};

use crate::calls::{SIZES, are_done, calls_of_task, plan_of};
use lw_backfill::Solid;
use lw_calls::{Final, OrderList, Plan};
use lw_locks::OpenGate;
use lw_tasks::{replay, run_tasks};
use std::process::Abort;
use std::test::Fail;

// The screen has this row, and each of two tasks its two replies.
fn is_filled<R: Abort>(rt: &R, last: &Final, row: &[u8]) -> Result<(), Fail> {
    assert_eq!(rt; last.planes.width(), 16);
    assert_eq!(rt; last.planes.height(), 1);
    assert_eq!(rt; last.planes.depth(), 1);
    assert_eq!(rt; last.planes.row(0, 0), row);
    let [first, second] = last.replies.as_slice() else {
        return Err(Fail::from("two tasks"));
    };
    assert!(rt; are_done(first));
    assert!(rt; are_done(second));
    Ok(())
}

// Runs the plan in the order, and looks for this row and the replies.
fn is_filled_in_order<R: Abort + AllocGlobal>(
    rt: &R,
    plan: &Plan,
    order: &OrderList,
    row: &[u8],
) -> Result<(), Fail>
    requires legal { is_legal plan.now order.now ≡ true }
{
    let alloc = rt.alloc();
    let last = replay(alloc, plan, Vec::<Solid>::new(alloc), order)?;
    is_filled(rt, &last, row)
}

#[test]
fn tasks_on_threads_end_as_their_order_does(rt: HostRuntime) -> Result<(), Fail> {
    let alloc = rt.alloc();
    let first = calls_of_task(&rt, 0, 0, None)?;
    let second = calls_of_task(&rt, 1, 8, None)?;
    let plan = plan_of(alloc, SIZES.slots, first, second)?;
    let run = run_tasks(&rt, alloc, &plan, Vec::<Solid>::new(alloc), &OpenGate)?;
    is_filled(&rt, &run.last, &[0xc0, 0xc0])?;
    is_filled_in_order(&rt, &plan, &run.order, &[0xc0, 0xc0])
}
