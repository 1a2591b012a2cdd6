// The order of a history, from the tickets of its tasks.

ghost use Rattle.std.specs.Prelude.{◌≡◌, ℕ, ◌<◌, ◌≤◌, ◌++◌, List, length, replicate, All, IfOk, OnOk};
ghost use Rattle.lw_calls.specs.declared.entry.Entry.{Entry};
ghost use Rattle.lw_order.specs.Numbered.{TasksBelow};
ghost use Rattle.lw_runs.specs.Whole.{AreTickets, count_below, order_of, put};

use crate::answers::TaskAnswers;
use std::alloc::{AllocError, Global};

/// The tasks of a history's steps, of which these are the tickets, by task.
pub fn order_by(alloc: Global, all: &[TaskAnswers]) -> Result<Vec<u32>, AllocError>
    requires few { length all.now ≤ 16 }
    requires tickets { (es : List Entry) × AreTickets es all.now × TasksBelow (length all.now) es }
    ensures { IfOk result (λ order. (es : List Entry) → AreTickets es all.now → TasksBelow (length all.now) es
        → order.items ≡ order_of es) }
{
    let mut order = zeros(alloc, all)?;
    for task in 0..all.len() {
        place(
            order.as_mut_slice(),
            task as u32,
            all[task].tickets.as_slice(),
        );
    }
    Ok(order)
}

// As many zeros as there are tickets.
fn zeros(alloc: Global, all: &[TaskAnswers]) -> Result<Vec<u32>, AllocError>
    ensures { IfOk result (λ order. (es : List Entry) → AreTickets es all.now
        → order.items ≡ replicate (count_below (length all.now) es) 0) }
{
    let mut order = Vec::new(alloc);
    for told in all {
        more(&mut order, told.tickets.len())?;
    }
    Ok(order)
}

fn more(order: &mut Vec<u32>, count: usize) -> Result<(), AllocError>
    ensures { OnOk result (order.new.items ≡ order.old.items ++ replicate count 0) }
{
    for _zero in 0..count {
        order.push(0)?;
    }
    Ok(())
}

// Puts a task at its tickets.
fn place(order: &mut [u32], task: u32, tickets: &[u64])
    requires { All (λ n. n < length order.old) tickets.now }
    ensures { order.new ≡ put task order.old tickets.now }
{
    for ticket in tickets {
        order[*ticket as usize] = task;
    }
}
