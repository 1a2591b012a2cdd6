ghost use Rattle.std.specs.Prelude.{◌≡◌, ℕ, true, List, ◌∷◌, [], ◌++◌, ◌<◌, IfOk, length, replicate, Ok, Some, None};
ghost use Rattle.std.specs.List.{slice_get};
ghost use Rattle.lw_calls.specs.Plan.{task_calls};
ghost use Rattle.lw_calls.specs.Orders.{is_legal, IsBadPlace, may_come, occurrences};
ghost use Rattle.lw_calls.specs.Code.OrderState.{are_all_made, is_free, no_progress, progress_after};

use crate::order_list::OrderList;
use crate::plan::Plan;
use crate::progress::Progress;
use crate::touch::{Touch, touches};
use std::alloc::{AllocError, Global};

/// Where an order stops being legal: none where it is legal, else the first place k for which the first k + 1 numbers
/// begin no legal order, or the order's length where there is none. It fails only when out of
/// memory.
pub fn bad_place(alloc: Global, plan: &Plan, order: &OrderList) -> Result<Option<u32>, AllocError>
    requires { length order.now < 4294967296 }
    ensures legal { result ≡ Ok None → is_legal plan.now order.now ≡ true }
    ensures bad { (k : ℕ) → result ≡ Ok (Some k) → IsBadPlace plan.now order.now k }
{
    let numbers = order.tasks();
    // What each task did so far stands for the past, so that no number looks back.
    let mut states = start_all(alloc, plan.sizes().tasks)?;
    for place in 0..numbers.len() {
        if !makes_next(plan, &mut states, numbers[place]) {
            return Ok(Some(place as u32));
        }
    }
    if all_made(plan, &states) {
        return Ok(None);
    }
    Ok(Some(numbers.len() as u32))
}

/// So many tasks that did nothing yet.
fn start_all(alloc: Global, tasks: u32) -> Result<Vec<Progress>, AllocError>
    ensures { IfOk result (λ v. v.items ≡ replicate tasks no_progress) }
{
    let mut states = Vec::with_capacity(alloc, tasks as usize)?;
    for _task in 0..tasks {
        states.push(Progress::start())?;
    }
    Ok(states)
}

/// Makes the next call of a task, where it may come. Else it answers false.
fn makes_next(plan: &Plan, states: &mut [Progress], task: u32) -> bool
    requires { length states.old ≡ plan.now.sizes.tasks }
    ensures may { (past : List ℕ) → states.old ≡ progress_after plan.now past
        → result ≡ may_come plan.now past task (slice_get (task_calls plan.now task) (occurrences task past)) }
    ensures made { (past : List ℕ) → states.old ≡ progress_after plan.now past
        → result ≡ true → states.new ≡ progress_after plan.now (past ++ task ∷ []) }
{
    if task >= plan.sizes().tasks {
        return false;
    }
    let state = states[task as usize];
    let Some(call) = plan.calls(task).get(state.made) else {
        return false;
    };
    if !is_free(plan, states, task, &touches(task, call)) {
        return false;
    }
    states[task as usize] = state.more(plan.groups(task));
    true
}

/// No other task is within a group that holds what a call of this task touches.
fn is_free(plan: &Plan, states: &[Progress], task: u32, touch: &Touch) -> bool
    requires { length states.now ≡ plan.now.sizes.tasks }
    ensures { result ≡ is_free plan.now states.now task touch.now }
{
    for other in 0..plan.sizes().tasks {
        if other != task && states[other as usize].holds(plan.groups(other), touch) {
            return false;
        }
    }
    true
}

/// Each task made all its calls.
fn all_made(plan: &Plan, states: &[Progress]) -> bool
    requires { length states.now ≡ plan.now.sizes.tasks }
    ensures { result ≡ are_all_made plan.now states.now }
{
    for task in 0..plan.sizes().tasks {
        if states[task as usize].made != plan.calls(task).len() {
            return false;
        }
    }
    true
}
