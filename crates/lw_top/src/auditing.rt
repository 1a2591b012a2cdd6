//! The outcome of `audit`: the report in an input against the machine's.

ghost use Rattle.std.specs.Prelude.{◌≡◌, ℕ, ◌<◌, ◌≤◌, List, length, map, vec_len, IfOk};
ghost use Rattle.lw_script.specs.Answers.{input_meaning};
ghost use Rattle.lw_report_order.specs.OrderSection.{HasOrder};
ghost use Rattle.lw_top.specs.Audit.{call_count};
ghost use Rattle.lw_top.specs.AuditOutcome.{IsAudited, IsCompared};
ghost use Rattle.lw_top.specs.Outcome.{IsOutcome};
ghost use Rattle.lw_top.specs.Status.{input_limit, text_of};

use crate::calls::call_count;
use crate::outcome::{Outcome, bad_order, done, refusal};
use crate::report::report_of;
use crate::status::Status;
use crate::words::ScriptCommand;
use lw_backfill::Backfill;
use lw_calls::{OrderList, Plan, bad_place};
use lw_grammar::Form;
use lw_report_order::{OrderStop, first_difference, read_order};
use lw_script::{ScriptStop, read};
use std::alloc::{AllocError, Global};

/// The outcome of `audit` with these hooks, on an input of no more bytes than the limit.
pub fn audit_outcome<B: Backfill + Send>(
    alloc: Global,
    input: &[u8],
    hooks: Vec<B>,
) -> Result<Outcome, AllocError>
    requires short { length input.now ≤ input_limit }
    requires few { vec_len hooks < 4294967296 }
    ensures { IfOk result (λ outcome.
        IsOutcome (map B.hook hooks.items) ScriptCommand.Audit input.now outcome.status outcome.text.items) }
{
    match read(alloc, input, hooks.len() as u32, Form::Audited) {
        Ok(script) => outcome_of_report(alloc, &script.plan, hooks, &input[script.rest..]),
        Err(ScriptStop::Refused { line, reason }) => refusal(alloc, line, reason),
        Err(ScriptStop::Memory) => Err(AllocError),
    }
}

/// What is said of a report of a plan with these hooks.
fn outcome_of_report<B: Backfill + Send>(
    alloc: Global,
    plan: &Plan,
    hooks: Vec<B>,
    report: &[u8],
) -> Result<Outcome, AllocError>
    requires { length report.now ≤ input_limit }
    ensures { IfOk result (λ outcome.
        IsAudited (map B.hook hooks.items) plan.now report.now outcome.status outcome.text.items) }
{
    match read_order(alloc, report, call_count(plan)) {
        Ok(order) => outcome_of_order(alloc, plan, hooks, report, &order),
        Err(OrderStop::Place(place)) => difference(alloc, place),
        Err(OrderStop::Memory) => Err(AllocError),
    }
}

/// The same where the report begins with this order.
fn outcome_of_order<B: Backfill + Send>(
    alloc: Global,
    plan: &Plan,
    hooks: Vec<B>,
    report: &[u8],
    order: &OrderList,
) -> Result<Outcome, AllocError>
    requires begins { HasOrder (call_count plan.now) report.now order.now }
    requires few { length order.now < 4294967296 }
    ensures { IfOk result (λ outcome.
        IsAudited (map B.hook hooks.items) plan.now report.now outcome.status outcome.text.items) }
{
    match bad_place(alloc, plan, order)? {
        Some(place) => bad_order(alloc, place),
        None => {
            let due = report_of(alloc, plan, hooks, order)?;
            compared(alloc, report, due.as_slice())
        }
    }
}

/// What is said of a report where another one is due: they are the same, or the first place at which they differ.
fn compared(alloc: Global, report: &[u8], due: &[u8]) -> Result<Outcome, AllocError>
    ensures { IfOk result (λ outcome. IsCompared report.now due.now outcome.status outcome.text.items) }
{
    match first_difference(report, due) {
        Some(place) => difference(alloc, place as u64),
        None => Ok(done(Vec::from_slice(alloc, b"same\n")?)),
    }
}

fn difference(alloc: Global, place: u64) -> Result<Outcome, AllocError>
    ensures { IfOk result (λ outcome. (outcome.status ≡ Status.Differs place)
        × (outcome.text.items ≡ text_of (Status.Differs place))) }
{
    let text = format!(in alloc; "differs at {place}\n")?.into_bytes();
    Ok(Outcome {
        status: Status::Differs { place },
        text,
    })
}
