ghost use Rattle.std.specs.Prelude.{◌≡◌, ℕ, ◌<◌, ◌≤◌, List, length, map, vec_len, IfOk};
ghost use Rattle.lw_machine.specs.Hook.{Hook};
ghost use Rattle.lw_script.specs.Answers.{input_meaning};
ghost use Rattle.lw_top.specs.Outcome.{IsOutcome, IsOutcomeFor};
ghost use Rattle.lw_top.specs.Status.{input_limit, reason_text, text_of};

use crate::report::{output_of, report_of_tasks};
use crate::status::Status;
use crate::words::{Output, ScriptCommand};
use lw_backfill::Backfill;
use lw_calls::bad_place;
use lw_grammar::{Form, Reason};
use lw_locks::Gate;
use lw_print::print;
use lw_script::{Input, ScriptStop, read};
use std::alloc::{AllocError, Global};
use std::sync::Wait;
use std::thread::Threads;

/// The answer that is due, and its text.
#[derive(Debug, Drop)]
pub struct Outcome {
    pub status: Status,
    pub text: Vec<u8>,
}

/// The outcome of `run` with these hooks, on an input of no more bytes than the limit. It may wait, and so promises no return.
pub fn run_outcome<B: Backfill + Send, R: Threads + Wait + Sync, G: Gate + Sync>(
    rt: &R,
    alloc: Global,
    input: &[u8],
    hooks: Vec<B>,
    gate: &G,
) -> Result<Outcome, AllocError>
    requires short { length input.now ≤ input_limit }
    requires few { vec_len hooks < 4294967296 }
    ensures { IfOk result (λ outcome.
        IsOutcome (map B.hook hooks.items) ScriptCommand.Run input.now outcome.status outcome.text.items) }
{
    match read(alloc, input, hooks.len() as u32, Form::Plain) {
        Ok(script) => Ok(done(report_of_tasks(rt, alloc, &script.plan, hooks, gate)?)),
        Err(ScriptStop::Refused { line, reason }) => refusal(alloc, line, reason),
        Err(ScriptStop::Memory) => Err(AllocError),
    }
}

/// The outcome of a replay with these hooks, on an input of no more bytes than the limit.
pub fn replay_outcome<B: Backfill + Send>(
    alloc: Global,
    output: Output,
    input: &[u8],
    hooks: Vec<B>,
) -> Result<Outcome, AllocError>
    requires short { length input.now ≤ input_limit }
    requires few { vec_len hooks < 4294967296 }
    ensures { IfOk result (λ outcome.
        IsOutcome (map B.hook hooks.items) (ScriptCommand.Replay output) input.now outcome.status outcome.text.items) }
{
    match read(alloc, input, hooks.len() as u32, Form::Ordered) {
        Ok(script) => outcome_in_order(alloc, output, &script, hooks),
        Err(ScriptStop::Refused { line, reason }) => refusal(alloc, line, reason),
        Err(ScriptStop::Memory) => Err(AllocError),
    }
}

/// The outcome of `check` where so many hooks are handed in, on an input of no more bytes than the limit. It needs no hook.
pub fn check_outcome(alloc: Global, input: &[u8], hooks: u32) -> Result<Outcome, AllocError>
    requires { length input.now ≤ input_limit }
    ensures { IfOk result (λ outcome. (given : List Hook) → length given ≡ hooks
        → IsOutcome given ScriptCommand.Check input.now outcome.status outcome.text.items) }
{
    match read(alloc, input, hooks, Form::Plain) {
        Ok(script) => Ok(done(print(alloc, &script.plan)?)),
        Err(ScriptStop::Refused { line, reason }) => refusal(alloc, line, reason),
        Err(ScriptStop::Memory) => Err(AllocError),
    }
}

pub(crate) fn done(text: Vec<u8>) -> Outcome
    ensures { result ≡ record { status = Status.Done; text = text } }
{
    Outcome {
        status: Status::Done,
        text,
    }
}

/// What is written of the machine's run in the order that stands in a script, with these hooks, or the order's first bad place.
fn outcome_in_order<B: Backfill + Send>(
    alloc: Global,
    output: Output,
    script: &Input,
    hooks: Vec<B>,
) -> Result<Outcome, AllocError>
    requires few { length script.now.order < 4294967296 }
    ensures { (input : List ℕ) → IfOk result (λ outcome. IsOutcomeFor (map B.hook hooks.items) (ScriptCommand.Replay output)
        input (input_meaning script.now) outcome.status outcome.text.items) }
{
    match bad_place(alloc, &script.plan, &script.order)? {
        Some(place) => bad_order(alloc, place),
        None => Ok(done(output_of(alloc, output, &script.plan, hooks, &script.order)?)),
    }
}

/// The outcome where the order has this first bad place.
pub(crate) fn bad_order(alloc: Global, place: u32) -> Result<Outcome, AllocError>
    ensures { IfOk result (λ outcome. (outcome.status ≡ Status.BadOrder place)
        × (outcome.text.items ≡ text_of (Status.BadOrder place))) }
{
    let text = bad_order_line(alloc, place)?;
    Ok(Outcome {
        status: Status::BadOrder { place },
        text,
    })
}

fn bad_order_line(alloc: Global, place: u32) -> Result<Vec<u8>, AllocError>
    ensures { IfOk result (λ text. text.items ≡ text_of (Status.BadOrder place)) }
{
    Ok(format!(in alloc; "bad order at {place}\n")?.into_bytes())
}

pub(crate) fn refusal(alloc: Global, line: u32, reason: Reason) -> Result<Outcome, AllocError>
    ensures { IfOk result (λ outcome. (outcome.status ≡ Status.Refused line reason)
        × (outcome.text.items ≡ text_of (Status.Refused line reason))) }
{
    let text = refusal_line(alloc, line, reason)?;
    Ok(Outcome {
        status: Status::Refused { line, reason },
        text,
    })
}

fn refusal_line(alloc: Global, line: u32, reason: Reason) -> Result<Vec<u8>, AllocError>
    ensures { IfOk result (λ text. text.items ≡ text_of (Status.Refused line reason)) }
{
    let word = reason_word(reason);
    Ok(format!(in alloc; "refused line {line} {word}\n")?.into_bytes())
}

fn reason_word(reason: Reason) -> &'static str
    ensures { result.now ≡ reason_text reason }
{
    match reason {
        Reason::LineTooLong => "line-too-long",
        Reason::BadByte => "bad-byte",
        Reason::Spacing => "spacing",
        Reason::Quote => "quote",
        Reason::UnknownWord => "unknown-word",
        Reason::Misplaced => "misplaced",
        Reason::Form => "form",
        Reason::Range => "range",
        Reason::NoName => "no-name",
        Reason::DoubleName => "double-name",
        Reason::Gzz => "gzz",
        Reason::Group => "group",
        Reason::TooMany => "too-many",
        Reason::NoHook => "no-hook",
        Reason::HookUsed => "hook-used",
        Reason::Padding => "padding",
        Reason::Missing => "missing",
    }
}
