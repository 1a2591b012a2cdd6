//! The command `display`: what the display in an input shows after all acts. It takes no lock, and returns.

ghost use Rattle.std.specs.Prelude.{◌≡◌, ◌⊎◌, ◌≤◌, length, IfOk};
ghost use Rattle.lw_io.specs.Streams.{change};
ghost use Rattle.lw_top.specs.Displays.{refusal_of, IsDisplayOutcome};
ghost use Rattle.lw_top.specs.Outcome.{Answered};
ghost use Rattle.lw_top.specs.Status.{input_limit, text_of};

use crate::outcome::{Outcome, done, refusal};
use crate::say::{say, say_stop};
use crate::serving::INPUT_LIMIT;
use crate::status::Status;
use lw_display::{ShowReason, ShowStop};
use lw_display_run::text_shown;
use lw_io::{Sink, Source, read_all};
use std::alloc::{AllocError, Global};

/// Reads a show from the source to its end, runs the script of each of its scenes in its order, without hooks, does its acts, and
/// writes the bands of its display and what that shows, or the text of another answer. It takes no lock, and returns.
pub fn display_cmd<S: Source, K: Sink>(alloc: Global, source: &mut S, sink: &mut K) -> Status
    ensures answered { Answered IsDisplayOutcome result
        (change S.left S.faults source.old source.new)
        (change K.written K.faults sink.old sink.new) }
    ensures untouched { (result ≡ Status.ReadFault) ⊎ (result ≡ Status.NoMemory)
        → sink.new ≡ sink.old }
{
    match read_all(alloc, source, INPUT_LIMIT) {
        Ok(input) => match display_outcome(alloc, input.as_slice()) {
            Ok(outcome) => say(sink, outcome.text.as_slice(), outcome.status),
            Err(_) => Status::NoMemory,
        },
        Err(stop) => say_stop(sink, stop),
    }
}

/// The outcome of `display` on an input of no more bytes than the limit.
fn display_outcome(alloc: Global, input: &[u8]) -> Result<Outcome, AllocError>
    requires { length input.now ≤ input_limit }
    ensures { IfOk result (λ outcome. IsDisplayOutcome input.now outcome.status outcome.text.items) }
{
    match text_shown(alloc, input) {
        Ok(text) => Ok(done(text)),
        Err(ShowStop::Refused { line, reason }) => refused(alloc, line, reason),
        Err(ShowStop::Memory) => Err(AllocError),
    }
}

/// The outcome where this line of a show is refused.
fn refused(alloc: Global, line: u32, reason: ShowReason) -> Result<Outcome, AllocError>
    ensures { IfOk result (λ outcome. (outcome.status ≡ refusal_of line reason)
        × (outcome.text.items ≡ text_of (refusal_of line reason))) }
{
    match reason {
        ShowReason::Line(reason) => refusal(alloc, line, reason),
        ShowReason::BadOrder => refused_order(alloc, line),
    }
}

/// The outcome where this line ends a scene whose order isn't legal.
fn refused_order(alloc: Global, line: u32) -> Result<Outcome, AllocError>
    ensures { IfOk result (λ outcome. (outcome.status ≡ Status.RefusedOrder line)
        × (outcome.text.items ≡ text_of (Status.RefusedOrder line))) }
{
    let text = format!(in alloc; "refused line {line} bad-order\n")?.into_bytes();
    Ok(Outcome {
        status: Status::RefusedOrder { line },
        text,
    })
}
