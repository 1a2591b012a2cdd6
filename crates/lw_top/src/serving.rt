//! What every command on a script does: it reads its input, and writes the outcome's text. `check`, `replay_cmd`, `ilbm_cmd` and
//! `audit` take no lock, and return.

ghost use Rattle.std.specs.Prelude.{◌≡◌, ◌⊎◌, ◌<◌, ◌≤◌, List, length, map, vec_len};
ghost use Rattle.lw_io.specs.Streams.{change};
ghost use Rattle.lw_machine.specs.Hook.{Hook};
ghost use Rattle.lw_top.specs.Outcome.{Answered, IsOutcome};

use crate::auditing::audit_outcome;
use crate::outcome::{check_outcome, replay_outcome, run_outcome};
use crate::say::{say, say_stop};
use crate::status::Status;
use crate::words::{Output, ScriptCommand};
use lw_backfill::Backfill;
use lw_io::{Sink, Source, read_all};
use lw_locks::Gate;
use std::alloc::Global;
use std::sync::Wait;
use std::thread::Threads;

/// The most bytes that an input may have.
pub(crate) const INPUT_LIMIT: usize = 4_194_304;

/// Does what a command says with the script in the source, with these hooks. `run` may wait, so it promises no return.
pub fn on_script<R: Threads + Wait + Sync, S: Source, K: Sink, G: Gate + Sync>(
    rt: &R,
    alloc: Global,
    command: ScriptCommand,
    source: &mut S,
    sink: &mut K,
    hooks: Vec<Box<dyn Backfill + Send>>,
    gate: &G,
) -> Status
    requires few { vec_len hooks < 4294967296 }
    ensures answered { Answered (IsOutcome (map (λ b. hook b) hooks.items) command) result
        (change S.left S.faults source.old source.new)
        (change K.written K.faults sink.old sink.new) }
    ensures untouched { (result ≡ Status.ReadFault) ⊎ (result ≡ Status.NoMemory)
        → sink.new ≡ sink.old }
{
    match command {
        ScriptCommand::Run => run(rt, alloc, source, sink, hooks, gate),
        ScriptCommand::Check => check(alloc, source, sink, hooks.len() as u32),
        ScriptCommand::Replay(Output::Report) => replay_cmd(alloc, source, sink, hooks),
        ScriptCommand::Replay(Output::Picture) => ilbm_cmd(alloc, source, sink, hooks),
        ScriptCommand::Audit => audit(alloc, source, sink, hooks),
    }
}

/// Runs a script with these hooks, each task on a thread, and tells the gate of each call: reads
/// the source to its end and writes the report, or the text of another answer. It may wait, and so
/// promises no return.
pub fn run<B: Backfill + Send, R: Threads + Wait + Sync, S: Source, K: Sink, G: Gate + Sync>(
    rt: &R,
    alloc: Global,
    source: &mut S,
    sink: &mut K,
    hooks: Vec<B>,
    gate: &G,
) -> Status
    requires few { vec_len hooks < 4294967296 }
    ensures answered { Answered (IsOutcome (map B.hook hooks.items) ScriptCommand.Run) result
        (change S.left S.faults source.old source.new)
        (change K.written K.faults sink.old sink.new) }
    ensures untouched { (result ≡ Status.ReadFault) ⊎ (result ≡ Status.NoMemory)
        → sink.new ≡ sink.old }
{
    match read_all(alloc, source, INPUT_LIMIT) {
        Ok(input) => match run_outcome(rt, alloc, input.as_slice(), hooks, gate) {
            Ok(outcome) => say(sink, outcome.text.as_slice(), outcome.status),
            Err(_) => Status::NoMemory,
        },
        Err(stop) => say_stop(sink, stop),
    }
}

/// Checks a script, where so many hooks are there for it: reads the source to its end and writes
/// the script's canonical text, which has no skipped lines and a line feed after each line, or the
/// text of another answer.
pub fn check<S: Source, K: Sink>(alloc: Global, source: &mut S, sink: &mut K, hooks: u32) -> Status
    // Whichever hooks these are.
    ensures answered { (given : List Hook) → length given ≡ hooks
        → Answered (IsOutcome given ScriptCommand.Check) result
        (change S.left S.faults source.old source.new)
        (change K.written K.faults sink.old sink.new) }
    ensures untouched { (result ≡ Status.ReadFault) ⊎ (result ≡ Status.NoMemory)
        → sink.new ≡ sink.old }
{
    match read_all(alloc, source, INPUT_LIMIT) {
        Ok(input) => match check_outcome(alloc, input.as_slice(), hooks) {
            Ok(checked) => say(sink, checked.text.as_slice(), checked.status),
            Err(_) => Status::NoMemory,
        },
        Err(stop) => say_stop(sink, stop),
    }
}

/// Runs a script of some tasks in the order that stands after them, with these hooks: reads the
/// source to its end and writes the report, or the text of another answer. It takes no lock, and
/// returns. The hooks are boxes here, so that a caller who has none need not name their type.
pub fn replay_cmd<S: Source, K: Sink>(
    alloc: Global,
    source: &mut S,
    sink: &mut K,
    hooks: Vec<Box<dyn Backfill + Send>>,
) -> Status
    requires few { vec_len hooks < 4294967296 }
    ensures answered { Answered (IsOutcome (map (λ b. hook b) hooks.items) (ScriptCommand.Replay Output.Report)) result
        (change S.left S.faults source.old source.new)
        (change K.written K.faults sink.old sink.new) }
    ensures untouched { (result ≡ Status.ReadFault) ⊎ (result ≡ Status.NoMemory)
        → sink.new ≡ sink.old }
{
    replay(alloc, Output::Report, source, sink, hooks)
}

/// Runs a script of some tasks in the order that stands after them, with these hooks: reads the
/// source to its end and writes the screen that is left as an ILBM file, or the text of another
/// answer. It takes no lock, and returns.
pub fn ilbm_cmd<S: Source, K: Sink>(
    alloc: Global,
    source: &mut S,
    sink: &mut K,
    hooks: Vec<Box<dyn Backfill + Send>>,
) -> Status
    requires few { vec_len hooks < 4294967296 }
    ensures answered { Answered (IsOutcome (map (λ b. hook b) hooks.items) (ScriptCommand.Replay Output.Picture)) result
        (change S.left S.faults source.old source.new)
        (change K.written K.faults sink.old sink.new) }
    ensures untouched { (result ≡ Status.ReadFault) ⊎ (result ≡ Status.NoMemory)
        → sink.new ≡ sink.old }
{
    replay(alloc, Output::Picture, source, sink, hooks)
}

// The same with hooks of any one type, and with what is written of the run.
fn replay<S: Source, K: Sink, B: Backfill + Send>(
    alloc: Global,
    output: Output,
    source: &mut S,
    sink: &mut K,
    hooks: Vec<B>,
) -> Status
    requires few { vec_len hooks < 4294967296 }
    ensures answered { Answered (IsOutcome (map B.hook hooks.items) (ScriptCommand.Replay output)) result
        (change S.left S.faults source.old source.new)
        (change K.written K.faults sink.old sink.new) }
    ensures untouched { (result ≡ Status.ReadFault) ⊎ (result ≡ Status.NoMemory)
        → sink.new ≡ sink.old }
{
    match read_all(alloc, source, INPUT_LIMIT) {
        Ok(input) => match replay_outcome(alloc, output, input.as_slice(), hooks) {
            Ok(outcome) => say(sink, outcome.text.as_slice(), outcome.status),
            Err(_) => Status::NoMemory,
        },
        Err(stop) => say_stop(sink, stop),
    }
}

/// Compares the report that stands behind a script, after its line `report`, with the machine's report
/// in the order with which it begins, with these hooks: reads the source to its end and writes `same`,
/// or the text of another answer. It takes no lock, and returns.
pub fn audit<S: Source, K: Sink>(
    alloc: Global,
    source: &mut S,
    sink: &mut K,
    hooks: Vec<Box<dyn Backfill + Send>>,
) -> Status
    requires few { vec_len hooks < 4294967296 }
    ensures answered { Answered (IsOutcome (map (λ b. hook b) hooks.items) ScriptCommand.Audit) result
        (change S.left S.faults source.old source.new)
        (change K.written K.faults sink.old sink.new) }
    ensures untouched { (result ≡ Status.ReadFault) ⊎ (result ≡ Status.NoMemory)
        → sink.new ≡ sink.old }
{
    audited(alloc, source, sink, hooks)
}

// The same with hooks of any one type.
fn audited<S: Source, K: Sink, B: Backfill + Send>(
    alloc: Global,
    source: &mut S,
    sink: &mut K,
    hooks: Vec<B>,
) -> Status
    requires few { vec_len hooks < 4294967296 }
    ensures answered { Answered (IsOutcome (map B.hook hooks.items) ScriptCommand.Audit) result
        (change S.left S.faults source.old source.new)
        (change K.written K.faults sink.old sink.new) }
    ensures untouched { (result ≡ Status.ReadFault) ⊎ (result ≡ Status.NoMemory)
        → sink.new ≡ sink.old }
{
    match read_all(alloc, source, INPUT_LIMIT) {
        Ok(input) => match audit_outcome(alloc, input.as_slice(), hooks) {
            Ok(outcome) => say(sink, outcome.text.as_slice(), outcome.status),
            Err(_) => Status::NoMemory,
        },
        Err(stop) => say_stop(sink, stop),
    }
}
