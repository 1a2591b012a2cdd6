//! What the program answers to a command and a script, over streams in memory.
ghost use Rattle.std.specs.Prelude.{◌<◌, vec_len};

use lw_backfill::{Backfill, Checker, Cycle, Solid};
use lw_io::{MemSink, MemSource};
use lw_locks::{Gate, OpenGate};
use lw_top::{Status, layers};
use std::alloc::{AllocError, Global};
use std::sync::Wait;
use std::thread::Threads;

/// A source that moves `step` bytes a call at most, and whose calls with these numbers fail.
pub fn source_of(
    alloc: Global,
    script: &[u8],
    step: usize,
    fails: &[u32],
) -> Result<MemSource, AllocError> {
    let bytes = Vec::from_slice(alloc, script)?;
    let fails = Vec::from_slice(alloc, fails)?;
    Ok(MemSource::new(bytes, step.max(1), fails))
}

/// The same for a sink with room for so many bytes.
pub fn sink_of(
    alloc: Global,
    room: usize,
    step: usize,
    fails: &[u32],
) -> Result<MemSink, AllocError> {
    let fails = Vec::from_slice(alloc, fails)?;
    MemSink::new(alloc, room, step.max(1), fails)
}

pub fn word(alloc: Global, text: &str) -> Result<String, AllocError> {
    String::from_str(alloc, text)
}

/// What the program answers and writes for a command of one word, and a script with what stands after it, without hooks.
pub fn answer_to<R: Threads + Wait + AllocGlobal + Sync>(
    rt: &R,
    command: &str,
    script: &[u8],
    after: &[u8],
) -> Result<(Status, Vec<u8>), AllocError> {
    answer_through(rt, Vec::new(rt.alloc()), &OpenGate, command, script, after)
}

/// The same with the six hooks that `main` hands in.
pub fn answer_with_six<R: Threads + Wait + AllocGlobal + Sync>(
    rt: &R,
    command: &str,
    script: &[u8],
    after: &[u8],
) -> Result<(Status, Vec<u8>), AllocError> {
    let alloc = rt.alloc();
    let Some(three_pens) = Cycle::new(vec![in alloc; 1, 2, 3]?) else {
        unreachable!()
    };
    let Some(two_pens) = Cycle::new(vec![in alloc; 3, 0]?) else {
        unreachable!()
    };
    let mut hooks: Vec<Box<dyn Backfill + Send>> = Vec::new(alloc);
    hooks.push(Box::new(alloc, Solid::new(1))?)?;
    hooks.push(Box::new(alloc, Solid::new(2))?)?;
    hooks.push(Box::new(alloc, Checker::new(0, 1))?)?;
    hooks.push(Box::new(alloc, Checker::new(2, 3))?)?;
    hooks.push(Box::new(alloc, three_pens)?)?;
    hooks.push(Box::new(alloc, two_pens)?)?;
    answer_through(rt, hooks, &OpenGate, command, script, after)
}

/// The same with these hooks, and a gate that is told of each call.
pub fn answer_through<R: Threads + Wait + AllocGlobal + Sync, G: Gate + Sync>(
    rt: &R,
    hooks: Vec<Box<dyn Backfill + Send>>,
    gate: &G,
    command: &str,
    script: &[u8],
    after: &[u8],
) -> Result<(Status, Vec<u8>), AllocError>
    requires { vec_len hooks < 4294967296 }
{
    let alloc = rt.alloc();
    let words = vec![in alloc; word(alloc, command)?]?;
    let mut input = Vec::from_slice(alloc, script)?;
    input.extend_from_slice(after)?;
    let mut source = source_of(alloc, input.as_slice(), 65_536, &[])?;
    let mut sink = sink_of(alloc, 131_072, 4096, &[])?;
    let status = layers(
        rt,
        alloc,
        words.as_slice(),
        &mut source,
        &mut sink,
        hooks,
        gate,
    );
    let text = Vec::from_slice(alloc, sink.bytes())?;
    Ok((status, text))
}
