//! The program `layers`: standard input and output as source and sink, six hooks for scripts to name, and the exit status of its
//! answer.
#![tactic(auto)]

use lw_backfill::{Backfill, Checker, Cycle, Solid};
use lw_io::{Sink, Source, StdSink, StdSource};
use lw_locks::OpenGate;
use lw_top::{Status, layers};
use std::alloc::AllocError;
use std::io::ErrorKind;
use std::process::ExitCode;
use std::rt::Env;
use std::sync::Wait;
use std::thread::Threads;
use std::{env, io};

/// The words of the command line, without the program's name. None where one of them is not UTF-8, which makes it a
/// faulty command line.
fn words(rt: &(impl Env + AllocGlobal)) -> io::Result<Option<Vec<String>>> {
    match env::args(rt) {
        Ok(words) => Ok(Some(words.skip(1).collect(rt.alloc())?)),
        Err(error) if error.kind() == ErrorKind::OutOfMemory => Err(error),
        Err(_) => Ok(None),
    }
}

/// Does what the words say, with the hooks that scripts may name: two of one pen, two of two pens like a chessboard's fields, and
/// two whose pens take turns.
fn answer<R: Threads + Wait + AllocGlobal + Sync, S: Source, K: Sink>(
    rt: &R,
    words: &[String],
    source: &mut S,
    sink: &mut K,
) -> Result<Status, AllocError> {
    let alloc = rt.alloc();
    let Some(three_pens) = Cycle::new(vec![in alloc; 1, 2, 3]?) else {
        unreachable!()
    };
    let Some(two_pens) = Cycle::new(vec![in alloc; 3, 0]?) else {
        unreachable!()
    };
    let mut hooks: Vec<Box<dyn Backfill + Send>> = Vec::new(alloc);
    hooks.push(Box::new(alloc, Solid::new(1))?)?;
    hooks.push(Box::new(alloc, Solid::new(2))?)?;
    hooks.push(Box::new(alloc, Checker::new(0, 1))?)?;
    hooks.push(Box::new(alloc, Checker::new(2, 3))?)?;
    hooks.push(Box::new(alloc, three_pens)?)?;
    hooks.push(Box::new(alloc, two_pens)?)?;
    Ok(layers(rt, alloc, words, source, sink, hooks, &OpenGate))
}

fn main(rt: HostRuntime) -> ExitCode {
    let mut source = StdSource::new(rt.stdin());
    let mut sink = StdSink::new(rt.stdout());
    let answered = match words(&rt) {
        Ok(Some(words)) => answer(&rt, words.as_slice(), &mut source, &mut sink),
        Ok(None) => answer(&rt, &[], &mut source, &mut sink),
        Err(_) => Err(AllocError),
    };
    let status = answered.unwrap_or(Status::NoMemory);
    ExitCode::from(status.number())
}
