//! Streams and words of commands, and the answers that are due.
use lw_answers::{answer_to, sink_of, source_of, word};
use lw_io::{MemSink, MemSource};
use lw_top::Status;
use std::alloc::{AllocError, Global};
use std::process::Abort;
use std::sync::Wait;
use std::thread::Threads;

/// A number that no call of a stream has.
pub const NEVER: u32 = 4_294_967_295;

/// How many bytes the calls of a stream move usually.
pub const USUAL: usize = 4096;

/// A source and a sink: how many bytes a read moves, and which one fails; the sink's room, and the same of writes.
pub fn streams_of(
    alloc: Global,
    script: &[u8],
    (read_step, read_fault): (usize, u32),
    (room, write_step, write_fault): (usize, usize, u32),
) -> Result<(MemSource, MemSink), AllocError> {
    let source = source_of(alloc, script, read_step, &[read_fault])?;
    let sink = sink_of(alloc, room, write_step, &[write_fault])?;
    Ok((source, sink))
}

pub fn words_of(alloc: Global, texts: &[&str]) -> Result<Vec<String>, AllocError> {
    let mut words = Vec::new(alloc);
    for text in texts {
        words.push(word(alloc, text)?)?;
    }
    Ok(words)
}

/// The parts of a text, one behind the other.
pub fn joined(alloc: Global, parts: &[&[u8]]) -> Result<Vec<u8>, AllocError> {
    let mut text = Vec::new(alloc);
    for part in parts {
        text.extend_from_slice(part)?;
    }
    Ok(text)
}

/// An answer and what was written for it have to be these.
pub fn assert_answer<R: Abort>(rt: &R, answer: (Status, &[u8]), due: Status, text: &[u8]) {
    let (status, written) = answer;
    assert_eq!(rt; status, due);
    assert_eq!(rt; written, text);
}

/// What the program answers and writes for a command of one word, and a script with what stands after it, has to be this.
pub fn assert_answer_to<R: Threads + Wait + Abort + AllocGlobal + Sync>(
    rt: &R,
    command: &str,
    (script, after): (&[u8], &[u8]),
    due: Status,
    text: &[u8],
) -> Result<(), AllocError> {
    let (status, written) = answer_to(rt, command, script, after)?;
    assert_answer(rt, (status, written.as_slice()), due, text);
    Ok(())
}

/// Where a read fails nothing is written, and else this text.
pub fn assert_read<R: Abort>(rt: &R, answer: (Status, &[u8]), fails: bool, text: &[u8]) {
    if fails {
        assert_answer(rt, answer, Status::ReadFault, b"");
    } else {
        assert_answer(rt, answer, Status::Done, text);
    }
}

/// So many bytes of this text are written, after which a write fails if there are more.
pub fn assert_written<R: Abort>(rt: &R, answer: (Status, &[u8]), count: usize, text: &[u8]) {
    let (status, written) = answer;
    let due = if count == text.len() {
        Status::Done
    } else {
        Status::WriteFault
    };
    assert_eq!(rt; status, due);
    assert_eq!(rt; Some(written), text.get(..count));
}
