//! The command `demo`: its six lines, and a sink that fails after a part of them.
use lw_answers::{sink_of, source_of, word};
use lw_io::{MemSink, MemSource};
use lw_locks::{Gate, OpenGate};
use lw_top::{Status, layers};
use std::alloc::{AllocError, Global};
use std::process::Abort;
use std::sync::Wait;
use std::test::Fail;
use std::thread::Threads;

/// The lines of demo 7 with two tasks. Their counts were worked out apart from this program, by a machine of its own.
pub const SEVEN: &[u8] = b"demo 7 2\ncalls 1000\npen 0 158870\npen 1 2250\npen 2 694\npen 3 2026\n";

// The words of its command.
static WORDS: [&str; 3] = ["demo", "7", "2"];

fn seven_words(alloc: Global) -> Result<Vec<String>, AllocError> {
    let mut words = Vec::new(alloc);
    for text in WORDS.iter() {
        words.push(word(alloc, text)?)?;
    }
    Ok(words)
}

// A source that isn't read, and a sink with room for so many bytes.
fn streams(alloc: Global, room: usize) -> Result<(MemSource, MemSink), AllocError> {
    let source = source_of(alloc, b"screen 1 1 1\n", 4096, &[])?;
    let sink = sink_of(alloc, room, 4096, &[])?;
    Ok((source, sink))
}

/// What the program answers for that demo, through a gate, and what it writes into a sink with room for so many bytes have to be
/// these.
pub fn assert_seven<R: Threads + Wait + Abort + AllocGlobal + Sync, G: Gate + Sync>(
    rt: &R,
    gate: &G,
    room: usize,
    due: Status,
    text: &[u8],
) -> Result<(), AllocError> {
    let alloc = rt.alloc();
    let words = seven_words(alloc)?;
    let (mut source, mut sink) = streams(alloc, room)?;
    let status = layers(
        rt,
        alloc,
        words.as_slice(),
        &mut source,
        &mut sink,
        Vec::new(alloc),
        gate,
    );
    assert_eq!(rt; status, due);
    assert_eq!(rt; sink.bytes(), text);
    Ok(())
}

#[test]
fn demo_seven_has_these_lines(rt: HostRuntime) -> Result<(), Fail> {
    assert_seven(&rt, &OpenGate, 4096, Status::Done, SEVEN)?;
    let begun = b"demo 7 2\ncalls 1000\npen 0";
    assert_seven(&rt, &OpenGate, 25, Status::WriteFault, begun)?;
    Ok(())
}
