//! A first script and its report, and the usage line.
use crate::expected::{NEVER, USUAL, assert_answer, assert_answer_to, streams_of, words_of};
use lw_locks::OpenGate;
use lw_top::{Status, layers};
use std::alloc::AllocError;
use std::process::Abort;
use std::sync::Wait;
use std::test::Fail;
use std::thread::Threads;

pub const FIRST_FILL: &[u8] =
    b"screen 16 4 1\ntask a\ncreate w smart front 0 0 7 3\nfill w 1 1 2 2\nend\n";

pub const FIRST_FILL_REPORT: &[u8] =
    b"order 2\n0 0\nplanes 16 4 1\nplane 0\n0000\n6000\n6000\n0000\nvisible w 1\n0 0 7 3\ndamage w 0\nreplies a 2\nok\nok\ndone\n";

const USAGE_LINE: &[u8] =
    b"usage: layers run|check|replay|audit|demo NUMBER TASKS|display|ilbm|bitmap NAME\n";

#[test]
fn scripts_give_their_reports(rt: HostRuntime) -> Result<(), Fail> {
    assert_answer_to(
        &rt,
        "run",
        (FIRST_FILL, b""),
        Status::Done,
        FIRST_FILL_REPORT,
    )?;
    // A task without calls.
    let script = b"screen 1 1 1\ntask a\nend".as_slice();
    let report = b"order 0\nplanes 1 1 1\nplane 0\n0000\nreplies a 0\ndone\n";
    assert_answer_to(&rt, "run", (script, b""), Status::Done, report)?;
    Ok(())
}

// The words get the usage line, or as much of it as the sink has room for.
fn assert_usage<R: Threads + Wait + Abort + AllocGlobal + Sync>(
    rt: &R,
    words: &[String],
    room: usize,
    due: Status,
    text: &[u8],
) -> Result<(), AllocError> {
    let alloc = rt.alloc();
    let (mut source, mut sink) = streams_of(
        alloc,
        FIRST_FILL,
        (USUAL, NEVER),
        (room, USUAL, NEVER),
    )?;
    let hooks = Vec::new(alloc);
    let status = layers(rt, alloc, words, &mut source, &mut sink, hooks, &OpenGate);
    assert_answer(rt, (status, sink.bytes()), due, text);
    Ok(())
}

static NO_COMMANDS: [&[&str]; 18] = [
    &[],
    &["run", "run"],
    &["audit", "1"],
    &["demo"],
    &["demo", "7"],
    &["demo", "1", "17"],
    &["demo", "1", "0"],
    &["demo", "01", "2"],
    &["demo", "4294967296", "1"],
    &["demo", "7", "2", "x"],
    &["demo", "-1", "2"],
    &["display", "a"],
    &["ilbm", "a"],
    &["bitmap"],
    &["bitmap", "a", "b"],
    // A number, an empty word and 17 bytes are no names.
    &["bitmap", "9"],
    &["bitmap", ""],
    &["bitmap", "abcdefghijklmnopq"],
];

#[test]
fn words_that_are_no_command_get_the_usage_line(rt: HostRuntime) -> Result<(), Fail> {
    for texts in NO_COMMANDS.iter() {
        let words = words_of(rt.alloc(), texts)?;
        assert_usage(&rt, words.as_slice(), 4096, Status::Usage, USAGE_LINE)?;
        assert_usage(&rt, words.as_slice(), 3, Status::WriteFault, b"usa")?;
    }
    Ok(())
}
