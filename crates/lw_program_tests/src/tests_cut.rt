use crate::expected::{NEVER, USUAL, assert_read, assert_written, streams_of, words_of};
use crate::tests_first::{FIRST_FILL, FIRST_FILL_REPORT};
use lw_io::MemSink;
use lw_locks::OpenGate;
use lw_top::{Status, layers};
use std::alloc::AllocError;
use std::process::Abort;
use std::sync::Wait;
use std::test::Fail;
use std::thread::Threads;

// What `run` answers to the first so many bytes of the first fill, and the sink into which it writes, where a call of each stream
// may fail.
fn run_of_cut<R: Threads + Wait + AllocGlobal + Sync>(
    rt: &R,
    cut: usize,
    read: (usize, u32),
    write: (usize, usize, u32),
) -> Result<(Status, MemSink), AllocError> {
    let alloc = rt.alloc();
    let words = words_of(alloc, &["run"])?;
    let script = FIRST_FILL.get(..cut).unwrap_or(FIRST_FILL);
    let (mut source, mut sink) = streams_of(alloc, script, read, write)?;
    let status = layers(
        rt,
        alloc,
        words.as_slice(),
        &mut source,
        &mut sink,
        Vec::new(alloc),
        &OpenGate,
    );
    Ok((status, sink))
}

// How many bytes of the script there are; how many bytes a read moves, and the one that fails; the same of writes; and the exit
// status, with the text of a refusal or with how many bytes of the report or the refusal are written.
static FAULTS: [(usize, (usize, u32), (usize, u32), u8, &str, usize); 16] = [
    (69, (1, NEVER), (1, NEVER), 0, "", 108),
    (69, (69, 0), (USUAL, NEVER), 3, "", 0),
    (69, (69, 1), (USUAL, NEVER), 3, "", 0),
    (69, (5, 1), (USUAL, NEVER), 3, "", 0),
    (69, (USUAL, NEVER), (1, 107), 4, "", 107),
    (69, (USUAL, NEVER), (1, 108), 0, "", 108),
    (69, (USUAL, NEVER), (10, 1), 4, "", 10),
    (
        3,
        (USUAL, NEVER),
        (USUAL, NEVER),
        1,
        "refused line 1 unknown-word\n",
        28,
    ),
    (
        10,
        (USUAL, NEVER),
        (USUAL, NEVER),
        1,
        "refused line 1 spacing\n",
        23,
    ),
    (
        11,
        (USUAL, NEVER),
        (USUAL, NEVER),
        1,
        "refused line 1 form\n",
        20,
    ),
    (
        14,
        (USUAL, NEVER),
        (USUAL, NEVER),
        1,
        "refused line 2 missing\n",
        23,
    ),
    (
        50,
        (USUAL, NEVER),
        (USUAL, NEVER),
        1,
        "refused line 4 missing\n",
        23,
    ),
    (
        65,
        (USUAL, NEVER),
        (USUAL, NEVER),
        1,
        "refused line 5 missing\n",
        23,
    ),
    (
        67,
        (USUAL, NEVER),
        (USUAL, NEVER),
        1,
        "refused line 5 unknown-word\n",
        28,
    ),
    (68, (USUAL, NEVER), (USUAL, NEVER), 0, "", 108),
    (
        3,
        (USUAL, NEVER),
        (1, 4),
        4,
        "refused line 1 unknown-word\n",
        4,
    ),
];

// The exit status has to be this one, and what was written so many bytes of a text.
fn assert_exit<R: Abort>(
    rt: &R,
    (status, written): (Status, &[u8]),
    number: u8,
    text: &[u8],
    count: usize,
) {
    assert_eq!(rt; status.number(), number);
    assert_eq!(rt; Some(written), text.get(..count));
}

#[test]
fn cut_scripts_and_faulty_streams(rt: HostRuntime) -> Result<(), Fail> {
    for (cut, read, (step, fault), number, refusal, count) in FAULTS.iter() {
        let (status, sink) = run_of_cut(&rt, *cut, *read, (4096, *step, *fault))?;
        let text = if refusal.is_empty() {
            FIRST_FILL_REPORT
        } else {
            refusal.as_bytes()
        };
        assert_exit(&rt, (status, sink.bytes()), *number, text, *count);
    }
    Ok(())
}

// The rooms of sinks that a report uses up.
static ROOMS: [usize; 4] = [0, 10, 107, 108];

#[test]
fn a_full_sink_has_what_it_has_room_for(rt: HostRuntime) -> Result<(), Fail> {
    for room in ROOMS.iter() {
        let (status, sink) = run_of_cut(&rt, 69, (USUAL, NEVER), (*room, 10, NEVER))?;
        assert_written(&rt, (status, sink.bytes()), *room, FIRST_FILL_REPORT);
    }
    Ok(())
}

// The bytes that a read moves, and how many reads there are: each byte is read, and then the end is found.
static READS: [(usize, u32); 2] = [(1, 70), (USUAL, 2)];

#[test]
fn each_read_fails_in_turn(rt: HostRuntime) -> Result<(), Fail> {
    for (step, reads) in READS.iter() {
        for fault in 0..=*reads {
            let (status, sink) = run_of_cut(&rt, 69, (*step, fault), (4096, USUAL, NEVER))?;
            let fails = fault < *reads;
            assert_read(&rt, (status, sink.bytes()), fails, FIRST_FILL_REPORT);
        }
    }
    Ok(())
}

// The bytes that a write moves, and how many writes there are.
static WRITES: [(usize, u32); 2] = [(1, 108), (USUAL, 1)];

#[test]
fn each_write_fails_in_turn(rt: HostRuntime) -> Result<(), Fail> {
    for (step, writes) in WRITES.iter() {
        for fault in 0..=*writes {
            let (status, sink) = run_of_cut(&rt, 69, (USUAL, NEVER), (4096, *step, fault))?;
            let count = if fault == *writes {
                108
            } else {
                fault as usize
            };
            assert_written(&rt, (status, sink.bytes()), count, FIRST_FILL_REPORT);
        }
    }
    Ok(())
}

// Of each byte of the script's lines, what is said of the bytes up to it: an unknown word, form, spacing, something missing
// below, or that it's done.
static SAID: [&[u8]; 5] = [
    b"uuuuufsffsfsmm",
    b"uuufsmm",
    b"uuuuufsfsfffffsfffffsfsfsfsmm",
    b"uuufsfsfsfsfsmm",
    b"uudd",
];

fn reason_of(letter: u8) -> &'static str {
    match letter {
        b'u' => "unknown-word",
        b'f' => "form",
        b's' => "spacing",
        _ => "missing",
    }
}

// For so many bytes of the script this text is written.
fn assert_text_of_cut<R: Threads + Wait + Abort + AllocGlobal + Sync>(
    rt: &R,
    cut: usize,
    text: &[u8],
) -> Result<(), AllocError> {
    let (_, sink) = run_of_cut(rt, cut, (USUAL, NEVER), (4096, USUAL, NEVER))?;
    assert_eq!(rt; sink.bytes(), text);
    Ok(())
}

// So many bytes of the script, of which those of the last line follow so many lines, are answered as a letter says.
fn assert_said<R: Threads + Wait + Abort + AllocGlobal + Sync>(
    rt: &R,
    cut: usize,
    above: usize,
    letter: u8,
) -> Result<(), AllocError> {
    if letter == b'd' {
        return assert_text_of_cut(rt, cut, FIRST_FILL_REPORT);
    }
    let line = above.saturating_add(if letter == b'm' { 2 } else { 1 });
    let reason = reason_of(letter);
    let due = format!(in rt.alloc(); "refused line {line} {reason}\n")?;
    assert_text_of_cut(rt, cut, due.as_bytes())
}

#[test]
fn each_cut_of_a_script_is_answered(rt: HostRuntime) -> Result<(), Fail> {
    assert_text_of_cut(&rt, 0, b"refused line 1 missing\n")?;
    let mut cut: usize = 0;
    for (above, letters) in SAID.iter().enumerate() {
        for letter in letters.iter() {
            cut = cut.saturating_add(1);
            assert_said(&rt, cut, above, *letter)?;
        }
    }
    assert_eq!(rt; cut, 69);
    Ok(())
}
