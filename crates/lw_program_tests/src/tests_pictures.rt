//! The commands `ilbm` and `bitmap`: a screen as an ILBM file, and a file as a script's bitmap.
use crate::expected::{
    NEVER, USUAL, assert_answer, assert_answer_to, assert_read, assert_written, joined, streams_of,
    words_of,
};
use crate::tests_first::FIRST_FILL;
use crate::tests_told::told;
use lw_io::MemSink;
use lw_locks::OpenGate;
use lw_top::{Status, bitmap_cmd, ilbm_cmd};
use std::alloc::{AllocError, Global};
use std::process::Abort;
use std::sync::Wait;
use std::test::Fail;
use std::thread::Threads;

// The screen of the first fill as a file: FORM, BMHD, and in BODY a copy of the two bytes of each row.
const FILE: &[u8] = &[
    b'F', b'O', b'R', b'M', 0, 0, 0, 52, b'I', b'L', b'B', b'M', b'B', b'M', b'H', b'D', 0, 0, 0,
    20, 0, 16, 0, 4, 0, 0, 0, 0, 1, 0, 1, 0, 0, 0, 1, 1, 0, 16, 0, 4, b'B', b'O', b'D', b'Y', 0, 0,
    0, 12, 1, 0, 0, 1, 96, 0, 1, 96, 0, 1, 0, 0,
];

const LINES: &[u8] = b"bitmap b 16 4 1\n0000\n6000\n6000\n0000\n";

const ORDER: &[u8] = b"order\n0 0\n";

// What the program answers to the words `bitmap b` and an input, and the sink into which it writes.
fn bitmap_of<R: Threads + Wait + AllocGlobal + Sync>(
    rt: &R,
    input: &[u8],
) -> Result<(Status, MemSink), AllocError> {
    let alloc = rt.alloc();
    let words = words_of(alloc, &["bitmap", "b"])?;
    let writes = (4096, USUAL, NEVER);
    let (mut source, mut sink) = streams_of(alloc, input, (USUAL, NEVER), writes)?;
    let status = told(
        rt,
        alloc,
        words.as_slice(),
        &mut source,
        &mut sink,
        Vec::new(alloc),
        &OpenGate,
    );
    Ok((status, sink))
}

#[test]
fn a_screen_is_written_as_a_file_and_read_as_a_bitmap(rt: HostRuntime) -> Result<(), Fail> {
    assert_answer_to(&rt, "ilbm", (FIRST_FILL, ORDER), Status::Done, FILE)?;
    let (status, sink) = bitmap_of(&rt, FILE)?;
    assert_answer(&rt, (status, sink.bytes()), Status::Done, LINES);
    Ok(())
}

// How many bytes of the file are kept, of which the one at a place is changed to another; and the first fault.
static BROKEN: [(usize, usize, u8, u32); 7] = [
    (59, 0, b'F', 40),
    // BODY says that it is a byte shorter.
    (60, 47, 11, 59),
    (0, 0, b'F', 0),
    (60, 3, b'm', 3),
    // 1,040 columns, where a bitmap has 1,024 at most.
    (60, 20, 4, 20),
    // Nine planes, and a mask plane.
    (60, 28, 9, 28),
    (60, 29, 1, 29),
];

// The first so many bytes of the file, of which the one at a place is changed to another.
fn broken(alloc: Global, kept: usize, place: usize, byte: u8) -> Result<Vec<u8>, AllocError> {
    let mut file = Vec::from_slice(alloc, FILE.get(..kept).unwrap_or(FILE))?;
    if let Some(changed) = file.as_mut_slice().get_mut(place) {
        *changed = byte;
    }
    Ok(file)
}

// The file's first fault has to be told.
fn assert_fault<R: Threads + Wait + Abort + AllocGlobal + Sync>(
    rt: &R,
    file: &[u8],
    fault: u32,
) -> Result<(), AllocError> {
    let line = format!(in rt.alloc(); "bad picture at {fault}\n")?;
    let (status, sink) = bitmap_of(rt, file)?;
    let due = Status::BadPicture { place: fault };
    assert_answer(rt, (status, sink.bytes()), due, line.as_bytes());
    assert_eq!(rt; status.number(), 9);
    Ok(())
}

#[test]
fn a_picture_has_a_first_fault(rt: HostRuntime) -> Result<(), Fail> {
    for (kept, place, byte, fault) in BROKEN.iter() {
        let file = broken(rt.alloc(), *kept, *place, *byte)?;
        assert_fault(&rt, file.as_slice(), *fault)?;
    }
    Ok(())
}

#[test]
fn an_input_that_is_too_long_is_not_judged(rt: HostRuntime) -> Result<(), Fail> {
    let long = vec![in rt.alloc(); 0u8; 4_194_305]?;
    let (status, sink) = bitmap_of(&rt, long.as_slice())?;
    assert_answer(&rt, (status, sink.bytes()), Status::TooLong, b"too long\n");
    Ok(())
}

// What one of the two calls answers, `bitmap_cmd` of the file or `ilbm_cmd` of the script, and the sink into which it writes,
// where a read of 16 bytes fails and a write of so many, each counted from 0.
fn answer_through_faults(
    alloc: Global,
    is_bitmap: bool,
    (read_fault, step, write_fault): (u32, usize, u32),
) -> Result<(Status, MemSink), AllocError> {
    let input = if is_bitmap {
        joined(alloc, &[FILE])?
    } else {
        joined(alloc, &[FIRST_FILL, ORDER])?
    };
    let writes = (4096, step, write_fault);
    let (mut source, mut sink) = streams_of(alloc, input.as_slice(), (16, read_fault), writes)?;
    let status = if is_bitmap {
        bitmap_cmd(alloc, "b", &mut source, &mut sink)
    } else {
        ilbm_cmd(alloc, &mut source, &mut sink, Vec::new(alloc))
    };
    Ok((status, sink))
}

// The call and its text, and how many reads of 16 bytes there are: the last one finds the end.
static CALLS: [(bool, &[u8], u32); 2] = [(true, LINES, 5), (false, FILE, 6)];

#[test]
fn each_read_of_a_picture_fails_in_turn(rt: HostRuntime) -> Result<(), Fail> {
    for (is_bitmap, text, reads) in CALLS.iter() {
        for fault in 0..=*reads {
            let faults = (fault, 4096, 1_000);
            let (status, sink) = answer_through_faults(rt.alloc(), *is_bitmap, faults)?;
            assert_read(&rt, (status, sink.bytes()), fault < *reads, text);
        }
    }
    Ok(())
}

#[test]
fn each_write_of_a_picture_fails_in_turn(rt: HostRuntime) -> Result<(), Fail> {
    for (is_bitmap, text, _) in CALLS.iter() {
        for fault in 0..=text.len() {
            let faults = (1_000, 1, fault as u32);
            let (status, sink) = answer_through_faults(rt.alloc(), *is_bitmap, faults)?;
            assert_written(&rt, (status, sink.bytes()), fault, text);
        }
    }
    Ok(())
}
