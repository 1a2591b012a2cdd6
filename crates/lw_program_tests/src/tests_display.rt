//! The command `display`: scenes on a display, and lines that are refused.
use crate::expected::{assert_answer_to, assert_read, assert_written, streams_of};
use lw_io::MemSink;
use lw_top::{Reason, Status, display_cmd};
use std::alloc::{AllocError, Global};
use std::test::Fail;

// A screen with a layer in its left half, of which four pixels are filled, and before its lower half one that is filled whole.
const TWO_SCENES: &[u8] =
    b"display 16 4\nscene a 0\nscreen 16 4 1\ntask a\ncreate w smart front 0 0 7 3\nfill w 1 1 2 2\nend\norder\n0 0\nendscene\n\
    scene b 2\nscreen 16 2 1\ntask a\ncreate w smart front 0 0 15 1\nfill w 0 0 15 1\nend\norder\n0 0\nendscene\n";

const TWO_SHOWN: &[u8] =
    b"display 16 4 2\nrows 0 1 a 0\nrows 2 3 b 0\nplanes 16 4 1\nplane 0\n0000\n6000\nffff\nffff\ndone\n";

// An act behind them, and what is written then.
const DRAGGED: &[u8] =
    b"display 16 4 2\nrows 0 2 a 0\nrows 3 3 b 0\nplanes 16 4 1\nplane 0\n0000\n6000\n6000\nffff\ndone\n";

const BEHIND: &[u8] =
    b"display 16 4 1\nrows 0 3 a 0\nplanes 16 4 1\nplane 0\n0000\n6000\n6000\n0000\ndone\n";

// What stands behind the two scenes, and the text.
static SHOWN: [(&[u8], &[u8]); 3] = [
    (b"", TWO_SHOWN),
    (b"drag b 1\n", DRAGGED),
    (b"toback b\n", BEHIND),
];

#[test]
fn screens_are_shown_dragged_and_put_behind(rt: HostRuntime) -> Result<(), Fail> {
    for (acts, text) in SHOWN.iter() {
        assert_answer_to(&rt, "display", (TWO_SCENES, acts), Status::Done, text)?;
    }
    Ok(())
}

// What stands behind the two scenes, the answer, and its text.
static REFUSED: [(&[u8], Status, &[u8]); 3] = [
    (
        b"tofront b\ndrag c 1\n",
        Status::Refused {
            line: 21,
            reason: Reason::NoName,
        },
        b"refused line 21 no-name\n",
    ),
    (
        b"scene c 3\nscreen 1 1 1\nglow\n",
        Status::Refused {
            line: 22,
            reason: Reason::UnknownWord,
        },
        b"refused line 22 unknown-word\n",
    ),
    // An order without the task's one call.
    (
        b"scene c 3\nscreen 1 1 1\ntask a\nwhich 0 0\nend\norder\nendscene\ndrag d 1\n",
        Status::RefusedOrder { line: 26 },
        b"refused line 26 bad-order\n",
    ),
];

#[test]
fn a_show_is_refused_at_its_first_bad_line(rt: HostRuntime) -> Result<(), Fail> {
    for (behind, due, line) in REFUSED.iter() {
        assert_answer_to(&rt, "display", (TWO_SCENES, behind), *due, line)?;
        assert_eq!(rt; due.number(), 1);
    }
    Ok(())
}

// What the call answers, and the sink into which it writes, where a read of 16 bytes fails and a write of so many, each counted
// from 0.
fn answer_through_faults(
    alloc: Global,
    (read_fault, step, write_fault): (u32, usize, u32),
) -> Result<(Status, MemSink), AllocError> {
    let writes = (4096, step, write_fault);
    let (mut source, mut sink) = streams_of(alloc, TWO_SCENES, (16, read_fault), writes)?;
    let status = display_cmd(alloc, &mut source, &mut sink);
    Ok((status, sink))
}

#[test]
fn each_read_of_a_show_fails_in_turn(rt: HostRuntime) -> Result<(), Fail> {
    // The reads of 16 bytes each, and one that finds the end.
    let reads = (TWO_SCENES.len() / 16 + 2) as u32;
    for fault in 0..=reads {
        let (status, sink) = answer_through_faults(rt.alloc(), (fault, 4096, 1_000))?;
        assert_read(&rt, (status, sink.bytes()), fault < reads, TWO_SHOWN);
    }
    Ok(())
}

#[test]
fn each_write_of_a_show_fails_in_turn(rt: HostRuntime) -> Result<(), Fail> {
    for fault in 0..=TWO_SHOWN.len() {
        let (status, sink) = answer_through_faults(rt.alloc(), (1_000, 1, fault as u32))?;
        assert_written(&rt, (status, sink.bytes()), fault, TWO_SHOWN);
    }
    Ok(())
}
