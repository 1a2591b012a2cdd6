use crate::expected::{NEVER, USUAL, assert_answer, assert_answer_to, joined, streams_of};
use crate::tests_first::{FIRST_FILL, FIRST_FILL_REPORT};
use lw_io::MemSink;
use lw_top::{Reason, Status, audit};
use std::alloc::{AllocError, Global};
use std::process::Abort;
use std::test::Fail;

// What `audit` answers to the first fill and a report, and the sink into which it writes. The report begins as that of the first
// fill, with so many of its bytes.
fn audit_of(alloc: Global, kept: usize, behind: &[u8]) -> Result<(Status, MemSink), AllocError> {
    let begun = FIRST_FILL_REPORT.get(..kept).unwrap_or(b"");
    let input = joined(alloc, &[FIRST_FILL, b"report\n", begun, behind])?;
    let reads = (USUAL, NEVER);
    let (mut source, mut sink) = streams_of(alloc, input.as_slice(), reads, (4096, USUAL, NEVER))?;
    let status = audit(alloc, &mut source, &mut sink, Vec::new(alloc));
    Ok((status, sink))
}

// What is done to the report of the first fill: so many of its bytes are kept, and this stands behind them; and the answer.
static CHANGED: [(usize, &str, Status, &str); 10] = [
    (108, "", Status::Done, "same\n"),
    (20, "", Status::Differs { place: 20 }, "differs at 20\n"),
    (0, "", Status::Differs { place: 0 }, "differs at 0\n"),
    // A longer report differs where the machine's ends.
    (
        108,
        "\n",
        Status::Differs { place: 108 },
        "differs at 108\n",
    ),
    // The first row with a pixel has one more.
    (
        39,
        "7000\n",
        Status::Differs { place: 39 },
        "differs at 39\n",
    ),
    // An order that isn't legal is told by its place, whatever stands behind it.
    (
        8,
        "0 1\nplanes",
        Status::BadOrder { place: 1 },
        "bad order at 1\n",
    ),
    (
        8,
        "1 0\n",
        Status::BadOrder { place: 0 },
        "bad order at 0\n",
    ),
    // An order that is none comes first: one that goes on, ends too early, or has a number that no task may have.
    (
        8,
        "1 0 0\n",
        Status::Differs { place: 11 },
        "differs at 11\n",
    ),
    (8, "1\n", Status::Differs { place: 9 }, "differs at 9\n"),
    (
        8,
        "0 16\n",
        Status::Differs { place: 11 },
        "differs at 11\n",
    ),
];

#[test]
fn reports_are_audited(rt: HostRuntime) -> Result<(), Fail> {
    for (kept, behind, due, line) in CHANGED.iter() {
        let (status, sink) = audit_of(rt.alloc(), *kept, behind.as_bytes())?;
        assert_answer(&rt, (status, sink.bytes()), *due, line.as_bytes());
    }
    assert_eq!(rt; Status::Differs { place: 39 }.number(), 7);
    Ok(())
}

#[test]
fn audit_is_a_command_of_a_script_with_a_report(rt: HostRuntime) -> Result<(), Fail> {
    let after = joined(rt.alloc(), &[b"# the report\nreport\n", FIRST_FILL_REPORT])?;
    assert_answer_to(
        &rt,
        "audit",
        (FIRST_FILL, after.as_slice()),
        Status::Done,
        b"same\n",
    )?;
    Ok(())
}

// What stands behind the first fill, and the reason for which `audit` refuses it there, with its text.
static NO_REPORT: [(&[u8], Reason, &[u8]); 2] = [
    (b"", Reason::Missing, b"refused line 6 missing\n"),
    (
        b"order\n0 0\n",
        Reason::Misplaced,
        b"refused line 6 misplaced\n",
    ),
];

#[test]
fn an_audit_without_a_report_is_refused(rt: HostRuntime) -> Result<(), Fail> {
    for (after, reason, text) in NO_REPORT.iter() {
        let due = Status::Refused {
            line: 6,
            reason: *reason,
        };
        assert_answer_to(&rt, "audit", (FIRST_FILL, after), due, text)?;
    }
    Ok(())
}

// What is due where the byte at a place of the first fill's report is another one. The order's two numbers stand at the places 8
// and 10: a digit there is the number of a task that there isn't.
fn due_at(place: usize, byte: u8) -> Status {
    match place {
        8 if byte.is_ascii_digit() => Status::BadOrder { place: 0 },
        10 if byte.is_ascii_digit() => Status::BadOrder { place: 1 },
        _ => Status::Differs {
            place: place as u64,
        },
    }
}

// The report from a place on, with this byte there.
fn rest_with(alloc: Global, place: usize, byte: u8) -> Result<Vec<u8>, AllocError> {
    let rest = FIRST_FILL_REPORT.get(place..).unwrap_or(b"");
    let mut changed = Vec::from_slice(alloc, rest)?;
    if let Some(first) = changed.as_mut_slice().first_mut() {
        *first = byte;
    }
    Ok(changed)
}

// The report with this byte at a place, where another one stands, is refused there.
fn assert_seen<R: Abort + AllocGlobal>(rt: &R, place: usize, byte: u8) -> Result<(), AllocError> {
    let alloc = rt.alloc();
    let rest = rest_with(alloc, place, byte)?;
    let (status, _) = audit_of(alloc, place, rest.as_slice())?;
    assert_eq!(rt; status, due_at(place, byte));
    Ok(())
}

#[test]
fn each_byte_of_a_report_is_compared(rt: HostRuntime) -> Result<(), Fail> {
    for place in 0..FIRST_FILL_REPORT.len() {
        for byte in b"17x ".iter() {
            if FIRST_FILL_REPORT.get(place) != Some(byte) {
                assert_seen(&rt, place, *byte)?;
            }
        }
    }
    Ok(())
}

#[test]
fn each_end_of_a_report_is_seen(rt: HostRuntime) -> Result<(), Fail> {
    for place in 0..FIRST_FILL_REPORT.len() {
        let (status, _) = audit_of(rt.alloc(), place, b"")?;
        let due = Status::Differs {
            place: place as u64,
        };
        assert_eq!(rt; status, due);
    }
    Ok(())
}
