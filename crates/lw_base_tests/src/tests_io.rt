ghost use Rattle.std.specs.Prelude.{◌≡◌, ◌<◌, ◌≤◌, ◌++◌, Some, List, ℕ, length, IsErr, IsErrOf, OnOk};
ghost use Rattle.lw_io.specs.Streams.{Rose};

use lw_io::{
    Failed, MemSink, MemSource, ReadStop, Sink, Source, StdSink, StdSource, read_all, write_all,
};
use std::alloc::{AllocError, Global};
use std::test::Fail;

const TEXT: &[u8] = b"abcde";

#[derive(Clone, Copy, Debug, PartialEq, Eq)]
enum CopyStop {
    Read(ReadStop),
    Write,
}

// A caller by the contracts alone: what the sink holds is what it held before, and then all that
// the source had left.
fn copy<S: Source, K: Sink>(
    alloc: Global,
    source: &mut S,
    sink: &mut K,
    limit: usize,
) -> Result<(), CopyStop>
    requires { limit < usize.MAX }
    ensures done { (text held : List ℕ) → S.left source.old ≡ Some text
        → K.written sink.old ≡ Some held → OnOk result (K.written sink.new ≡ Some (held ++ text)) }
    ensures too_long { (text : List ℕ) → S.left source.old ≡ Some text
        → limit < length text → IsErr result }
    ensures fits { (text : List ℕ) → S.left source.old ≡ Some text
        → length text ≤ limit → IsErrOf result (CopyStop.Read ReadStop.TooLong) → ⊥ }
    ensures read { IsErrOf result (CopyStop.Read ReadStop.Fault)
        → Rose (S.faults source.old) (S.faults source.new) × (K.written sink.new ≡ K.written sink.old) }
    ensures write { IsErrOf result CopyStop.Write
        → Rose (K.faults sink.old) (K.faults sink.new) }
{
    let text = match read_all(alloc, source, limit) {
        Ok(text) => text,
        Err(stop) => return Err(CopyStop::Read(stop)),
    };
    match write_all(sink, &text) {
        Ok(()) => Ok(()),
        Err(Failed) => Err(CopyStop::Write),
    }
}

// What a sink answers to the five bytes, and how many it holds then, where this call fails.
fn count_written(
    alloc: Global,
    room: u8,
    step: u8,
    fails: u32,
) -> Result<(Result<(), Failed>, bool, usize), AllocError>
    requires { 0 < step }
{
    let fails = Vec::from_slice(alloc, &[fails])?;
    let mut sink = MemSink::new(alloc, usize::from(room), usize::from(step), fails)?;
    let answer = write_all(&mut sink, TEXT);
    Ok((answer, TEXT.starts_with(sink.bytes()), sink.bytes().len()))
}

// A source of the five bytes that moves two a call, and whose call with this number fails.
fn faulty(alloc: Global, fails: u32) -> Result<MemSource, AllocError> {
    let fails = Vec::from_slice(alloc, &[fails])?;
    Ok(MemSource::new(Vec::from_slice(alloc, TEXT)?, 2, fails))
}

// How many bytes are read to the end.
fn count_read(alloc: Global, source: &mut MemSource) -> Result<usize, ReadStop> {
    match read_all(alloc, source, 9) {
        Ok(bytes) => Ok(bytes.len()),
        Err(stop) => Err(stop),
    }
}

// The read that fails, and how many bytes are behind it.
static BEHIND: [(u32, usize); 4] = [(0, 5), (1, 3), (2, 1), (3, 0)];

#[test]
fn fault_is_answered_and_not_read_past(rt: HostRuntime) -> Result<(), Fail> {
    let alloc = rt.alloc();
    for (fails, behind) in BEHIND.iter() {
        let mut source = faulty(alloc, *fails)?;
        let answer = count_read(alloc, &mut source);
        assert_eq!(rt;
            answer,
            Err(ReadStop::Fault),
            "{behind} bytes behind the fault"
        );
        // The bytes behind the fault are all there for the next call, in which no read fails.
        assert_eq!(rt; count_read(alloc, &mut source), Ok(*behind));
    }
    Ok(())
}

#[test]
fn want_of_memory_is_not_answered_in_place_of_a_fault(rt: HostRuntime) -> Result<(), Fail> {
    let alloc = rt.alloc();
    for fails in 0..4 {
        let mut source = faulty(alloc, fails)?;
        let first = count_read(alloc, &mut source) == Err(ReadStop::Fault);
        let second = count_read(alloc, &mut source) == Err(ReadStop::Fault);
        // A call that stops for want of memory, where an allocation fails, hasn't met the fault, and
        // leaves it to the next call.
        assert!(rt; first != second);
    }
    Ok(())
}

// A sink's room, how many bytes a call moves, the call that fails, the answer, and how many bytes there are then.
static WRITTEN: [(u8, u8, u32, Result<(), Failed>, usize); 9] = [
    (9, 1, 0, Err(Failed), 0),
    (9, 1, 2, Err(Failed), 2),
    (9, 1, 4, Err(Failed), 4),
    (9, 1, 5, Ok(()), 5),
    (9, 2, 1, Err(Failed), 2),
    (9, 7, 1, Ok(()), 5),
    (5, 2, 3, Ok(()), 5),
    (3, 2, 9, Err(Failed), 3),
    (0, 1, 9, Err(Failed), 0),
];

#[test]
fn sink_holds_what_was_written_before_the_fault(rt: HostRuntime) -> Result<(), Fail> {
    for (room, step, fails, answer, count) in WRITTEN.iter() {
        assert!(rt; *step > 0);
        let got = count_written(rt.alloc(), *room, *step, *fails)?;
        assert_eq!(rt;
            got,
            (*answer, true, *count),
            "room {room}, step {step}, fails at {fails}"
        );
    }
    Ok(())
}

#[test]
fn std_reader_and_writer_carry_the_bytes(rt: HostRuntime) -> Result<(), Fail> {
    let text = [b'x'; 5000];
    let mut room = [0; 5000];
    let mut source = StdSource::new(text.as_slice());
    let mut sink = StdSink::new(room.as_mut_slice());
    assert_eq!(rt; copy(rt.alloc(), &mut source, &mut sink, 5000), Ok(()));
    assert_eq!(rt;
        write_all(&mut sink, b"y"),
        Err(Failed),
        "the writer takes nothing"
    );
    assert_eq!(rt; room.as_slice(), text.as_slice());
    Ok(())
}
