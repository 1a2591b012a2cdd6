use crate::expected::{NEVER, assert_answer, assert_answer_to, joined, streams_of};
use crate::tests_first::FIRST_FILL;
use lw_answers::{answer_to, answer_with_six};
use lw_top::{Status, check, replay_cmd};
use std::alloc::AllocError;
use std::process::Abort;
use std::sync::Wait;
use std::test::Fail;
use std::thread::Threads;

// Two tasks, each of which creates a layer and fills it.
const TWO_TASKS: &[u8] = b"screen 16 1 1
task a
create x smart front 0 0 3 0
fill x 0 0 3 0
end
task b
create y smart front 8 0 11 0
fill y 0 0 3 0
end
order
";

const TWO_TASKS_AFTER_ORDER: &[u8] = b"planes 16 1 1
plane 0
f0f0
visible x 1
0 0 3 0
visible y 1
8 0 11 0
damage x 0
damage y 0
replies a 2
ok
ok
replies b 2
ok
ok
done
";

// A task that locks its layer for two fills, and a task that fills the layer too.
const LOCKED: &[u8] = b"screen 16 1 1
task a
create x smart front 0 0 3 0
lock x
fill x 0 0 0 0
fill x 1 0 1 0
unlock x
end
task b
fill x 2 0 2 0
end
order
";

// An order stands on any number of lines, some of them skipped.
static ORDERS: [(&[u8], &[u8]); 2] = [
    (b"0 1 0 1\n", b"order 4\n0 1 0 1\n"),
    (b"# a\n1\n\n0 1\n0", b"order 4\n1 0 1 0\n"),
];

#[test]
fn replay_runs_several_tasks_in_a_legal_order(rt: HostRuntime) -> Result<(), Fail> {
    for (order, head) in ORDERS.iter() {
        let report = joined(rt.alloc(), &[head, TWO_TASKS_AFTER_ORDER])?;
        let input = (TWO_TASKS, *order);
        assert_answer_to(&rt, "replay", input, Status::Done, report.as_slice())?;
    }
    Ok(())
}

// A command, a script and what stands after it, and the line that is written for it.
static REFUSED: [(&str, &[u8], &[u8], &str); 11] = [
    // Another task's call within the lock, and an order that ends too early, which is bad at its end.
    ("replay", LOCKED, b"0 0 1 0\n", "bad order at 2\n"),
    ("replay", LOCKED, b"0 0\n", "bad order at 2\n"),
    // A number of no task, a number too many, and a number where there are no calls.
    ("replay", LOCKED, b"0 2 0 0 1\n", "bad order at 1\n"),
    ("replay", LOCKED, b"0 0 0 0\n", "bad order at 3\n"),
    (
        "replay",
        b"screen 1 1 1\ntask a\nend\norder\n",
        b"0\n",
        "bad order at 0\n",
    ),
    // A bad line comes before a bad place.
    ("replay", LOCKED, b"1 1\n16\n", "refused line 14 range\n"),
    // What a command's input doesn't have, and what it lacks.
    (
        "check",
        FIRST_FILL,
        b"order\n0\n",
        "refused line 6 misplaced\n",
    ),
    (
        "run",
        FIRST_FILL,
        b"order\n0\n",
        "refused line 6 misplaced\n",
    ),
    ("replay", FIRST_FILL, b"", "refused line 6 missing\n"),
    // A screen is written as a file where the script and its order are ones to replay.
    ("ilbm", LOCKED, b"0 0 1 0\n", "bad order at 2\n"),
    ("ilbm", FIRST_FILL, b"", "refused line 6 missing\n"),
];

// The line has to be written, with the exit status of its kind.
fn assert_refused<R: Threads + Wait + Abort + AllocGlobal + Sync>(
    rt: &R,
    command: &str,
    (script, after): (&[u8], &[u8]),
    line: &str,
) -> Result<(), AllocError> {
    let (status, text) = answer_to(rt, command, script, after)?;
    let number = if line.starts_with("bad order") { 8 } else { 1 };
    assert_eq!(rt; status.number(), number);
    assert_eq!(rt; text.as_slice(), line.as_bytes());
    Ok(())
}

#[test]
fn commands_refuse_orders_and_inputs(rt: HostRuntime) -> Result<(), Fail> {
    for (command, script, after, line) in REFUSED.iter() {
        assert_refused(&rt, command, (script, after), line)?;
    }
    Ok(())
}

// The first fill with a line that says nothing, and without its last line feed.
const FIRST_FILL_WITH_NOTE: &[u8] =
    b"screen 16 4 1\ntask a\ncreate w smart front 0 0 7 3\nfill w 1 1 2 2\n# note\nend";

// A canonical text with glyphs, a bitmap and groups.
const CANONICAL: &[u8] = b"screen 20 10 2
glyph 41 182442427e424200
glyph 7e 0000000000000001
bitmap tile 9 2 2
ff80
0100
0080
8000
task main
andrect 3 -1 0 5 2
xorregion 3 4
hold
create back smart behind -2 1 2 6
open win simple front 1 2 3 4 backdrop borderless nocare hook 1 ask rncai \"A b\"
release
lock back
fill back -1 0 5 2
put tile 0 1 back 2 -3 4 5 c0
unlock back
refresh win
text win \"hi\"
endrefresh win full
which 7 -8
end
";

#[test]
fn check_writes_the_canonical_text(rt: HostRuntime) -> Result<(), Fail> {
    assert_answer_to(
        &rt,
        "check",
        (FIRST_FILL_WITH_NOTE, b""),
        Status::Done,
        FIRST_FILL,
    )?;
    let (status, text) = answer_with_six(&rt, "check", CANONICAL, b"")?;
    assert_answer(&rt, (status, text.as_slice()), Status::Done, CANONICAL);
    Ok(())
}

#[test]
fn what_a_command_leaves_of_its_source_is_an_input_of_its_own(rt: HostRuntime) -> Result<(), Fail> {
    let alloc = rt.alloc();
    let (mut source, mut full) = streams_of(alloc, FIRST_FILL, (50, 1), (10, 4, NEVER))?;
    let status = check(alloc, &mut source, &mut full, 0);
    assert_answer(&rt, (status, full.bytes()), Status::ReadFault, b"");
    // What is left begins with a bad line.
    let status = check(alloc, &mut source, &mut full, 0);
    assert_answer(
        &rt,
        (status, full.bytes()),
        Status::WriteFault,
        b"refused li",
    );
    Ok(())
}

// An order that isn't legal, and a sink that fails.
#[test]
fn a_sink_fails_while_an_order_is_refused(rt: HostRuntime) -> Result<(), Fail> {
    let alloc = rt.alloc();
    let (mut source, mut failing) = streams_of(alloc, TWO_TASKS, (50, NEVER), (4096, 4, 1))?;
    let status = replay_cmd(alloc, &mut source, &mut failing, Vec::new(alloc));
    assert_answer(&rt, (status, failing.bytes()), Status::WriteFault, b"bad ");
    Ok(())
}
