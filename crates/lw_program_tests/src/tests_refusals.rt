use crate::expected::assert_answer_to;
use crate::tests_first::{FIRST_FILL, FIRST_FILL_REPORT};
use lw_answers::answer_with_six;
use lw_top::Status;
use std::alloc::{AllocError, Global};
use std::process::Abort;
use std::sync::Wait;
use std::test::Fail;
use std::thread::Threads;

// Lines after a first line and the beginning of a task, and the first bad line with its reason, where there are six hooks.
static IN_A_TASK: [(&str, &str); 11] = [
    ("\r\n", "3 bad-byte"),
    ("fill w 0  0 1 1\n", "3 spacing"),
    ("text w \"a\" b\n", "3 quote"),
    ("glow w\n", "3 unknown-word"),
    ("glyph 41 0000000000000000\n", "3 misplaced"),
    ("fill w 007 0 9 0\n", "3 form"),
    ("fill w 0 0 40000 0\n", "3 range"),
    ("put b 0 0 w 0 0 1 1 c0\n", "3 no-name"),
    ("unlock w\n", "3 group"),
    ("create w smart front 0 0 3 3 hook 6\n", "3 no-hook"),
    // The hook counts as named though its first layer isn't created, which would leave the screen.
    (
        "create w smart front 10 0 16 3 hook 0\ncreate c smart front 0 0 3 3 hook 0\n",
        "4 hook-used",
    ),
];

// Scripts without a task.
static WITHOUT_A_TASK: [(&str, &str); 4] = [
    (
        "screen 16 4 1\nbitmap b 16 1 1\n0000\nbitmap b 1 1 1\n",
        "4 double-name",
    ),
    ("screen 16 4 1\nbitmap b 15 2 1\nfffe\nffff\n", "4 padding"),
    ("screen 16 4 1\n", "2 missing"),
    ("", "1 missing"),
];

// What stands before many equal pieces, and such a piece with @ for its number.
type Pieces = (&'static str, &'static str);

const BYTES: Pieces = ("", "a");

const CALLS: Pieces = ("screen 16 4 1\ntask a\n", "clearregion 0\n");

const BITMAPS: Pieces = ("screen 16 4 1\n", "bitmap b@ 1 1 1\n8000\n");

const TASKS: Pieces = ("screen 16 4 1\n", "task t@\nend\n");

const LAYERS: Pieces = ("screen 16 4 1\ntask a\n", "create n@ smart front 0 0 7 3\n");

const CALLS_2: Pieces = ("layers 2\nscreen 16 4 1\ntask a\n", "clearregion 0\n");

const LAYERS_2: Pieces = ("layers 2\nscreen 16 4 1\ntask a\n", "behind n@\n");

// Pieces, how many there are, what stands after them, and the first bad line with its reason.
static COUNTED: [(Pieces, u32, &str, &str); 16] = [
    // A line has 512 bytes at most, its line feed aside.
    (BYTES, 513, "\n", "1 line-too-long"),
    (BYTES, 512, "\n", "1 unknown-word"),
    // 64 layer names, of which a line may have two.
    (LAYERS, 63, "infront x x\n", "67 missing"),
    (LAYERS, 63, "infront x y\n", "66 too-many"),
    // 16 bitmaps of one row.
    (BITMAPS, 16, "bitmap c 9 9 8\n", "34 too-many"),
    (BITMAPS, 15, "bitmap c 1 1 1\n", "33 missing"),
    // 4,096 calls of a task.
    (CALLS, 4096, "which 0 0\n", "4099 too-many"),
    (CALLS, 4095, "which 0 0\n", "4099 missing"),
    // Names are counted through all tasks, and calls in each task anew. 16 tasks.
    (LAYERS, 64, "end\ntask b\nfront n63\n", "70 missing"),
    (LAYERS, 64, "end\ntask b\nfront x\n", "69 too-many"),
    (CALLS, 4096, "end\ntask b\nwhich 0 0\n", "4102 missing"),
    (TASKS, 16, "task u\n", "34 too-many"),
    // In version 2 there are 128 layer names, and 16,384 calls of a task.
    (LAYERS_2, 127, "infront x x\n", "132 missing"),
    (LAYERS_2, 127, "infront x y\n", "131 too-many"),
    (CALLS_2, 16384, "which 0 0\n", "16388 too-many"),
    (CALLS_2, 16383, "which 0 0\n", "16388 missing"),
];

/// `run` of a script, with six hooks, is refused on this line for this reason, with its text.
pub fn assert_refused<R: Threads + Wait + Abort + AllocGlobal + Sync>(
    rt: &R,
    script: &str,
    refused: &str,
) -> Result<(), AllocError> {
    let due = format!(in rt.alloc(); "refused line {refused}\n")?;
    let (status, text) = answer_with_six(rt, "run", script.as_bytes(), b"")?;
    assert_eq!(rt; status.number(), 1, "{refused}");
    assert_eq!(rt; text.as_slice(), due.as_bytes());
    Ok(())
}

#[test]
fn each_reason_refuses_a_script(rt: HostRuntime) -> Result<(), Fail> {
    for (lines, refused) in IN_A_TASK.iter() {
        let script = format!(in rt.alloc(); "screen 16 4 1\ntask a\n{lines}")?;
        assert_refused(&rt, script.as_str(), refused)?;
    }
    for (script, refused) in WITHOUT_A_TASK.iter() {
        assert_refused(&rt, script, refused)?;
    }
    Ok(())
}

// So many pieces between two texts.
fn script_of(
    alloc: Global,
    (before, piece): Pieces,
    count: u32,
    after: &str,
) -> Result<String, AllocError> {
    let mut script = String::from_str(alloc, before)?;
    for number in 0..count {
        match piece.split_once('@') {
            Some((front, rest)) => {
                script.push_str(front)?;
                script.push_str(format!(in alloc; "{number}{rest}")?.as_str())?;
            }
            None => script.push_str(piece)?,
        }
    }
    script.push_str(after)?;
    Ok(script)
}

#[test]
fn bytes_names_bitmaps_and_calls_are_counted(rt: HostRuntime) -> Result<(), Fail> {
    let alloc = rt.alloc();
    for (pieces, count, after, refused) in COUNTED.iter() {
        let script = script_of(alloc, *pieces, *count, after)?;
        assert_refused(&rt, script.as_str(), refused)?;
    }
    Ok(())
}

#[test]
fn an_input_has_4194304_bytes_at_most(rt: HostRuntime) -> Result<(), Fail> {
    // Line feeds behind the first fill.
    let feeds = vec![in rt.alloc(); b'\n'; 4_194_236]?;
    let (most, too_many) = (feeds.get(1..).unwrap_or(b""), feeds.as_slice());
    assert_answer_to(
        &rt,
        "run",
        (FIRST_FILL, most),
        Status::Done,
        FIRST_FILL_REPORT,
    )?;
    assert_answer_to(
        &rt,
        "run",
        (FIRST_FILL, too_many),
        Status::TooLong,
        b"too long\n",
    )?;
    Ok(())
}
