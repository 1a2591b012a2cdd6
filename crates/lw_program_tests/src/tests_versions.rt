//! Scripts of version 2: larger screens, hooks that are replaced, and layers off the screen.
use crate::expected::{assert_answer, joined};
use crate::tests_refusals::assert_refused;
use lw_answers::{answer_through, answer_with_six};
use lw_backfill::{Backfill, Solid};
use lw_locks::{Gate, Spot};
use lw_top::Status;
use std::alloc::{AllocError, Global};
use std::process::Abort;
use std::sync::atomic::{AtomicU32, Ordering};
use std::sync::{Arc, Wait};
use std::test::Fail;
use std::thread::Threads;

// A simple layer whose hook is replaced, and which then is covered and uncovered, and a layer with a bitmap of its own that gets
// a hook in a group, and is never filled; and the report.
const REPLACED: &[u8] = b"layers 2
screen 16 1 2
task a
create w simple front 0 0 3 0 hook 0
hook w 5
create c smart front 0 0 3 0
close c
create s super front 8 0 9 0 4 1
hold
hook s 1
size s 2 0
release
end
";

const REPLACED_REPORT: &[u8] = b"order 7
0 0 0 0 0 0 0
planes 16 1 2
plane 0
f000
plane 1
f000
visible w 1
0 0 3 0
visible s 1
8 0 11 0
damage w 1
0 0 3 0
damage s 0
replies a 7
ok
ok
ok
ok
ok
ok
ok
done
";

#[test]
fn replaced_hooks_are_reported(rt: HostRuntime) -> Result<(), Fail> {
    let (status, text) = answer_with_six(&rt, "run", REPLACED, b"")?;
    assert_answer(
        &rt,
        (status, text.as_slice()),
        Status::Done,
        REPLACED_REPORT,
    );
    Ok(())
}

// Calls of one task on a screen of 16 by 1 pixels with one plane, after a first line or none, and the report behind its numbers
// of the order.
static OFF_SCREEN: [(&str, &str, &str); 5] = [
    // A smart layer leaves the screen by two columns, and comes back with what it had. In version 1 it may not leave.
    (
        "layers 2\n",
        "create w smart front 0 0 3 0\nfill w 0 0 3 0\nmove w -2 0\nwhich -1 0\n",
        "c000\nvisible w 1\n0 0 1 0\ndamage w 0\nreplies a 4\nok\nok\nok\nnone\n",
    ),
    (
        "layers 2\n",
        "create w smart front 0 0 3 0\nfill w 0 0 3 0\nmove w -2 0\nwhich -1 0\nmove w 2 0\n",
        "f000\nvisible w 1\n0 0 3 0\ndamage w 0\nreplies a 5\nok\nok\nok\nnone\nok\n",
    ),
    (
        "",
        "create w smart front 0 0 3 0\nfill w 0 0 3 0\nmove w -2 0\nwhich -1 0\n",
        "f000\nvisible w 1\n0 0 3 0\ndamage w 0\nreplies a 4\nok\nok\nout-of-bounds\nnone\n",
    ),
    // A simple layer loses what leaves the screen.
    (
        "layers 2\n",
        "create s simple front 0 0 3 0\nfill s 0 0 3 0\nmove s -2 0\nmove s 2 0\n",
        "3000\nvisible s 1\n0 0 3 0\ndamage s 1\n0 0 1 0\nreplies a 4\nok\nok\nok\nok\n",
    ),
    // A layer goes as far as a coordinate, and is no wider than the screen.
    (
        "layers 2\n",
        "create w smart front 0 0 3 0\nmove w -32768 0\nmove w -1 0\ncreate t smart front 0 0 16 0\n",
        "0000\nvisible w 0\ndamage w 0\nreplies a 4\nok\nok\nout-of-bounds\nout-of-bounds\n",
    ),
];

// The report of a script's run has to end so.
fn assert_ends<R: Threads + Wait + Abort + AllocGlobal + Sync>(
    rt: &R,
    script: &[u8],
    due: &[u8],
    calls: &str,
) -> Result<(), AllocError> {
    let (status, text) = answer_with_six(rt, "run", script, b"")?;
    assert_eq!(rt; status, Status::Done);
    assert!(rt; text.as_slice().ends_with(due), "{calls}");
    Ok(())
}

#[test]
fn layers_off_the_screen_are_reported(rt: HostRuntime) -> Result<(), Fail> {
    let alloc = rt.alloc();
    for (first, calls, rest) in OFF_SCREEN.iter() {
        let script = format!(in alloc; "{first}screen 16 1 1\ntask a\n{calls}end\n")?;
        let due = format!(in alloc; "\nplanes 16 1 1\nplane 0\n{rest}done\n")?;
        assert_ends(&rt, script.as_bytes(), due.as_bytes(), calls)?;
    }
    Ok(())
}

// A script without calls on a screen of 2,048 columns, in version 1 and in version 2.
const WIDE: &str = "screen 2048 1 1\ntask a\nend\n";

const WIDE_2: &[u8] = b"layers 2\nscreen 2048 1 1\ntask a\nend\n";

// The report's text before the row and behind it.
const BEFORE_ROW: &[u8] = b"order 0\nplanes 2048 1 1\nplane 0\n";

const BEHIND_ROW: &[u8] = b"\nreplies a 0\ndone\n";

#[test]
fn screens_are_wide_in_version_2(rt: HostRuntime) -> Result<(), Fail> {
    assert_refused(&rt, WIDE, "1 range")?;
    let due = joined(rt.alloc(), &[BEFORE_ROW, &[b'0'; 512], BEHIND_ROW])?;
    let (status, text) = answer_with_six(&rt, "run", WIDE_2, b"")?;
    assert_answer(&rt, (status, text.as_slice()), Status::Done, due.as_slice());
    Ok(())
}

// What stands before and behind the line of the screen, the lines on a hook below the creation of a layer with the first hook,
// and the first bad line with its reason.
static VERSION_LINES: [(&str, &str, &str, &str); 4] = [
    ("", "", "hook w 5", "4 unknown-word"),
    ("layers 1\n", "", "hook w 5", "1 form"),
    ("", "layers 2\n", "hook w 5", "2 unknown-word"),
    ("layers 2\n", "", "hook w 0", "5 hook-used"),
];

#[test]
fn a_version_has_its_lines(rt: HostRuntime) -> Result<(), Fail> {
    for (before, behind, hook, refused) in VERSION_LINES.iter() {
        let script = format!(in rt.alloc();
            "{before}screen 16 1 2\n{behind}task a\ncreate w simple front 0 0 3 0 hook 0\n{hook}\nend\n"
        )?;
        assert_refused(&rt, script.as_str(), refused)?;
    }
    Ok(())
}

// A hook of pen 1, which counts as long as it is there.
#[derive(Drop)]
struct CountedHook {
    solid: Solid,
    count: Arc<(), Global>,
}

impl Backfill for CountedHook {
    ghost hook = { λ h. ⟦<Solid as Backfill>⟧.hook h.solid };

    fn pen_at(&self, x: i32, y: i32) -> u8 {
        self.solid.pen_at(x, y)
    }

    fn turned(&mut self) {
        self.solid.turned();
    }
}

// A gate that sees after each call how many hooks are there, and counts the calls after which they are as many as they should be.
#[derive(Drop)]
struct HookGate {
    count: Arc<(), Global>,
    right: AtomicU32,
}

// A layer that isn't open yet gets no hook, and the third one stays on the shelf. The layer gets the second one in place of the
// first.
const THREE_HOOKS: &[u8] = b"layers 2
screen 16 1 1
task a
hook w 2
create w simple front 0 0 3 0 hook 0
hook w 1
create v simple front 4 0 7 0
end
";

// How many hooks are there after each call: `hook` drops the former one of its layer, and nothing else drops any.
static HOOKS_LEFT: [usize; 4] = [3, 3, 2, 2];

impl Gate for HookGate {
    fn pass(&self, _task: u32, seq: u32, spot: Spot) {
        let is_right = match (spot, HOOKS_LEFT.get(seq as usize)) {
            (Spot::After, Some(left)) => hooks_of(&self.count) == *left,
            _ => false,
        };
        if is_right {
            self.right.fetch_add(1, Ordering::SeqCst);
        }
    }
}

// How many hooks are there: each has a share of the count, and so have the gate and the test.
fn hooks_of(count: &Arc<(), Global>) -> usize {
    Arc::strong_count(count).saturating_sub(2)
}

// A hook in its box.
fn counted(alloc: Global, count: &Arc<(), Global>) -> Result<Box<CountedHook>, AllocError> {
    let hook = CountedHook {
        solid: Solid::new(1),
        count: Arc::try_clone(count)?,
    };
    Ok(Box::new(alloc, hook)?)
}

// What the run of the script with the three hooks answers, after how many calls as many were there as should be, and how many
// are there at the end.
fn run_with_three<R: Threads + Wait + AllocGlobal + Sync>(
    rt: &R,
    count: &Arc<(), Global>,
) -> Result<(Status, u32, usize), AllocError> {
    let alloc = rt.alloc();
    let mut hooks: Vec<Box<dyn Backfill + Send>> = Vec::new(alloc);
    hooks.push(counted(alloc, count)?)?;
    hooks.push(counted(alloc, count)?)?;
    hooks.push(counted(alloc, count)?)?;
    let gate = HookGate {
        count: Arc::try_clone(count)?,
        right: AtomicU32::new(0),
    };
    let (status, _) = answer_through(rt, hooks, &gate, "run", THREE_HOOKS, b"")?;
    Ok((status, gate.right.load(Ordering::SeqCst), hooks_of(count)))
}

#[test]
fn a_replaced_hook_is_dropped_once(rt: HostRuntime) -> Result<(), Fail> {
    let count = Arc::new(rt.alloc(), ())?;
    // What stayed is dropped at the end.
    assert_eq!(rt; run_with_three(&rt, &count)?, (Status::Done, 4, 0));
    Ok(())
}
