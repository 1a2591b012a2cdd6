//! Scripts with windows of two layers, which are read as the groups that they stand for.
use crate::tests_refused::refusal_of;
use crate::tests_script::read_short;
use lw_calls::{Pair, Plan};
use lw_grammar::{Form, Reason};
use std::process::Abort;
use std::test::Fail;

// Lines of a task on a screen of 100 by 60, the line of the whole script that is refused, and the reason.
static REFUSED: [(&str, u32, Reason); 20] = [
    // A box has room for a frame, is no larger than the screen, and ends at a coordinate.
    ("gopen h j smart front 0 0 8 14 \"\"\n", 4, Reason::Range),
    ("gopen h j smart front 0 0 9 13 \"\"\n", 4, Reason::Range),
    ("gopen h j smart front 0 0 101 14 \"\"\n", 4, Reason::Range),
    (
        "gopen h j smart front 32760 0 9 14 \"\"\n",
        4,
        Reason::Range,
    ),
    ("gopen h j super front 0 0 9 14 \"\"\n", 4, Reason::Form),
    ("gfront g\n", 4, Reason::NoName),
    (
        "gopen h h smart front 0 0 9 14 \"\"\n",
        4,
        Reason::DoubleName,
    ),
    // A name stands above on the line of an area without a pixel too.
    (
        "area h 0 0 4 0 0 0\ngopen h j smart front 0 0 9 14 \"\"\n",
        5,
        Reason::DoubleName,
    ),
    (
        "gopen g i smart front 0 0 20 20 \"\"\ngbox g 0 0 20 61\n",
        5,
        Reason::Range,
    ),
    (
        "gopen g i smart front 0 0 20 20 \"\"\ngclose i\n",
        5,
        Reason::NoName,
    ),
    (
        "gopen g i smart front 0 0 20 20 \"\"\ngopen h i smart front 0 0 9 14 \"\"\n",
        5,
        Reason::DoubleName,
    ),
    (
        "gopen g i smart front 0 0 20 20 \"\"\nmove g 1 0\n",
        5,
        Reason::Gzz,
    ),
    (
        "gopen g i smart front 0 0 20 20 \"\"\nfront i\n",
        5,
        Reason::Gzz,
    ),
    (
        "gopen g i smart front 0 0 20 20 \"\"\ninfront w g\n",
        5,
        Reason::Gzz,
    ),
    (
        "gopen g i smart front 0 0 20 20 \"\"\nactivate i\n",
        5,
        Reason::Gzz,
    ),
    (
        "gopen g i smart front 0 0 20 20 \"\"\nginfront g g\n",
        5,
        Reason::Gzz,
    ),
    // The part of a window comes before the group.
    (
        "gopen g i smart front 0 0 20 20 \"\"\nlock g\nmove g 1 0\n",
        6,
        Reason::Gzz,
    ),
    (
        "gopen g i smart front 0 0 20 20 \"\"\nhold\ngfront g\n",
        6,
        Reason::Group,
    ),
    // The group of a line is ended with it.
    (
        "gopen g i smart front 0 0 20 20 \"\"\nrelease\n",
        5,
        Reason::Group,
    ),
    (
        "gopen g i smart front 0 0 20 20 \"\"\ngfront g\nactivate g\nclose x\nclose i\n",
        8,
        Reason::Gzz,
    ),
];

#[test]
fn lines_that_part_a_window_are_refused(rt: HostRuntime) -> Result<(), Fail> {
    let alloc = rt.alloc();
    for (lines, line, reason) in REFUSED.iter() {
        let script = format!(in alloc; "layers 2\nscreen 100 60 1\ntask a\n{lines}end\n")?;
        let refusal = refusal_of(alloc, script.as_bytes(), Form::Plain)?;
        assert_eq!(rt; refusal, Some((*line, *reason)), "{lines}");
    }
    Ok(())
}

const WINDOWS: &[u8] = b"layers 2\nscreen 100 60 1\ntask a\ncreate w smart front 0 0 9 9\n\
        gopen g i smart front 0 0 20 20 \"\"\ngopen h j simple behind 5 5 30 30 ask r \"t\"\n\
        ginfront h i\ngbox g 1 2 30 40\nfill i -5 -5 30 30\nactivate g\ngclose h\nend\n";

static PAIRS: [Pair; 2] = [Pair { outer: 1, inner: 2 }, Pair { outer: 3, inner: 4 }];

fn assert_windows<R: Abort>(rt: &R, plan: &Plan) {
    assert_eq!(rt; *plan.pairs(), *PAIRS.as_slice());
    assert_eq!(rt; plan.slot_names().len(), 5);
    assert_eq!(rt; plan.sizes().tasks, 1);
    // One, twice three, thrice two, and two calls; five groups.
    assert_eq!(rt; plan.calls(0).len(), 15);
    assert_eq!(rt; plan.groups(0).len(), 5);
}

#[test]
fn windows_are_read_as_pairs_and_groups(rt: HostRuntime) -> Result<(), Fail> {
    let input = read_short(rt.alloc(), WINDOWS, 0, Form::Plain)?;
    assert_windows(&rt, &input.plan);
    Ok(())
}
