//! Scripts with areas, which are read as the fills that they stand for.
use crate::tests_refused::refusal_of;
use crate::tests_script::read_short;
use lw_calls::Plan;
use lw_grammar::{Form, Reason};
use lw_script::ScriptStop;
use std::alloc::Global;
use std::test::Fail;

// An area of 6,143 rows, each with another run.
const LARGE: &str = "area v -2048 -2048 4095 -2048 4095 4095\n";

// Lines of a task, and how many calls, groups and layer names they give.
static READ: [(&str, (usize, usize, usize)); 6] = [
    ("area w 0 0 8 0 0 4\n", (4, 1, 1)),
    ("areapat w p 0 0 4 0 4 2 0 2\n", (4, 1, 1)),
    // Without a pixel there is no fill, no group and no name.
    ("area w 0 0 4 0 0 0\n", (0, 0, 0)),
    // In a group of its layer it joins that.
    (
        "lock w\narea w 0 0 8 0 0 4\nwrite w 0 0\nunlock w\n",
        (5, 1, 1),
    ),
    (
        "refresh w\narea w 0 0 4 0 0 0\nendrefresh w part\n",
        (2, 1, 1),
    ),
    (LARGE, (6143, 1, 1)),
];

// How many calls and groups the first task has, and how many layer names there are.
fn counts_of(plan: &Plan) -> (usize, usize, usize) {
    if plan.sizes().tasks == 0 {
        return (0, 0, 0);
    }
    (
        plan.calls(0).len(),
        plan.groups(0).len(),
        plan.slot_names().len(),
    )
}

// The same of a script.
fn counts_read(alloc: Global, script: &[u8]) -> Result<(usize, usize, usize), ScriptStop> {
    let input = read_short(alloc, script, 0, Form::Plain)?;
    Ok(counts_of(&input.plan))
}

#[test]
fn areas_are_read_as_fills(rt: HostRuntime) -> Result<(), Fail> {
    let alloc = rt.alloc();
    for (lines, counts) in READ.iter() {
        let script = format!(in alloc;
            "layers 2\nscreen 16 4 1\npattern p aaaa 5555\ntask a\n{lines}end\n"
        )?;
        let found = counts_read(alloc, script.as_bytes())?;
        assert_eq!(rt; found, *counts, "{lines}");
    }
    Ok(())
}

#[test]
fn a_task_has_no_room_for_a_third_large_area(rt: HostRuntime) -> Result<(), Fail> {
    let alloc = rt.alloc();
    let script = format!(in alloc;
        "layers 2\nscreen 16 4 1\ntask a\n{LARGE}{LARGE}end\ntask b\n{LARGE}{LARGE}{LARGE}"
    )?;
    let refusal = refusal_of(alloc, script.as_bytes(), Form::Plain)?;
    assert_eq!(rt; refusal, Some((10, Reason::TooMany)));
    Ok(())
}
