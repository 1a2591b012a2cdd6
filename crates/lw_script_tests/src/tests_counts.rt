use crate::tests_refused::refusal_of;
use lw_grammar::{Form, Reason};
use std::alloc::{AllocError, Global};
use std::test::Fail;

// What stands before many equal lines, and such a line with @ for its number.
type Lines = (&'static str, &'static str);

const CALLS: Lines = ("layers 2\nscreen 16 4 1\ntask a\n", "clearregion 0\n");

const LAYERS: Lines = (
    "layers 2\nscreen 16 4 1\ntask a\n",
    "create n@ smart front 0 0 7 3\n",
);

// Lines of a script of version 2, how many there are, what stands after them, and the first bad line with its reason.
static COUNTED: [(Lines, u32, &str, u32, Reason); 8] = [
    // 128 layer names, of which a line may have two.
    (LAYERS, 127, "infront x x\n", 132, Reason::Missing),
    (LAYERS, 127, "infront x y\n", 131, Reason::TooMany),
    (LAYERS, 128, "front x\n", 132, Reason::TooMany),
    (LAYERS, 128, "lock x\n", 132, Reason::TooMany),
    // 16,384 calls of a task.
    (CALLS, 16383, "which 0 0\n", 16388, Reason::Missing),
    (CALLS, 16384, "which 0 0\n", 16388, Reason::TooMany),
    // Names are counted through all tasks, and calls in each task anew.
    (LAYERS, 128, "end\ntask b\nfront x\n", 134, Reason::TooMany),
    (
        CALLS,
        16384,
        "end\ntask b\nwhich 0 0\n",
        16391,
        Reason::Missing,
    ),
];

// A line with its number.
fn line_of(alloc: Global, line: &str, number: u32) -> Result<String, AllocError> {
    match line.split_once('@') {
        Some((front, rest)) => format!(in alloc; "{front}{number}{rest}"),
        None => String::from_str(alloc, line),
    }
}

// So many lines between two texts.
fn script_of(
    alloc: Global,
    (before, line): Lines,
    count: u32,
    after: &str,
) -> Result<String, AllocError> {
    let mut script = String::from_str(alloc, before)?;
    for number in 0..count {
        let numbered = line_of(alloc, line, number)?;
        script.push_str(numbered.as_str())?;
    }
    script.push_str(after)?;
    Ok(script)
}

#[test]
fn version_2_has_128_names_and_16384_calls(rt: HostRuntime) -> Result<(), Fail> {
    let alloc = rt.alloc();
    for (lines, count, after, line, reason) in COUNTED.iter() {
        let script = script_of(alloc, *lines, *count, after)?;
        let refusal = refusal_of(alloc, script.as_bytes(), Form::Plain)?;
        assert_eq!(rt; refusal, Some((*line, *reason)), "{after}");
    }
    Ok(())
}
