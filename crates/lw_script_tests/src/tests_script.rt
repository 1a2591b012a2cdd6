use lw_calls::{Plan, Text};
use lw_grammar::Form;
use lw_script::{Input, ScriptStop, read};
use std::alloc::Global;
use std::process::Abort;
use std::test::Fail;

/// `read`, for scripts that are short enough for it.
pub fn read_short(
    alloc: Global,
    script: &[u8],
    hooks: u32,
    form: Form,
) -> Result<Input, ScriptStop> {
    if script.len() < 4_294_967_295 {
        return read(alloc, script, hooks, form);
    }
    Err(ScriptStop::Memory)
}

// A script with skipped lines in each part, glyphs, bitmaps, two tasks with groups of each kind, and an order that names a task
// that there isn't.
const WHOLE: &str = "# a script
screen 640 256 2
glyph 41 183c66667e666601
bitmap dot 8 2 1
ff00

# the second row
8100
glyph 20 0000000000000000
bitmap two 17 1 2
ffff8000
00018000
glyph 7e 8000000000000000
task clock
lock log
fill log -8 16 60 40

at log -32768 3
unlock log
text clk \"a b\"
end
# between two tasks
task edit
hold
create Log smart front -5 -6 32767 0
front log
release
refresh clk
endrefresh clk full
end

order
0 1 0
# in the order

15 1
";

// The names have to be these.
fn assert_names<R: Abort>(rt: &R, names: &[Text], due: &[&str]) {
    assert_eq!(rt; names.len(), due.len());
    for (name, text) in names.iter().zip(due) {
        assert_eq!(rt; name.bytes(), text.as_bytes());
    }
}

// What a plan has by number, its names aside.
type Numbers = ((u32, u32, u32), (u32, u32, u32), (u32, u32, u32));

// Version and hooks; the screen's width, height and planes; and how many slots, tasks and bitmaps there are.
fn numbers_of(plan: &Plan) -> Numbers {
    let sizes = plan.sizes();
    (
        (sizes.version, plan.version(), sizes.hooks),
        (sizes.width, sizes.height, sizes.depth),
        (sizes.slots, sizes.tasks, sizes.bitmaps),
    )
}

fn assert_whole<R: Abort>(rt: &R, input: &Input) {
    assert_eq!(rt;
        numbers_of(&input.plan),
        ((1, 1, 3), (640, 256, 2), (3, 2, 2))
    );
    assert_names(rt, input.plan.slot_names(), &["log", "clk", "Log"]);
    assert_names(rt, input.plan.task_names(), &["clock", "edit"]);
    assert_names(rt, input.plan.bitmap_names(), &["dot", "two"]);
    assert_eq!(rt; input.order.tasks(), [0, 1, 0, 15, 1].as_slice());
    assert_eq!(rt; input.rest, WHOLE.len());
}

#[test]
fn a_script_gives_its_sizes_names_and_order(rt: HostRuntime) -> Result<(), Fail> {
    let input = read_short(rt.alloc(), WHOLE.as_bytes(), 3, Form::Ordered)?;
    assert_whole(&rt, &input);
    Ok(())
}

#[test]
fn a_first_line_gives_version_2(rt: HostRuntime) -> Result<(), Fail> {
    let script = "# note\nlayers 2\nscreen 2048 1025 1\ntask a\nhook w 1\nend\n";
    let input = read_short(rt.alloc(), script.as_bytes(), 2, Form::Plain)?;
    assert_eq!(rt;
        numbers_of(&input.plan),
        ((2, 2, 2), (2048, 1025, 1), (1, 1, 0))
    );
    Ok(())
}

// Inputs, and where what stands after their line `report` begins: at their end where there is no such line.
static RESTS: [(Form, &str, usize); 4] = [
    (Form::Plain, "screen 1 1 1\ntask a\nend\n\n# n\n", 29),
    (Form::Ordered, "screen 1 1 1\ntask a\nend\norder", 29),
    (Form::Audited, "screen 1 1 1\ntask a\nend\nreport", 30),
    (
        Form::Audited,
        "screen 1 1 1\n# n\ntask a\nend\n\nreport\n  \x01\" \u{ff}\n",
        36,
    ),
];

// Where what stands behind an input's script begins, and how many numbers of an order and names of layers it has.
fn rest_of(alloc: Global, script: &[u8], form: Form) -> Result<(usize, usize, usize), ScriptStop> {
    let input = read_short(alloc, script, 0, form)?;
    Ok((
        input.rest,
        input.order.tasks().len(),
        input.plan.slot_names().len(),
    ))
}

#[test]
fn a_report_begins_behind_its_line(rt: HostRuntime) -> Result<(), Fail> {
    for (form, script, rest) in RESTS.iter() {
        let found = rest_of(rt.alloc(), script.as_bytes(), *form)?;
        assert_eq!(rt; found, (*rest, 0, 0), "{script}");
    }
    Ok(())
}
