//! The command `demo`: the run of the plan that two numbers make, and the six lines on the screen that it leaves.

ghost use Rattle.std.specs.Prelude.{◌≡◌, ◌⊎◌, ◌==◌, ◌<◌, ◌≤◌, ◌*◌, ◌++◌, codes, if◌then◌else◌, OnOk, IfOk};
ghost use Rattle.std.specs.List.{count_by, flat_map, range_with_len};
ghost use Rattle.lw_planes.specs.Bitmap.{row_at};
ghost use Rattle.lw_calls.specs.Written.{line_of, spaced};
ghost use Rattle.lw_io.specs.Streams.{change};
ghost use Rattle.lw_top.specs.Demo.{pixels_with, pen_line, demo_lines, demo_text};
ghost use Rattle.lw_top.specs.Outcome.{DemoSaid};

use crate::say::say;
use crate::status::Status;
use lw_backfill::Solid;
use lw_calls::Final;
use lw_gen::plan_of;
use lw_io::Sink;
use lw_locks::Gate;
use lw_planes::Planes;
use lw_tasks::run_tasks;
use lw_text_output::{end_line, push_numbered_line, push_spaced};
use std::alloc::{AllocError, Global};
use std::sync::Wait;
use std::thread::Threads;

// How many calls each task makes.
const CALLS: u32 = 500;

// How many pens the screen has.
const PENS: u8 = 4;

/// Runs the demo of this number with so many tasks, each on a thread, and tells the gate of each call: writes six lines, which
/// the two numbers determine. It may wait, and so promises no return.
pub fn demo<R: Threads + Wait + Sync, K: Sink, G: Gate + Sync>(
    rt: &R,
    alloc: Global,
    number: u32,
    tasks: u32,
    sink: &mut K,
    gate: &G,
) -> Status
    requires some { 1 ≤ tasks }
    requires few { tasks ≤ 16 }
    ensures said { DemoSaid number tasks result (change K.written K.faults sink.old sink.new) }
    ensures untouched { (result ≡ Status.ReadFault) ⊎ (result ≡ Status.NoMemory)
        → sink.new ≡ sink.old }
    ensures count { K.faults sink.old ≤ K.faults sink.new }
{
    match text_of_demo(rt, alloc, number, tasks, gate) {
        Ok(text) => say(sink, text.as_slice(), Status::Done),
        Err(_) => Status::NoMemory,
    }
}

/// What the demo writes. It may wait, and so promises no return.
fn text_of_demo<R: Threads + Wait + Sync, G: Gate + Sync>(
    rt: &R,
    alloc: Global,
    number: u32,
    tasks: u32,
    gate: &G,
) -> Result<Vec<u8>, AllocError>
    requires some { 1 ≤ tasks }
    requires few { tasks ≤ 16 }
    ensures { IfOk result (λ text. text.items ≡ demo_text number tasks) }
{
    let plan = plan_of(alloc, number, tasks)?;
    let run = run_tasks(rt, alloc, &plan, Vec::<Solid>::new(alloc), gate)?;
    lines_of(alloc, number, tasks, &run.last)
}

/// The six lines of a demo that leaves this.
fn lines_of(alloc: Global, number: u32, tasks: u32, last: &Final) -> Result<Vec<u8>, AllocError>
    requires { tasks ≤ 16 }
    ensures { IfOk result (λ text. text.items ≡ demo_lines number tasks last.now.planes) }
{
    let mut text = Vec::new(alloc);
    push_numbers(alloc, &mut text, number, tasks)?;
    push_calls(alloc, &mut text, tasks)?;
    push_pens(alloc, &mut text, &last.planes)?;
    Ok(text)
}

/// Writes the line of the demo's numbers.
fn push_numbers(alloc: Global, out: &mut Vec<u8>, number: u32, tasks: u32) -> Result<(), AllocError>
    ensures { OnOk result (out.new.items ≡ out.old.items ++ line_of (codes "demo" ++ spaced number ++ spaced tasks)) }
{
    out.extend_from_slice(b"demo")?;
    push_spaced(alloc, out, number as usize)?;
    push_spaced(alloc, out, tasks as usize)?;
    end_line(out)
}

/// Writes the line on the calls of so many tasks.
fn push_calls(alloc: Global, out: &mut Vec<u8>, tasks: u32) -> Result<(), AllocError>
    requires { tasks ≤ 16 }
    ensures { OnOk result (out.new.items ≡ out.old.items ++ line_of (codes "calls" ++ spaced (500 * tasks))) }
{
    push_numbered_line(alloc, out, b"calls", (CALLS * tasks) as usize)
}

/// Writes a line on each pen.
fn push_pens(alloc: Global, out: &mut Vec<u8>, screen: &Planes) -> Result<(), AllocError>
    ensures { OnOk result (out.new.items ≡ out.old.items ++ flat_map (pen_line screen.now) (range_with_len 0 4)) }
{
    for pen in 0..PENS {
        push_pen(alloc, out, screen, pen)?;
    }
    Ok(())
}

/// Writes the line on a pen.
fn push_pen(alloc: Global, out: &mut Vec<u8>, screen: &Planes, pen: u8) -> Result<(), AllocError>
    ensures { OnOk result (out.new.items ≡ out.old.items ++ pen_line screen.now pen) }
{
    out.extend_from_slice(b"pen")?;
    push_spaced(alloc, out, pen as usize)?;
    push_spaced(alloc, out, pixels_with(screen, pen) as usize)?;
    end_line(out)
}

/// How many pixels of a bitmap have this pen.
fn pixels_with(screen: &Planes, pen: u8) -> u32
    ensures { result ≡ pixels_with screen.now pen }
{
    let mut count = 0;
    for y in 0..screen.height() {
        count += pixels_in_row(screen, y, pen);
    }
    count
}

/// The same of its row `y`.
fn pixels_in_row(screen: &Planes, y: u32, pen: u8) -> u32
    requires { y < screen.now.height }
    ensures value { result ≡ count_by (λ p. p == pen) (row_at screen.now y) }
    ensures few { result ≤ 2048 }
{
    let mut count = 0;
    for x in 0..screen.width() {
        count += one_if(screen.pen(x, y) == pen);
    }
    count
}

/// What a pixel counts that has the pen or hasn't.
fn one_if(has: bool) -> u32
    ensures value { result ≡ if has then 1 else 0 }
    ensures few { result ≤ 1 }
{
    if has { 1 } else { 0 }
}
