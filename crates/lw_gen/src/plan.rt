//! The plan of a demo.
ghost use Rattle.std.specs.Prelude.{◌≡◌, ◌<◌, ◌≤◌, ◌+◌, ◌*◌, ◌%◌, ◌++◌, [], ◌∷◌, map, IfOk, OnOk};
ghost use Rattle.std.specs.List.{flat_map, range_with_len};
ghost use Rattle.lw_calls.specs.Plan.{no_assets};
ghost use Rattle.lw_gen.specs.Generator.{words};
ghost use Rattle.lw_gen.specs.Demo.{task_name, layer_names, layer_between, creations, band_calls, demo_calls, demo_plan};

use crate::generator::push_calls;
use lw_calls::{Assets, Call, Group, Kind, Make, Place, Plan, PlanParts, Sizes, Text};
use std::alloc::{AllocError, Global};

// How many calls a task draws after its three creations.
const DRAWN: u32 = 497;

/// A layer of this kind with these bounds, in front of all others.
fn layer_between(kind: Kind, x0: u32, y0: u32, x1: u32, y1: u32) -> Make
    requires right { x1 < 640 }
    requires lower { y1 < 256 }
    requires columns { x0 ≤ x1 }
    requires rows { y0 ≤ y1 }
    ensures { result ≡ layer_between kind x0 y0 x1 y1 }
{
    Make {
        kind,
        place: Place::Front,
        x: x0 as i32,
        y: y0 as i32,
        w: (x1 + 1 - x0) as i32,
        h: (y1 + 1 - y0) as i32,
        backdrop: false,
        hook: None,
        bits_w: 0,
        bits_h: 0,
    }
}

/// The creations of a task's three layers, from slot `first` on, in the columns `left` to `right`.
fn creations(alloc: Global, first: u32, left: u32, right: u32) -> Result<Vec<Call>, AllocError>
    requires first { first ≤ 45 }
    requires right { right < 640 }
    requires wide { left + 16 ≤ right }
    ensures { IfOk result (λ calls. calls.items ≡ creations first left right) }
{
    let back = layer_between(Kind::Simple, left, 0, right, 127);
    let middle = layer_between(Kind::Smart, left + 8, 32, right, 200);
    let front = layer_between(Kind::Smart, left, 64, right - 8, 255);
    Ok(vec![in alloc;
        Call::Create {
            slot: first,
            make: back
        },
        Call::Create {
            slot: first + 1,
            make: middle
        },
        Call::Create {
            slot: first + 2,
            make: front
        },
    ]?)
}

/// The word with which a task starts.
fn start_word(number: u32, task: u32) -> u32
    ensures { result ≡ (number + task) % words }
{
    ((u64::from(number) + u64::from(task)) % 2_147_483_648) as u32
}

/// The calls of a task whose band has so many columns.
fn calls_in_band(
    alloc: Global,
    number: u32,
    task: u32,
    columns: u32,
) -> Result<Vec<Call>, AllocError>
    requires task { task ≤ 15 }
    requires wide { 17 ≤ columns }
    requires inside { task * columns + columns ≤ 640 }
    ensures { IfOk result (λ calls. calls.items ≡ band_calls number task columns) }
{
    let left = task * columns;
    let mut calls = creations(alloc, 3 * task, left, left + columns - 1)?;
    push_calls(
        &mut calls,
        DRAWN,
        3 * task,
        columns,
        start_word(number, task),
    )?;
    Ok(calls)
}

/// The calls of a task.
fn calls_of(alloc: Global, number: u32, tasks: u32, task: u32) -> Result<Vec<Call>, AllocError>
    requires task { task < tasks }
    requires few { tasks ≤ 16 }
    ensures { IfOk result (λ calls. calls.items ≡ demo_calls number tasks task) }
{
    calls_in_band(alloc, number, task, 640 / tasks)
}

/// The calls of all tasks.
fn call_lists(alloc: Global, number: u32, tasks: u32) -> Result<Vec<Vec<Call>>, AllocError>
    requires few { tasks ≤ 16 }
    ensures { IfOk result
        (λ lists. map (λ calls. calls.items) lists.items ≡ map (demo_calls number tasks) (range_with_len 0 tasks)) }
{
    let mut lists = Vec::new(alloc);
    for task in 0..tasks {
        lists.push(calls_of(alloc, number, tasks, task)?)?;
    }
    Ok(lists)
}

/// No groups, for each task.
fn no_groups(alloc: Global, tasks: u32) -> Result<Vec<Vec<Group>>, AllocError>
    ensures { IfOk result (λ lists. map (λ groups. groups.items) lists.items ≡ map (λ task. []) (range_with_len 0 tasks)) }
{
    let mut lists = Vec::new(alloc);
    for _ in 0..tasks {
        lists.push(Vec::new(alloc))?;
    }
    Ok(lists)
}

/// The names of the tasks.
fn task_names(alloc: Global, tasks: u32) -> Result<Vec<Text>, AllocError>
    ensures { IfOk result (λ names. names.items ≡ map task_name (range_with_len 0 tasks)) }
{
    let mut names = Vec::new(alloc);
    for task in 0..tasks {
        names.push(Text::new(task_name(alloc, task)?))?;
    }
    Ok(names)
}

/// A task's name: `t`, and its number.
fn task_name(alloc: Global, task: u32) -> Result<Vec<u8>, AllocError>
    ensures { IfOk result (λ name. name.items ≡ task_name task) }
{
    Ok(format!(in alloc; "t{task}")?.into_bytes())
}

/// The name of a task's layer: the task's name, and this letter.
fn layer_name(alloc: Global, task: u32, letter: u8) -> Result<Text, AllocError>
    ensures { IfOk result (λ name. name ≡ task_name task ++ letter ∷ []) }
{
    let mut name = task_name(alloc, task)?;
    name.push(letter)?;
    Ok(Text::new(name))
}

/// Adds the names of a task's layers.
fn push_layer_names(alloc: Global, names: &mut Vec<Text>, task: u32) -> Result<(), AllocError>
    ensures { OnOk result (names.new.items ≡ names.old.items ++ layer_names task) }
{
    names.push(layer_name(alloc, task, b'a')?)?;
    names.push(layer_name(alloc, task, b'b')?)?;
    names.push(layer_name(alloc, task, b'c')?)?;
    Ok(())
}

/// The names of all layers, by slot.
fn slot_names(alloc: Global, tasks: u32) -> Result<Vec<Text>, AllocError>
    ensures { IfOk result (λ names. names.items ≡ flat_map layer_names (range_with_len 0 tasks)) }
{
    let mut names = Vec::new(alloc);
    for task in 0..tasks {
        push_layer_names(alloc, &mut names, task)?;
    }
    Ok(names)
}

/// What a script hands in that has neither glyphs nor bitmaps.
fn no_assets(alloc: Global) -> Assets
    ensures { result ≡ no_assets }
{
    Assets {
        glyphs: [[0; 8]; 95],
        bitmaps: Vec::new(alloc),
    }
}

/// The plan of the demo of this number with 1 to 16 tasks.
pub fn plan_of(alloc: Global, number: u32, tasks: u32) -> Result<Plan, AllocError>
    requires some { 1 ≤ tasks }
    requires few { tasks ≤ 16 }
    ensures { IfOk result (λ plan. plan ≡ demo_plan number tasks) }
{
    let sizes = Sizes {
        version: 1,
        width: 640,
        height: 256,
        depth: 2,
        slots: 3 * tasks,
        tasks,
        hooks: 0,
        bitmaps: 0,
    };
    Ok(Plan::new(PlanParts {
        sizes,
        slot_names: slot_names(alloc, tasks)?,
        task_names: task_names(alloc, tasks)?,
        bitmap_names: Vec::new(alloc),
        calls: call_lists(alloc, number, tasks)?,
        groups: no_groups(alloc, tasks)?,
        pairs: Vec::new(alloc),
        assets: no_assets(alloc),
    }))
}
