//! The calls of two tasks, the plan of them, and how a task makes its own on a desk behind locks.
ghost use Rattle.std.specs.Prelude.{◌≡◌, ◌≤◌, true, length, IfOk};
ghost use Rattle.std.specs.List.{list_all};
ghost use Rattle.lw_calls.specs.Limits.{call_fits};
ghost use Rattle.lw_calls.specs.Plan as plan;

use lw_calls::{
    Assets, Call, CallClass, Kind, Make, Place, Plan, PlanParts, Replies, Reply, Sizes, Text,
    class_of,
};
use lw_engine_trait::Engine;
use lw_locks::{Desk, Gate, Opening, Pass};
use lw_region::Rect;
use std::alloc::{AllocError, Global};
use std::process::Abort;
use std::sync::Wait;

/// Of a desk for programs.
pub const SIZES: Sizes = Sizes {
    version: 3,
    width: 16,
    height: 1,
    depth: 1,
    slots: 2,
    tasks: 2,
    hooks: 1,
    bitmaps: 0,
};

/// A layer of four columns from column `x` on, in front of all others.
pub fn layer(kind: Kind, x: i32, hook: Option<u32>) -> Make {
    Make {
        kind,
        place: Place::Front,
        x,
        y: 0,
        w: 4,
        h: 1,
        backdrop: false,
        hook,
        bits_w: 0,
        bits_h: 0,
    }
}

/// Columns of a layer of one row, from one to another, which isn't further left.
pub fn columns<R: Abort>(rt: &R, from: i16, to: i16) -> Rect {
    Rect::new(from, 0, to, 0).expect(rt, "a rectangle")
}

/// Fills columns of a layer.
pub fn fill<R: Abort>(rt: &R, slot: u32, from: i16, to: i16) -> Call {
    let rect = columns(rt, from, to);
    Call::Fill { slot, rect }
}

/// The calls of a task that creates a layer of four columns from column `x` on, with this hook, and fills its first two.
pub fn calls_of_task(
    rt: &(impl Abort + AllocGlobal),
    slot: u32,
    x: i32,
    hook: Option<u32>,
) -> Result<Vec<Call>, AllocError> {
    let make = layer(Kind::Smart, x, hook);
    Ok(vec![in rt.alloc(); Call::Create { slot, make }, fill(rt, slot, 0, 1)]?)
}

/// Whether both calls of a task were done.
pub fn are_done(replies: &Replies) -> bool {
    matches!(replies.list(), [Reply::Done, Reply::Done])
}

/// No glyph has a pixel, and there is no bitmap.
pub fn no_assets(alloc: Global) -> Assets
    ensures { result ≡ plan.no_assets }
{
    Assets {
        glyphs: [[0; 8]; 95],
        bitmaps: Vec::new(alloc),
    }
}

// So many names without letters.
fn names(alloc: Global, count: u32) -> Result<Vec<Text>, AllocError>
    ensures { IfOk result (λ names. length names.items ≡ count) }
{
    let mut names = Vec::new(alloc);
    for _place in 0..count {
        names.push(Text::new(Vec::new(alloc)))?;
    }
    Ok(names)
}

fn all_fit(sizes: &Sizes, calls: &[Call]) -> bool
    ensures { result ≡ list_all (λ call. call_fits sizes.now call) calls.now }
{
    calls.iter().all(|call| sizes.fits(call))
}

// At most sixty-four calls, each of which fits.
fn may_be_planned(sizes: &Sizes, calls: &[Call]) -> bool
    ensures few { result ≡ true → length calls.now ≤ 64 }
    ensures fit { result ≡ true → list_all (λ call. call_fits sizes.now call) calls.now ≡ true }
{
    calls.len() <= 64 && all_fit(sizes, calls)
}

/// The plan of these two tasks, which has so many slots and no groups. It fails where a call doesn't fit, a task has more than
/// sixty-four, or memory runs out.
pub fn plan_of(
    alloc: Global,
    slots: u32,
    first: Vec<Call>,
    second: Vec<Call>,
) -> Result<Plan, AllocError>
    requires { slots ≤ 1024 }
{
    let sizes = Sizes { slots, ..SIZES };
    if !may_be_planned(&sizes, first.as_slice()) {
        return Err(AllocError);
    }
    if !may_be_planned(&sizes, second.as_slice()) {
        return Err(AllocError);
    }
    let parts = PlanParts {
        sizes,
        slot_names: names(alloc, slots)?,
        task_names: names(alloc, SIZES.tasks)?,
        bitmap_names: Vec::new(alloc),
        calls: vec![in alloc; first, second]?,
        groups: vec![in alloc; Vec::new(alloc), Vec::new(alloc)]?,
        pairs: Vec::new(alloc),
        assets: no_assets(alloc),
    };
    Ok(Plan::new(parts))
}

// Makes a call that takes locks.
fn make_one<E: Engine, N: Opening, R: Wait, G: Gate>(
    rt: &R,
    alloc: Global,
    gate: &G,
    desk: &Desk<E, N>,
    pass: &mut Pass<E, N>,
    call: &Call,
) -> Result<Reply, AllocError>
    requires { N.desk.sizes ≡ SIZES }
    ensures { pass.new.task ≡ pass.old.task }
{
    if matches!(class_of(call), CallClass::OnRegisters) || !SIZES.fits(call) {
        return Err(AllocError);
    }
    if pass.made() == 4_294_967_295 {
        return Err(AllocError);
    }
    let answer = desk.call(rt, alloc, gate, pass, call)?;
    Ok(answer.reply)
}

/// Makes calls of a task one after another, and gives their replies. It fails where one of them isn't a call that takes locks, or
/// memory runs out.
pub fn make_all<E: Engine, N: Opening, R: Wait, G: Gate>(
    rt: &R,
    alloc: Global,
    gate: &G,
    desk: &Desk<E, N>,
    pass: &mut Pass<E, N>,
    calls: &[Call],
) -> Result<Replies, AllocError>
    requires { N.desk.sizes ≡ SIZES }
    ensures { pass.new.task ≡ pass.old.task }
{
    let mut replies = Replies::new(Vec::new(alloc));
    for call in calls {
        let reply = make_one(rt, alloc, gate, desk, pass, call)?;
        replies.push(reply)?;
    }
    Ok(replies)
}
