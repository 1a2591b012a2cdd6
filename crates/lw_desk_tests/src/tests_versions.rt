//! What a desk for programs does by its version: a slot is opened again, layers go over each edge of the screen, and there are
//! 1,024 slots.
ghost use Rattle.std.specs.Prelude.{◌≤◌};

use crate::calls::{SIZES, columns, fill, layer, plan_of};
use lw_backfill::Solid;
use lw_calls::{Call, Final, Kind, Message, RectOp, Reply, Seen, Text};
use lw_locks::OpenGate;
use lw_region::Rect;
use lw_tasks::run_tasks;
use std::alloc::{AllocError, Global};
use std::process::Abort;
use std::sync::Wait;
use std::test::Fail;
use std::thread;
use std::thread::{Builder, Threads};

// What two tasks' calls leave of a desk on whose shelf a hook of pen 1 lies.
fn left_by_both<R: Threads + Wait + Sync>(
    rt: &R,
    alloc: Global,
    slots: u32,
    first: Vec<Call>,
    second: Vec<Call>,
) -> Result<Final, AllocError>
    requires { slots ≤ 1024 }
{
    let plan = plan_of(alloc, slots, first, second)?;
    let hooks = vec![in alloc; Solid::new(1)]?;
    let run = run_tasks(rt, alloc, &plan, hooks, &OpenGate)?;
    Ok(run.last)
}

// The same where one task alone makes calls.
fn left_by<R: Threads + Wait + Sync>(
    rt: &R,
    alloc: Global,
    calls: Vec<Call>,
) -> Result<Final, AllocError> {
    left_by_both(rt, alloc, SIZES.slots, calls, Vec::new(alloc))
}

// The screen has this row.
fn shows<R: Abort>(rt: &R, last: &Final, row: &[u8]) {
    assert_eq!(rt; last.planes.height(), 1);
    assert_eq!(rt; last.planes.depth(), 1);
    assert_eq!(rt; last.planes.row(0, 0), row);
}

// What is seen of the layer of slot 0.
fn layer_of(last: &Final) -> Result<&Seen, Fail> {
    match last.slots.first() {
        Some(Some(seen)) => Ok(seen),
        _ => Err(Fail::from("a layer")),
    }
}

// What the first task was told of its calls from the tenth on.
fn told_last(last: &Final) -> Result<&[Reply], Fail> {
    let Some(told) = last.replies.first() else {
        return Err(Fail::from("a task"));
    };
    let Some(rest) = told.list().get(9..) else {
        return Err(Fail::from("nine replies"));
    };
    Ok(rest)
}

// The layer of slot 0 is a window with this damage and these messages.
fn is_window<R: Abort>(
    rt: &R,
    last: &Final,
    damage: Rect,
    messages: &[Message],
) -> Result<(), Fail> {
    let seen = layer_of(last)?;
    assert_eq!(rt; seen.damage.rects(), &[damage][..]);
    let Some(told) = &seen.messages else {
        return Err(Fail::from("a window"));
    };
    assert_eq!(rt; told.list(), messages);
    Ok(())
}

fn move_by(dx: i32, dy: i32) -> Call {
    Call::MoveBy { slot: 0, dx, dy }
}

// Creates a layer in the middle of the screen.
fn create(kind: Kind) -> Call {
    let make = layer(kind, 6, None);
    Call::Create { slot: 0, make }
}

// Opens a window there, on a simple layer.
fn open(alloc: Global, hook: Option<u32>, asks: u8) -> Call {
    Call::OpenWindow {
        slot: 0,
        make: layer(Kind::Simple, 6, hook),
        framed: false,
        nocare: false,
        asks,
        title: Text::new(Vec::new(alloc)),
    }
}

// Nine calls: a window has a hook, is active, gets pen 0 and a clip region of its last column, which is filled, loses its
// first two columns, and is closed last.
fn open_and_close<R: Abort>(rt: &R, alloc: Global) -> Result<Vec<Call>, AllocError> {
    let rect = columns(rt, 3, 3);
    Ok(vec![in alloc;
        open(alloc, Some(0), 31),
        Call::Activate { slot: 0 },
        Call::SetA { slot: 0, pen: 0 },
        Call::RegRect {
            op: RectOp::Or,
            reg: 0,
            rect
        },
        Call::Clip { slot: 0, reg: 0 },
        fill(rt, 0, 0, 3),
        move_by(-8, 0),
        move_by(8, 0),
        Call::Close { slot: 0 },
    ]?)
}

// These calls, and then those.
fn followed_by(mut calls: Vec<Call>, more: Vec<Call>) -> Result<Vec<Call>, AllocError> {
    for call in more {
        calls.push(call)?;
    }
    Ok(calls)
}

// The hook gives pen 1 to the columns that the window was created with and to those that come back, and the fill pen 0 to one.
#[test]
fn a_window_has_what_the_next_one_in_its_slot_will_not_have(rt: HostRuntime) -> Result<(), Fail> {
    let alloc = rt.alloc();
    let mut calls = open_and_close(&rt, alloc)?;
    let _ = calls.pop();
    let last = left_by(&rt, alloc, calls)?;
    shows(&rt, &last, &[0x03, 0x80]);
    let messages = [
        Message::Active,
        Message::Change,
        Message::Change,
        Message::Refresh,
    ];
    is_window(&rt, &last, columns(&rt, 0, 1), &messages)
}

#[test]
fn a_layer_in_a_slot_that_is_opened_again_has_nothing_of_a_former_window(
    rt: HostRuntime,
) -> Result<(), Fail> {
    let alloc = rt.alloc();
    let more = vec![in alloc;
        fill(&rt, 0, 0, 1),
        create(Kind::Simple),
        create(Kind::Simple),
        Call::TakeMessage { slot: 0 },
        Call::Unclip { slot: 0 },
        fill(&rt, 0, 0, 1),
    ]?;
    let calls = followed_by(open_and_close(&rt, alloc)?, more)?;
    let last = left_by(&rt, alloc, calls)?;
    shows(&rt, &last, &[0x03, 0]);
    let seen = layer_of(&last)?;
    assert!(rt; seen.damage.rects().is_empty());
    assert!(rt; seen.messages.is_none());
    assert!(rt;
        matches!(
            told_last(&last)?,
            [
                Reply::NotOpen,
                Reply::Done,
                Reply::AlreadyOpen,
                Reply::NotWindow,
                Reply::Nothing,
                Reply::Done,
            ]
        )
    );
    Ok(())
}

// The new window asks for two classes of messages. Its damage is what it lost itself, and a message tells so, as one told the
// former window.
#[test]
fn a_window_in_a_slot_that_is_opened_again_has_nothing_of_the_former_one(
    rt: HostRuntime,
) -> Result<(), Fail> {
    let alloc = rt.alloc();
    let more = vec![in alloc;
        open(alloc, None, 9),
        Call::TakeMessage { slot: 0 },
        Call::Unclip { slot: 0 },
        Call::Activate { slot: 0 },
        move_by(8, 0),
        move_by(-8, 0),
    ]?;
    let calls = followed_by(open_and_close(&rt, alloc)?, more)?;
    let last = left_by(&rt, alloc, calls)?;
    shows(&rt, &last, &[0, 0]);
    is_window(
        &rt,
        &last,
        columns(&rt, 2, 3),
        &[Message::Active, Message::Refresh],
    )?;
    assert!(rt;
        matches!(
            told_last(&last)?,
            [
                Reply::Done,
                Reply::Nothing,
                Reply::Nothing,
                Reply::Done,
                Reply::Done,
                Reply::Done,
            ]
        )
    );
    Ok(())
}

// A filled layer leaves the screen, by half or wholly, and comes back.
fn leaving<R: Abort>(
    rt: &R,
    alloc: Global,
    kind: Kind,
    dx: i32,
    dy: i32,
) -> Result<Vec<Call>, AllocError> {
    Ok(vec![in alloc;
        create(kind),
        fill(rt, 0, 0, 3),
        move_by(dx, dy),
        Call::SetBox {
            slot: 0,
            x: 6,
            y: 0,
            w: 4,
            h: 1
        },
    ]?)
}

// The move over each edge, the row that a simple layer then leaves, and the columns that it lost.
static OVER_EDGES: [(i32, i32, [u8; 2], i16, i16); 4] = [
    (-8, 0, [0, 0xc0], 0, 1),
    (8, 0, [0x03, 0], 2, 3),
    (0, -1, [0, 0], 0, 3),
    (0, 1, [0, 0], 0, 3),
];

// What is left of a layer that went and came back.
fn comes_back<R: Threads + Wait + Sync + Abort>(
    rt: &R,
    alloc: Global,
    kind: Kind,
    dx: i32,
    dy: i32,
) -> Result<Final, AllocError> {
    let calls = leaving(rt, alloc, kind, dx, dy)?;
    left_by(rt, alloc, calls)
}

// The screen has this row, and the layer this damage.
fn has_lost<R: Abort>(rt: &R, last: &Final, row: &[u8], damage: &[Rect]) -> Result<(), Fail> {
    shows(rt, last, row);
    assert_eq!(rt; layer_of(last)?.damage.rects(), damage);
    Ok(())
}

#[test]
fn smart_layers_go_over_each_edge_and_back(rt: HostRuntime) -> Result<(), Fail> {
    for (dx, dy, _, _, _) in &OVER_EDGES {
        let last = comes_back(&rt, rt.alloc(), Kind::Smart, *dx, *dy)?;
        has_lost(&rt, &last, &[0x03, 0xc0], &[])?;
    }
    Ok(())
}

#[test]
fn simple_layers_lose_what_goes_over_an_edge(rt: HostRuntime) -> Result<(), Fail> {
    for (dx, dy, row, from, to) in &OVER_EDGES {
        let last = comes_back(&rt, rt.alloc(), Kind::Simple, *dx, *dy)?;
        has_lost(&rt, &last, row.as_slice(), &[columns(&rt, *from, *to)])?;
    }
    Ok(())
}

// Sixteen layers in slots that lie apart, the last one in the last slot, each a column further right and in front of the
// former ones. Every other one is filled. Then the first one goes to the front; the fifth one is closed, and another one is
// opened in its slot.
fn arranging<R: Abort>(rt: &R, alloc: Global) -> Result<Vec<Call>, AllocError> {
    let mut calls = Vec::new(alloc);
    for place in 0..16u8 {
        let slot = u32::from(place) * 64 + 63;
        let make = layer(Kind::Smart, i32::from(place), None);
        calls.push(Call::Create { slot, make })?;
        if place % 2 == 0 {
            calls.push(fill(rt, slot, 0, 3))?;
        }
    }
    calls.push(Call::ToFront { slot: 63 })?;
    calls.push(Call::Close { slot: 319 })?;
    let make = layer(Kind::Smart, 4, None);
    calls.push(Call::Create { slot: 319, make })?;
    Ok(calls)
}

// Opens, arranges and closes a desk of as many slots as there may be. The second task runs on this thread.
fn arrange_many<R: Threads + Wait + Sync + Abort + AllocGlobal>(rt: &R) -> Result<(), AllocError> {
    let alloc = rt.alloc();
    let calls = arranging(rt, alloc)?;
    let last = left_by_both(rt, alloc, 1024, Vec::new(alloc), calls)?;
    shows(rt, &last, &[0xf0, 0xaa]);
    assert_eq!(rt; last.slots.len(), 1024);
    assert_eq!(rt; last.slots.iter().filter(|slot| slot.is_some()).count(), 16);
    Ok(())
}

// An arrangement takes each lock in a call of its own within the one before, and so do the desk's start and its end. What is
// built without optimization (`rt try`) needs more for 1,024 of them than the 8 MiB that a thread mostly has.
const STACK: usize = 0x100_0000;

#[test]
fn a_desk_of_1024_slots_is_opened_arranged_and_closed_on_a_thread(
    rt: HostRuntime,
) -> Result<(), Fail> {
    let is_done = thread::scope(thread::scope_env(), &rt, |scope| {
        let thread = Builder::new().stack_size(STACK);
        match thread.spawn_scoped(scope, || arrange_many(&rt).is_ok()) {
            Ok(handle) => handle.join(&rt),
            Err(_) => false,
        }
    });
    assert!(rt; is_done);
    Ok(())
}
