ghost use Rattle.std.specs.Prelude.{◌≡◌, true, OnOk, IsTrue};
ghost use Rattle.lw_calls.specs.Limits.{call_fits};
ghost use Rattle.lw_calls.specs.Touches.{is_arrangement};
ghost use Rattle.lw_stack.specs.Stack.{IsStack, stack_of};
ghost use Rattle.lw_stack.specs.Desktop.{IsDesktop};
ghost use Rattle.lw_arrange.specs.Areas.{HasArea};

use lw_arrange::{
    Arrangement, PreparedInfo, Step, commit_info, give_up_info, plan_step, prepare_info,
};
use lw_calls::{Call, Kind, Make, Place, Sizes};
use lw_stack::Info;
use lw_strips::{Pool, Strip};
use std::alloc::Global;
use std::process::Abort;
use std::test::Fail;

const SIZES: Sizes = Sizes {
    version: 1,
    width: 16,
    height: 8,
    depth: 1,
    slots: 4,
    tasks: 1,
    hooks: 0,
    bitmaps: 0,
};

// The slot that is on top of each place of the screen: 2 is in front, 0 behind it, and 1 behind both; 3 isn't live.
static ON_TOP: [&[u8; 16]; 8] = [
    b"....22222222....",
    b"..112222222211..",
    b"00002222222211..",
    b"00002222222211..",
    b"00000000111111..",
    b"00000000111111..",
    b"..111111111111..",
    b"..111111111111..",
];

// A layer of w columns and h rows from (x, y) on, in front of all others.
fn create(slot: u32, x: i32, y: i32, w: i32, h: i32) -> Call
    ensures { is_arrangement result ≡ true }
{
    Call::Create {
        slot,
        make: Make {
            kind: Kind::Smart,
            place: Place::Front,
            x,
            y,
            w,
            h,
            backdrop: false,
            hook: None,
            bits_w: 0,
            bits_h: 0,
        },
    }
}

// Creates a layer on LayerInfo alone, whose desktop then gains nothing. Answers how many strips the desktop gives up.
fn put(alloc: Global, info: &mut Info, call: &Call) -> Result<usize, Fail>
    requires all { is_arrangement call.now ≡ true }
    requires sizes { info.old.sizes ≡ SIZES }
    ensures { OnOk result (info.new.sizes ≡ SIZES) }
{
    if !info.sizes().fits(call) {
        return Err(Fail::new("the call doesn't fit"));
    }
    arrange(alloc, info, call)
}

// Makes the call, which fits.
fn arrange(alloc: Global, info: &mut Info, call: &Call) -> Result<usize, Fail>
    requires all { is_arrangement call.now ≡ true }
    requires fits { IsTrue (call_fits info.old.sizes call.now) }
    requires sizes { info.old.sizes ≡ SIZES }
    ensures { OnOk result (info.new.sizes ≡ SIZES) }
{
    let Step::Arranged(plan) = plan_step(alloc, info, &[None; 4], true, 0, call)? else {
        return Err(Fail::new("refused"));
    };
    make(alloc, info, &plan)
}

// Does what was planned.
fn make(alloc: Global, info: &mut Info, plan: &Arrangement) -> Result<usize, Fail>
    requires sizes { plan.now.stack.sizes ≡ info.old.sizes }
    requires area { HasArea info.old plan.now }
    ensures { OnOk result (info.new.sizes ≡ info.old.sizes) }
{
    // Reading the sizes tells the proof what holds of the plan.
    let _ = plan.sizes();
    let next = prepare_info(alloc, info, plan)?;
    take_up(alloc, info, next)
}

// Makes of LayerInfo what was prepared for it.
fn take_up(alloc: Global, info: &mut Info, mut next: PreparedInfo) -> Result<usize, Fail>
    requires stack { IsStack (stack_of info.old.sizes next.after) }
    requires desktop { IsDesktop (stack_of info.old.sizes next.after) next.after.desktop.items }
    ensures { OnOk result (info.new.sizes ≡ info.old.sizes) }
{
    if !next.exchange.gained.is_empty() {
        return Err(Fail::new("the desktop gains"));
    }
    let mut pool = Pool::new(alloc);
    pool.reserve(next.pieces())?;
    give_up_info(&mut next, &mut pool);
    commit_info(info, next, &mut pool);
    Ok(pool.strips().len())
}

fn digit(slot: Option<u32>) -> u8 {
    match slot {
        Some(0) => b'0',
        Some(1) => b'1',
        Some(2) => b'2',
        Some(_) => b'?',
        None => b'.',
    }
}

// How many of the strips have the place.
fn count_at(strips: &[Strip], x: i32, y: i32) -> usize {
    strips.iter().filter(|strip| strip.rect().has(x, y)).count()
}

// Each place has on top what `ON_TOP` tells, and one strip of the desktop just where nothing is.
fn tops_are_right<R: Abort>(rt: &R, info: &Info) {
    for y in 0..8u8 {
        for x in 0..16u8 {
            let top = info.which(i32::from(x), i32::from(y));
            assert_eq!(rt; digit(top), ON_TOP[usize::from(y)][usize::from(x)]);
            let strips = count_at(info.desktop(), i32::from(x), i32::from(y));
            assert_eq!(rt; strips, usize::from(top.is_none()));
        }
    }
}

// What is visible of the slot are the places on which it is on top.
fn visible_is_right<R: Abort>(rt: &R, alloc: Global, info: &Info, slot: u32) -> Result<(), Fail> {
    let shown = info.visible_of(alloc, slot)?;
    for y in 0..8 {
        for x in 0..16 {
            assert_eq!(rt; shown.has(x, y), info.which(x, y) == Some(slot));
        }
    }
    Ok(())
}

// Puts three layers on the screen. What the desktop loses to one layer is one piece or, where other layers cut it, more.
fn put_three<R: Abort>(rt: &R, alloc: Global, info: &mut Info) -> Result<(), Fail>
    requires { info.old.sizes ≡ SIZES }
{
    assert_eq!(rt; put(alloc, info, &create(1, 2, 1, 12, 7))?, 1);
    assert_eq!(rt; put(alloc, info, &create(0, 0, 2, 8, 4))?, 1);
    assert_eq!(rt; put(alloc, info, &create(2, 4, 0, 8, 4))?, 1);
    Ok(())
}

#[test]
fn the_list_tells_what_is_on_top_and_the_desktop_has_the_rest(rt: HostRuntime) -> Result<(), Fail> {
    let alloc = rt.alloc();
    let mut info = Info::new(alloc, &SIZES)?;
    assert!(rt; info.order().is_empty());
    assert!(rt; info.active().is_none());
    assert_eq!(rt; info.desktop().len(), 1);
    put_three(&rt, alloc, &mut info)?;
    assert_eq!(rt; info.order(), [2, 0, 1].as_slice());
    assert!(rt; info.bounds(3).is_none());
    tops_are_right(&rt, &info);
    for slot in 0..4 {
        visible_is_right(&rt, alloc, &info, slot)?;
    }
    Ok(())
}
