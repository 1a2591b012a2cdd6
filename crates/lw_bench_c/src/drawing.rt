ghost use Rattle.std.specs.Prelude.{◌≡◌, ◌≤◌, ◌<◌, IfSome};
ghost use Rattle.lw_calls.specs.Limits.{IsWithinLimits};
ghost use Rattle.lw_machine.specs.Desk.{Desk};
ghost use Rattle.lw_runs.specs.Standing.{StandForDesk};

use crate::blits::{blit_of, put_of, scroll_of};
use crate::settings::{creation, settings_of};
use lw_backfill::Solid;
use lw_calls::{Assets, Call, Replies, Sizes, Text};
use lw_engine::LayerEngine;
use lw_engine_trait::Engine;
use lw_planes::Planes;
use lw_region::Rect;
use lw_runs::Parts;
use std::alloc::{AllocError, Global};

// How many letters a text has.
const LETTERS: usize = 80;

// The sizes of a desk with two layers, 28 windows and a bitmap.
fn sizes_of(planes: u32) -> Sizes
    requires some { 1 ≤ planes }
    requires few { planes ≤ 8 }
    ensures limits { IsWithinLimits result }
    ensures task { result.tasks ≡ 1 }
{
    Sizes {
        version: 1,
        width: 640,
        height: 512,
        depth: planes,
        slots: 30,
        tasks: 1,
        hooks: 0,
        bitmaps: 1,
    }
}

// The fill of a square whose left edge is in the middle of a byte.
fn fill_of(side: i16) -> Option<Call> {
    let end = 2_i16.checked_add(side)?;
    let rect = Rect::new(3, 3, end, end)?;
    Some(Call::Fill { slot: 0, rect })
}

// Letters from the left column on.
fn letters(alloc: Global) -> Result<Call, AllocError> {
    let mut text = Vec::new(alloc);
    for index in 0..LETTERS {
        text.push(0x41 + (index % 26) as u8)?;
    }
    Ok(Call::Letters {
        slot: 0,
        text: Text::new(text),
    })
}

// The calls of one repetition: a fill; two lines of 100 pixels, there and back, flat or steep; a scroll by 1 column, by 1 row, or
// by 7 columns and 3 rows the other way; a blit from the bitmap, from the layer behind, or within the layer; a text with the call
// that puts the cursor before it; or a fill again, of a layer that is cut, or under COMPLEMENT.
fn calls_of(alloc: Global, shape: u32, side: i16) -> Option<Vec<Call>> {
    let mut calls = Vec::new(alloc);
    match shape {
        0 | 9..=11 | 13 => calls.push(fill_of(side)?).ok()?,
        1 => {
            calls.push(line_to(99, side)).ok()?;
            calls.push(line_to(0, 0)).ok()?;
        }
        2 => calls.push(scroll_of(side, 1, 0)?).ok()?,
        3 => calls.push(scroll_of(side, 0, 1)?).ok()?,
        4 => calls.push(scroll_of(side, -7, -3)?).ok()?,
        5 => calls.push(put_of(side)).ok()?,
        6 => calls.push(blit_of(1, side)).ok()?,
        7 => calls.push(blit_of(0, side)).ok()?,
        12 => {
            calls.push(line_to(side, 99)).ok()?;
            calls.push(line_to(0, 0)).ok()?;
        }
        _ => {
            calls
                .push(Call::At {
                    slot: 0,
                    x: 0,
                    y: 6,
                })
                .ok()?;
            calls.push(letters(alloc).ok()?).ok()?;
        }
    }
    Some(calls)
}

fn line_to(x: i16, y: i16) -> Call {
    Call::DrawTo { slot: 0, x, y }
}

// Makes one call on the parts, if it fits.
fn make<E: Engine>(
    alloc: Global,
    engine: &E,
    parts: &mut Parts<E>,
    sizes: &Sizes,
    call: &Call,
) -> Option<()>
    requires sizes { E.sizes engine.now ≡ sizes.now }
    requires task { sizes.now.tasks ≡ 1 }
    requires desk { (d : Desk) × StandForDesk E.relations (E.sizes engine.now) (E.assets engine.now)
        parts.old.info parts.old.cells.items parts.old.registers.items d }
    ensures { (d : Desk) × StandForDesk E.relations (E.sizes engine.now) (E.assets engine.now)
        parts.new.info parts.new.cells.items parts.new.registers.items d }
{
    if !sizes.fits(call) {
        return None;
    }
    let _ = parts.step(engine, alloc, 0, call).ok()?;
    Some(())
}

// Makes the calls one after another.
fn make_each<E: Engine>(
    alloc: Global,
    engine: &E,
    parts: &mut Parts<E>,
    sizes: &Sizes,
    calls: &[Call],
) -> Option<()>
    requires sizes { E.sizes engine.now ≡ sizes.now }
    requires task { sizes.now.tasks ≡ 1 }
    requires desk { (d : Desk) × StandForDesk E.relations (E.sizes engine.now) (E.assets engine.now)
        parts.old.info parts.old.cells.items parts.old.registers.items d }
    ensures { (d : Desk) × StandForDesk E.relations (E.sizes engine.now) (E.assets engine.now)
        parts.new.info parts.new.cells.items parts.new.registers.items d }
{
    for call in calls {
        make(alloc, engine, parts, sizes, call)?;
    }
    Some(())
}

// Makes all of the calls so many times.
fn make_often<E: Engine>(
    alloc: Global,
    engine: &E,
    parts: &mut Parts<E>,
    sizes: &Sizes,
    calls: &[Call],
    repetitions: u32,
) -> Option<()>
    requires sizes { E.sizes engine.now ≡ sizes.now }
    requires task { sizes.now.tasks ≡ 1 }
    requires desk { (d : Desk) × StandForDesk E.relations (E.sizes engine.now) (E.assets engine.now)
        parts.old.info parts.old.cells.items parts.old.registers.items d }
    ensures { (d : Desk) × StandForDesk E.relations (E.sizes engine.now) (E.assets engine.now)
        parts.new.info parts.new.cells.items parts.new.registers.items d }
{
    for _turn in 0..repetitions {
        make_each(alloc, engine, parts, sizes, calls)?;
    }
    Some(())
}

// The parts once some calls were made, and then others so many times.
fn drawn<E: Engine>(
    alloc: Global,
    engine: &E,
    parts: Parts<E>,
    sizes: &Sizes,
    settings: &[Call],
    calls: &[Call],
    repetitions: u32,
) -> Option<Parts<E>>
    requires sizes { E.sizes engine.now ≡ sizes.now }
    requires task { sizes.now.tasks ≡ 1 }
    requires desk { (d : Desk) × StandForDesk E.relations (E.sizes engine.now) (E.assets engine.now)
        parts.info parts.cells.items parts.registers.items d }
    ensures { IfSome result (λ made. (d : Desk) × StandForDesk E.relations (E.sizes engine.now) (E.assets engine.now)
        made.info made.cells.items made.registers.items d) }
{
    let mut parts = parts;
    make_each(alloc, engine, &mut parts, sizes, settings)?;
    make_often(alloc, engine, &mut parts, sizes, calls, repetitions)?;
    Some(parts)
}

// The bytes of the screen as one number, so that each of them counts.
fn digest(planes: &Planes) -> u32 {
    let mut sum = 0_u32;
    for plane in 0..planes.depth() {
        sum = digest_of_plane(planes, plane, sum);
    }
    sum
}

fn digest_of_plane(planes: &Planes, plane: u32, before: u32) -> u32
    requires { plane < planes.now.depth }
{
    let mut sum = before;
    for y in 0..planes.height() {
        sum = digest_of_row(planes.row(plane, y), sum);
    }
    sum
}

fn digest_of_row(row: &[u8], before: u32) -> u32 {
    let mut sum = before;
    for byte in row {
        sum = sum.wrapping_mul(31).wrapping_add(u32::from(*byte));
    }
    sum
}

// The glyphs, of which each is the same, and a bitmap of the screen's size.
fn assets_of(alloc: Global, planes: u32) -> Option<Assets>
    requires some { 1 ≤ planes }
    requires few { planes ≤ 8 }
{
    let mut bitmaps = Vec::new(alloc);
    bitmaps
        .push(Planes::new(alloc, 640, 512, planes).ok()?)
        .ok()?;
    Some(Assets {
        glyphs: [[0x5a; 8]; 95],
        bitmaps,
    })
}

pub(crate) fn repeated(
    alloc: Global,
    shape: u32,
    side: i16,
    planes: u32,
    repetitions: u32,
) -> Option<u32>
    requires some { 1 ≤ planes }
    requires few { planes ≤ 8 }
{
    let sizes = sizes_of(planes);
    let assets = assets_of(alloc, planes)?;
    let settings = settings_of(alloc, shape)?;
    let calls = calls_of(alloc, shape, side)?;
    screen_after(
        alloc,
        sizes,
        &assets,
        settings.as_slice(),
        calls.as_slice(),
        repetitions,
    )
}

// The sizes of a desk for programs, with so many slots.
fn sizes_of_slots(slots: u32) -> Sizes
    requires some { 1 ≤ slots }
    requires few { slots ≤ 1024 }
    ensures limits { IsWithinLimits result }
    ensures task { result.tasks ≡ 1 }
{
    Sizes {
        version: 3,
        width: 1024,
        height: 768,
        depth: 8,
        slots,
        tasks: 1,
        hooks: 0,
        bitmaps: 1,
    }
}

// Layers of 200 by 200 pixels in the first slots, of which each is put in front in turn so many times.
pub(crate) fn turned(alloc: Global, slots: u32, layers: u32, repetitions: u32) -> Option<u32>
    requires some { 1 ≤ slots }
    requires few { slots ≤ 1024 }
{
    let sizes = sizes_of_slots(slots);
    let assets = assets_of(alloc, 8)?;
    let mut settings = Vec::new(alloc);
    let mut calls = Vec::new(alloc);
    for slot in 0..layers {
        let x = slot.wrapping_mul(53) % 790;
        let y = slot.wrapping_mul(37) % 540;
        settings
            .push(creation(slot, x as i32, y as i32, 200, 200))
            .ok()?;
        calls.push(Call::ToFront { slot }).ok()?;
    }
    screen_after(
        alloc,
        sizes,
        &assets,
        settings.as_slice(),
        calls.as_slice(),
        repetitions,
    )
}

// The screen, as one number, of a new desk on which some calls were made, and then others so many times.
fn screen_after(
    alloc: Global,
    sizes: Sizes,
    assets: &Assets,
    settings: &[Call],
    calls: &[Call],
    repetitions: u32,
) -> Option<u32>
    requires limits { IsWithinLimits sizes }
    requires task { sizes.tasks ≡ 1 }
{
    let engine = LayerEngine::<Solid>::new(sizes, assets);
    let Ok(opened) = engine.open(alloc, Vec::new(alloc)) else {
        return None;
    };
    let parts = Parts {
        info: opened.info,
        cells: opened.slots,
        registers: opened.registers,
    };
    let parts = drawn(alloc, &engine, parts, &sizes, settings, calls, repetitions)?;
    let Parts { info, cells, .. } = parts;
    let mut replies = Vec::new(alloc);
    replies.push(Replies::new(Vec::new(alloc))).ok()?;
    let last = engine.finish(alloc, &info, cells.as_slice(), replies).ok()?;
    Some(digest(&last.planes))
}
