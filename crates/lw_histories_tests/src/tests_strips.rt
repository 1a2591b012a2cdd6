//! Histories of arrangements: before and after each call every place of the screen is in exactly one strip, that of the layer
//! that a plain look at the list gives or of the desktop, and the screen is a plain picture of the layers.
ghost use Rattle.std.specs.Prelude.{◌≡◌, ◌<◌, IfOk};
ghost use Rattle.lw_machine.specs.Desk.{Desk as MachineDesk};
ghost use Rattle.lw_engine.specs.Layers.{AreLayers, layer_relations};
ghost use Rattle.lw_runs.specs.Standing.{StandForDesk};

use lw_backfill::Checker;
use lw_calls::{Assets, Call, Kind, Make, Place, Replies, Reply, Sizes, Text};
use lw_engine::{LayerEngine, LayerInfo, Slot};
use lw_engine_trait::Engine;
use lw_planes::Planes;
use lw_region::Rect;
use lw_runs::Parts;
use lw_stack::Info;
use lw_strips::Strip;
use std::alloc::{AllocError, Global};
use std::process::Abort;
use std::test::Fail;

// Of a desk for programs: layers may lie off the screen, and a closed slot may be opened again.
const SIZES: Sizes = Sizes {
    version: 3,
    width: 16,
    height: 12,
    depth: 4,
    slots: 12,
    tasks: 1,
    hooks: 500,
    bitmaps: 0,
};

// How many arrangements of a history are done at least.
const DONE: u32 = 200;

// Bitmaps and glyphs that nothing uses.
fn no_assets(alloc: Global) -> Assets {
    Assets {
        glyphs: [[0; 8]; 95],
        bitmaps: Vec::new(alloc),
    }
}

// How a layer is painted: pen `a` where its column and row have an even sum, and `b` elsewhere.
#[derive(Clone, Copy)]
struct Paint {
    a: u8,
    b: u8,
}

// What the layer that a call of this number creates is painted with.
fn paint_of(number: u32) -> Paint {
    Paint {
        a: (number % 15) as u8 + 1,
        b: ((number % 15 + 7) % 15) as u8 + 1,
    }
}

// The hook of this number fills a layer as it is painted.
fn hooks(alloc: Global) -> Result<Vec<Checker>, AllocError> {
    let mut hooks = Vec::new(alloc);
    for number in 0..SIZES.hooks {
        let paint = paint_of(number);
        hooks.push(Checker::new(paint.a, paint.b))?;
    }
    Ok(hooks)
}

// Makes a call of the task.
fn made<E: Engine>(
    alloc: Global,
    engine: &E,
    mut parts: Parts<E>,
    call: &Call,
) -> Result<(Parts<E>, Reply), Fail>
    requires sizes { E.sizes engine.now ≡ SIZES }
    requires desk { (d : MachineDesk) × StandForDesk E.relations (E.sizes engine.now) (E.assets engine.now)
        parts.info parts.cells.items parts.registers.items d }
    ensures { IfOk result (λ r. (d : MachineDesk) × StandForDesk E.relations (E.sizes engine.now) (E.assets engine.now)
        r.0.info r.0.cells.items r.0.registers.items d) }
{
    if !SIZES.fits(call) {
        return Err(Fail::from("a call that fits"));
    }
    let reply = parts.step(engine, alloc, 0, call)?;
    Ok((parts, reply))
}

// Gives all pixels of a super-bitmap layer one pen, since it has no hook.
fn filled<E: Engine>(
    alloc: Global,
    engine: &E,
    parts: Parts<E>,
    slot: u32,
    pen: u8,
) -> Result<Parts<E>, Fail>
    requires sizes { E.sizes engine.now ≡ SIZES }
    requires desk { (d : MachineDesk) × StandForDesk E.relations (E.sizes engine.now) (E.assets engine.now)
        parts.info parts.cells.items parts.registers.items d }
    ensures { IfOk result (λ r. (d : MachineDesk) × StandForDesk E.relations (E.sizes engine.now) (E.assets engine.now)
        r.info r.cells.items r.registers.items d) }
{
    let Some(rect) = Rect::new(0, 0, 15, 15) else {
        return Err(Fail::from("a rectangle"));
    };
    let (parts, _) = made(alloc, engine, parts, &Call::SetA { slot, pen })?;
    let (parts, _) = made(alloc, engine, parts, &Call::Fill { slot, rect })?;
    Ok(parts)
}

// Makes the call of this number, and keeps account of how the layer is painted that it creates.
fn arranged<E: Engine>(
    alloc: Global,
    engine: &E,
    parts: Parts<E>,
    paints: &mut [Paint],
    number: u32,
    call: &Call,
) -> Result<(Parts<E>, bool), Fail>
    requires sizes { E.sizes engine.now ≡ SIZES }
    requires desk { (d : MachineDesk) × StandForDesk E.relations (E.sizes engine.now) (E.assets engine.now)
        parts.info parts.cells.items parts.registers.items d }
    ensures { IfOk result (λ r. (d : MachineDesk) × StandForDesk E.relations (E.sizes engine.now) (E.assets engine.now)
        r.0.info r.0.cells.items r.0.registers.items d) }
{
    let (parts, reply) = made(alloc, engine, parts, call)?;
    if !matches!(reply, Reply::Done) {
        return Ok((parts, false));
    }
    match call {
        Call::Create { slot, make } | Call::OpenWindow { slot, make, .. } => {
            let paint = paint_of(number);
            let Some(place) = paints.get_mut(*slot as usize) else {
                return Err(Fail::from("a slot"));
            };
            if make.kind != Kind::SuperBitmap {
                *place = paint;
                return Ok((parts, true));
            }
            *place = Paint {
                a: paint.a,
                b: paint.a,
            };
            Ok((filled(alloc, engine, parts, *slot, paint.a)?, true))
        }
        _ => Ok((parts, true)),
    }
}

// The first layer of the list whose bounds have the place, with its bounds.
fn topmost(info: &Info, x: u8, y: u8) -> Option<(u32, Rect)> {
    for slot in info.order() {
        if let Some(bounds) = info.bounds(*slot) {
            if bounds.has(i32::from(x), i32::from(y)) {
                return Some((*slot, bounds));
            }
        }
    }
    None
}

// The pen that the screen has on a place with this topmost layer: that of its pixel there, or 0 where there is no layer.
fn pen_due(top: &Option<(u32, Rect)>, paints: &[Paint], x: u8, y: u8) -> Option<u8> {
    let Some((slot, bounds)) = top else {
        return Some(0);
    };
    let column = i32::from(x) - i32::from(bounds.min_x());
    let row = i32::from(y) - i32::from(bounds.min_y());
    let paint = paints.get(*slot as usize)?;
    if column % 2 == row % 2 {
        Some(paint.a)
    } else {
        Some(paint.b)
    }
}

// Who has a place of the screen.
#[derive(Clone, Copy, PartialEq, Eq)]
enum Owner {
    Desktop,
    Layer(u32),
}

// Marks a place as an owner's. False where it isn't one of the screen, or was marked before.
fn is_marked(places: &mut [Option<Owner>], x: i32, y: i32, owner: Owner) -> bool {
    let Ok(column) = u32::try_from(x) else {
        return false;
    };
    let Ok(row) = u32::try_from(y) else {
        return false;
    };
    if column >= 16 {
        return false;
    }
    let Some(place) = places.get_mut(row.wrapping_mul(16).wrapping_add(column) as usize) else {
        return false;
    };
    if place.is_some() {
        return false;
    }
    *place = Some(owner);
    true
}

// Marks the places of an owner's strips, of which each is one of the screen, and in no other strip.
fn mark<R: Abort>(rt: &R, places: &mut [Option<Owner>], strips: &[Strip], owner: Owner) {
    for strip in strips {
        let rect = strip.rect();
        for y in i32::from(rect.min_y())..i32::from(rect.max_y()) + 1 {
            for x in i32::from(rect.min_x())..i32::from(rect.max_x()) + 1 {
                assert!(rt; is_marked(places, x, y, owner));
            }
        }
    }
}

// Whose strip each place of the screen is in, row by row.
fn owners_of<R: Abort>(
    rt: &R,
    alloc: Global,
    info: &Info,
    slots: &[Slot<Checker>],
) -> Result<Vec<Option<Owner>>, AllocError> {
    let mut places = Vec::new(alloc);
    for _place in 0..192 {
        places.push(None)?;
    }
    mark(rt, places.as_mut_slice(), info.desktop(), Owner::Desktop);
    for slot in slots {
        let owner = Owner::Layer(slot.cell().slot());
        mark(rt, places.as_mut_slice(), slot.strips(), owner);
    }
    Ok(places)
}

// The place is in a strip of its owner, and the screen has the owner's pen there.
fn is_as_due<R: Abort>(
    rt: &R,
    planes: &Planes,
    places: &[Option<Owner>],
    info: &Info,
    paints: &[Paint],
    x: u8,
    y: u8,
)
    requires column { x < planes.now.width }
    requires row { y < planes.now.height }
{
    let top = topmost(info, x, y);
    let owner = match &top {
        Some((slot, _)) => Owner::Layer(*slot),
        None => Owner::Desktop,
    };
    let place = usize::from(y) * 16 + usize::from(x);
    assert!(rt; places.get(place) == Some(&Some(owner)));
    let pen = planes.pen(u32::from(x), u32::from(y));
    assert_eq!(rt; Some(pen), pen_due(&top, paints, x, y));
}

// Looks at all strips and at the screen that is put together of them.
fn looked_at<R: Abort>(
    rt: &R,
    alloc: Global,
    engine: &LayerEngine<Checker>,
    info: &LayerInfo<Checker>,
    slots: &[Slot<Checker>],
    paints: &[Paint],
) -> Result<(), Fail>
    requires sizes { engine.now.sizes ≡ SIZES }
    requires desk { (d : MachineDesk) × AreLayers engine.now.sizes engine.now.assets.now info.now slots.now d }
{
    let places = owners_of(rt, alloc, info.info(), slots)?;
    let mut replies = Vec::new(alloc);
    replies.push(Replies::new(Vec::new(alloc)))?;
    let last = engine.finish(alloc, info, slots, replies)?;
    let planes = &last.planes;
    assert_eq!(rt; planes.width(), 16);
    assert_eq!(rt; planes.height(), 12);
    for y in 0..12u8 {
        for x in 0..16u8 {
            is_as_due(rt, planes, places.as_slice(), info.info(), paints, x, y);
        }
    }
    Ok(())
}

// A source of numbers that look random.
#[derive(Drop)]
struct Dice {
    seed: u32,
}

impl Dice {
    // A number below `sides`.
    fn roll(&mut self, sides: u16) -> u16
        requires { 0 < sides }
        ensures { result < sides }
    {
        self.seed = self
            .seed
            .wrapping_mul(1_664_525)
            .wrapping_add(1_013_904_223);
        (self.seed / 65_536) as u16 % sides
    }

    // A number from -8 to 8.
    fn step(&mut self) -> i32 {
        i32::from(self.roll(17)) - 8
    }

    // A layer, in part off the screen.
    fn make(&mut self, hook: u32) -> Make {
        let kind = match self.roll(3) {
            0 => Kind::Simple,
            1 => Kind::Smart,
            _ => Kind::SuperBitmap,
        };
        let own = kind == Kind::SuperBitmap;
        Make {
            kind,
            place: if self.roll(2) == 0 {
                Place::Front
            } else {
                Place::Behind
            },
            x: i32::from(self.roll(17)) - 4,
            y: i32::from(self.roll(17)) - 6,
            w: i32::from(self.roll(10)) + 1,
            h: i32::from(self.roll(8)) + 1,
            backdrop: self.roll(8) == 0,
            hook: if own { None } else { Some(hook) },
            bits_w: if own { 12 } else { 0 },
            bits_h: if own { 10 } else { 0 },
        }
    }

    // A call that arranges layers, with the hook of this number if it creates one.
    fn call(&mut self, hook: u32) -> Call {
        let slot = u32::from(self.roll(12));
        match self.roll(11) {
            0 | 1 | 2 => Call::Create {
                slot,
                make: self.make(hook),
            },
            3 => Call::Close { slot },
            4 => Call::ToFront { slot },
            5 => Call::ToBack { slot },
            6 => Call::InFrontOf {
                slot,
                other: u32::from(self.roll(12)),
            },
            7 | 8 => Call::MoveBy {
                slot,
                dx: self.step(),
                dy: self.step(),
            },
            9 => Call::SizeBy {
                slot,
                dw: self.step(),
                dh: self.step(),
            },
            _ => Call::SetBox {
                slot,
                x: i32::from(self.roll(17)) - 4,
                y: i32::from(self.roll(17)) - 6,
                w: i32::from(self.roll(10)) + 1,
                h: i32::from(self.roll(8)) + 1,
            },
        }
    }
}

// So many calls that look random.
fn random_calls(alloc: Global, seed: u32) -> Result<Vec<Call>, AllocError> {
    let mut dice = Dice { seed };
    let mut calls = Vec::new(alloc);
    for number in 0..SIZES.hooks {
        calls.push(dice.call(number))?;
    }
    Ok(calls)
}

// Makes the call of this number, and looks at the strips and the screen after it.
fn turned<'a, R: Abort>(
    rt: &R,
    alloc: Global,
    engine: &LayerEngine<'a, Checker>,
    parts: Parts<LayerEngine<'a, Checker>>,
    paints: &mut [Paint],
    number: u32,
    call: &Call,
) -> Result<(Parts<LayerEngine<'a, Checker>>, bool), Fail>
    requires sizes { engine.now.sizes ≡ SIZES }
    requires desk { (d : MachineDesk) × StandForDesk layer_relations engine.now.sizes engine.now.assets.now
        parts.info parts.cells.items parts.registers.items d }
    ensures { IfOk result (λ r. (d : MachineDesk) × StandForDesk layer_relations engine.now.sizes engine.now.assets.now
        r.0.info r.0.cells.items r.0.registers.items d) }
{
    let (parts, done) = arranged(alloc, engine, parts, paints, number, call)?;
    let Parts {
        info,
        cells,
        registers,
    } = parts;
    looked_at(rt, alloc, engine, &info, cells.as_slice(), paints)?;
    let parts = Parts {
        info,
        cells,
        registers,
    };
    Ok((parts, done))
}

// Makes these calls on a new desk, and looks at the strips and the screen before and after each. Answers how many were done.
fn run<R: Abort>(rt: &R, alloc: Global, assets: &Assets, calls: &[Call]) -> Result<u32, Fail> {
    let engine = LayerEngine::<Checker>::new(SIZES, assets);
    let opened = engine.open(alloc, hooks(alloc)?)?;
    let (info, cells, registers) = (opened.info, opened.slots, opened.registers);
    let mut paints = vec![in alloc; Paint { a: 0, b: 0 }; 12]?;
    looked_at(
        rt,
        alloc,
        &engine,
        &info,
        cells.as_slice(),
        paints.as_slice(),
    )?;
    let mut parts = Parts {
        info,
        cells,
        registers,
    };
    let (mut number, mut count) = (0u32, 0u32);
    for call in calls {
        let (next, done) = turned(
            rt,
            alloc,
            &engine,
            parts,
            paints.as_mut_slice(),
            number,
            call,
        )?;
        parts = next;
        number = number.wrapping_add(1);
        count = count.wrapping_add(u32::from(done));
    }
    Ok(count)
}

#[test]
fn each_place_is_in_one_strip_in_random_histories(rt: HostRuntime) -> Result<(), Fail> {
    let alloc = rt.alloc();
    let assets = no_assets(alloc);
    for seed in 1..3 {
        let calls = random_calls(alloc, seed)?;
        let done = run(&rt, alloc, &assets, calls.as_slice())?;
        assert!(rt; done >= DONE);
    }
    Ok(())
}

// A layer of seven columns and six rows.
fn layer_at(kind: Kind, x: i32, y: i32, hook: u32) -> Make {
    let own = kind == Kind::SuperBitmap;
    Make {
        kind,
        place: Place::Front,
        x,
        y,
        w: 7,
        h: 6,
        backdrop: false,
        hook: if own { None } else { Some(hook) },
        bits_w: if own { 9 } else { 0 },
        bits_h: if own { 8 } else { 0 },
    }
}

#[test]
fn a_window_is_dropped_over_three_layers_and_back(rt: HostRuntime) -> Result<(), Fail> {
    let alloc = rt.alloc();
    let calls = vec![in alloc;
        Call::Create {
            slot: 0,
            make: layer_at(Kind::Simple, 0, 0, 0)
        },
        Call::Create {
            slot: 1,
            make: layer_at(Kind::Smart, 5, 2, 1)
        },
        Call::Create {
            slot: 2,
            make: layer_at(Kind::SuperBitmap, 9, 4, 2)
        },
        Call::OpenWindow {
            slot: 3,
            make: layer_at(Kind::Smart, -4, 7, 3),
            framed: false,
            nocare: false,
            asks: 31,
            title: Text::new(Vec::new(alloc)),
        },
        Call::MoveBy {
            slot: 3,
            dx: 9,
            dy: -4
        },
        Call::MoveBy {
            slot: 3,
            dx: -9,
            dy: 4
        },
    ]?;
    let done = run(&rt, alloc, &no_assets(alloc), calls.as_slice())?;
    assert_eq!(rt; done, 6);
    Ok(())
}
