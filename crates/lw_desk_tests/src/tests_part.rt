//! Parts of a screen on which one layer lies in front of half of another.
ghost use Rattle.std.specs.Prelude.{◌≡◌, IfOk, IfSome};
ghost use Rattle.lw_machine.specs.Desk.{Desk};
ghost use Rattle.lw_machine.specs.Screen.{screen_bounds};
ghost use Rattle.lw_strips.specs.Laying.{LiesIn};
ghost use Rattle.lw_runs.specs.Standing.{StandForDesk};

use crate::calls::{SIZES, columns, fill, layer, no_assets};
use lw_backfill::Solid;
use lw_calls::{Call, Kind};
use lw_engine::{LayerEngine, screen_part};
use lw_engine_trait::Engine;
use lw_planes::Planes;
use lw_region::Rect;
use lw_runs::Parts;
use lw_strips::screen_of;
use std::alloc::{AllocError, Global};
use std::test::Fail;

// Makes a task's calls. It fails where one doesn't fit, or memory runs out.
fn make_calls<E: Engine>(
    alloc: Global,
    engine: &E,
    mut parts: Parts<E>,
    calls: &[Call],
) -> Result<Parts<E>, AllocError>
    requires sizes { E.sizes engine.now ≡ SIZES }
    requires desk { (d : Desk) × StandForDesk E.relations (E.sizes engine.now) (E.assets engine.now)
        parts.info parts.cells.items parts.registers.items d }
    ensures { IfOk result (λ made. (d : Desk) × StandForDesk E.relations (E.sizes engine.now) (E.assets engine.now)
        made.info made.cells.items made.registers.items d) }
{
    for call in calls {
        if !SIZES.fits(call) {
            return Err(AllocError);
        }
        parts.step(engine, alloc, 0, call)?;
    }
    Ok(parts)
}

// What the screen shows in a rectangle of it after these calls.
fn part_after(alloc: Global, calls: &[Call], rect: &Rect) -> Result<Planes, AllocError>
    requires { LiesIn rect.now (screen_bounds SIZES) }
{
    let assets = no_assets(alloc);
    let engine = LayerEngine::<Solid>::new(SIZES, &assets);
    let opened = engine.open(alloc, Vec::new(alloc))?;
    let parts = Parts {
        info: opened.info,
        cells: opened.slots,
        registers: opened.registers,
    };
    let Parts { info, cells, .. } = make_calls(alloc, &engine, parts, calls)?;
    screen_part(alloc, &info, cells.as_slice(), rect)
}

// What of the rectangle lies on the screen.
fn on_screen(rect: &Rect) -> Option<Rect>
    ensures { IfSome result (λ r. LiesIn r (screen_bounds SIZES)) }
{
    rect.meet(&screen_of(SIZES.width, SIZES.height))
}

// Columns of the screen, and their row. The layer behind is filled; the one in front begins at its third column, and has its own
// second one filled.
static PARTS: [(i16, i16, [u8; 2]); 4] = [
    (0, 15, [0xd0, 0]),
    (1, 4, [0xa0, 0]),
    (3, 6, [0x80, 0]),
    (6, 15, [0, 0]),
];

#[test]
fn a_part_of_the_screen_has_its_pens(rt: HostRuntime) -> Result<(), Fail> {
    let alloc = rt.alloc();
    let calls = vec![in alloc;
        Call::Create {
            slot: 0,
            make: layer(Kind::Smart, 0, None)
        },
        fill(&rt, 0, 0, 3),
        Call::Create {
            slot: 1,
            make: layer(Kind::Simple, 2, None)
        },
        fill(&rt, 1, 1, 1),
    ]?;
    for (from, to, row) in &PARTS {
        let Some(rect) = on_screen(&columns(&rt, *from, *to)) else {
            return Err(Fail::from("columns of the screen"));
        };
        let part = part_after(alloc, calls.as_slice(), &rect)?;
        assert_eq!(rt; part.width(), rect.width());
        assert_eq!(rt; part.height(), 1);
        assert_eq!(rt; part.depth(), 1);
        assert_eq!(rt; part.row(0, 0), row.as_slice());
    }
    Ok(())
}
