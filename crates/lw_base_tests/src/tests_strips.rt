//! Strips that are composed, parted and handed through a pool.
ghost use Rattle.std.specs.Prelude.{◌≡◌, ◌<◌, IfOk, pos, ◌≤ℤ◌};

use lw_planes::Planes;
use lw_region::Rect;
use lw_strips::{Pool, Strip, assemble, compose, part};
use std::alloc::Global;
use std::test::Fail;

// The solid strip of one pixel of row 0, of 2 planes.
fn pixel(alloc: Global, x: i16, pen: u8) -> Result<Strip, Fail>
    requires low { pos 0 ≤ℤ x }
    requires high { x ≤ℤ pos 100 }
    requires small { pen < 4 }
    ensures { IfOk result (λ strip. strip.planes.depth ≡ 2) }
{
    let rect = Rect::new(x, 0, x, 0).ok_or("out of order")?;
    let mut planes = Planes::new(alloc, 1, 1, 2)?;
    planes.set_pen(0, 0, pen);
    Ok(Strip::new(rect, planes))
}

// A strip with pen 3 at column 1 has a part of its own rectangle, which is given to a pool and claimed back.
#[test]
fn strips_are_composed_and_change_owner(rt: HostRuntime) -> Result<(), Fail> {
    let alloc = rt.alloc();
    let strip = pixel(alloc, 1, 3)?;
    let rect = *strip.rect();
    let planes = compose(alloc, &rect, 2, std::slice::from_ref(&strip))?;
    assert_eq!(rt; planes.pen(0, 0), 3);
    let screen = assemble(alloc, 3, 1, 2, std::slice::from_ref(&strip))?;
    assert_eq!(rt;
        (screen.pen(0, 0), screen.pen(1, 0), screen.pen(2, 0)),
        (0, 3, 0)
    );
    let mut parts = part(alloc, &strip, std::slice::from_ref(&rect))?;
    let mut pool = Pool::new(alloc);
    pool.reserve(parts.len())?;
    pool.give_all(&mut parts);
    assert!(rt; pool.claim(&rect).is_some());
    assert!(rt; pool.claim(&rect).is_none());
    Ok(())
}
