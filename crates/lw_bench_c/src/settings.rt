// What is set up once, before the drawing calls that are repeated: layers, windows over the first one, or its clip region.

use lw_calls::{Call, Kind, Make, Place, RectOp};
use lw_region::Rect;
use std::alloc::Global;

// The creation of a smart layer in front of all others.
pub(crate) fn creation(slot: u32, x: i32, y: i32, w: i32, h: i32) -> Call {
    let make = Make {
        kind: Kind::Smart,
        place: Place::Front,
        x,
        y,
        w,
        h,
        backdrop: false,
        hook: None,
        bits_w: 0,
        bits_h: 0,
    };
    Call::Create { slot, make }
}

// The calls that set a shape up: two layers that cover the screen, the first slot's in front of the other; and then four windows
// over the square that is filled, or windows that cut the layer into 64 clip rectangles, all of which the square meets, or a clip
// region of 128 rectangles in the square, or the mode COMPLEMENT.
pub(crate) fn settings_of(alloc: Global, shape: u32) -> Option<Vec<Call>> {
    let mut calls = Vec::new(alloc);
    calls.push(creation(1, 0, 0, 640, 512)).ok()?;
    calls.push(creation(0, 0, 0, 640, 512)).ok()?;
    match shape {
        9 => few_windows(&mut calls)?,
        10 => many_windows(&mut calls)?,
        11 => clip_region(&mut calls)?,
        13 => calls.push(Call::SetMode { slot: 0, mode: 2 }).ok()?,
        _ => (),
    }
    Some(calls)
}

fn few_windows(calls: &mut Vec<Call>) -> Option<()> {
    for index in 0..4 {
        let (x, y) = (20 + 40 * (index % 2), 20 + 40 * (index / 2));
        calls
            .push(creation(2 + index, x as i32, y as i32, 30, 30))
            .ok()?;
    }
    Some(())
}

// Four rows of seven windows, the first of them at the layer's top: in each row of windows there are 15 rectangles, and one below
// it.
fn many_windows(calls: &mut Vec<Call>) -> Option<()> {
    for index in 0..28 {
        let (x, y) = (8 + 13 * (index % 7), 25 * (index / 7));
        calls
            .push(creation(2 + index, x as i32, y as i32, 8, 15))
            .ok()?;
    }
    Some(())
}

// Eight rows of 16 rectangles that lie apart.
fn clip_region(calls: &mut Vec<Call>) -> Option<()> {
    for index in 0..128 {
        let (x, y) = (3 + 6 * (index % 16), 3 + 12 * (index / 16));
        let rect = Rect::new(x, y, x + 3, y + 7)?;
        calls
            .push(Call::RegRect {
                op: RectOp::Or,
                reg: 0,
                rect,
            })
            .ok()?;
    }
    calls.push(Call::Clip { slot: 0, reg: 0 }).ok()?;
    Some(())
}
