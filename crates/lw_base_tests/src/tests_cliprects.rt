use crate::shapes::{are, rect_of, region_of};
use lw_cliprects::Parts;
use lw_region::Rect;
use std::alloc::Global;
use std::test::Fail;

const LEAST: i16 = -32768;

const GREATEST: i16 = 32767;

// Bounds, the visible rectangles in them, and the hidden ones that are due, each rectangle by its four bounds.
struct Case {
    bounds: [i16; 4],
    visible: &'static [[i16; 4]],
    hidden: &'static [[i16; 4]],
}

static CASES: [Case; 9] = [
    // Wholly hidden, and wholly visible.
    Case {
        bounds: [0, 0, 9, 9],
        visible: &[],
        hidden: &[[0, 0, 9, 9]],
    },
    Case {
        bounds: [-3, -2, 9, 9],
        visible: &[[-3, -2, 9, 9]],
        hidden: &[],
    },
    // One cover in the middle.
    Case {
        bounds: [0, 0, 7, 3],
        visible: &[[0, 0, 7, 0], [0, 1, 2, 2], [5, 1, 7, 2], [0, 3, 7, 3]],
        hidden: &[[3, 1, 4, 2]],
    },
    // A hole in the middle, and the middle alone.
    Case {
        bounds: [0, 0, 9, 9],
        visible: &[[0, 0, 9, 2], [0, 3, 2, 6], [7, 3, 9, 6], [0, 7, 9, 9]],
        hidden: &[[3, 3, 6, 6]],
    },
    Case {
        bounds: [0, 0, 9, 9],
        visible: &[[3, 3, 6, 6]],
        hidden: &[[0, 0, 9, 2], [0, 3, 2, 6], [7, 3, 9, 6], [0, 7, 9, 9]],
    },
    // Two opposite corners.
    Case {
        bounds: [0, 0, 9, 9],
        visible: &[[0, 0, 3, 3], [6, 6, 9, 9]],
        hidden: &[[4, 0, 9, 3], [0, 4, 9, 5], [0, 6, 5, 9]],
    },
    // One column, one row, and squares that touch at a corner.
    Case {
        bounds: [-2, -1, 1, 2],
        visible: &[[-2, -1, -2, 2]],
        hidden: &[[-1, -1, 1, 2]],
    },
    Case {
        bounds: [LEAST, LEAST, GREATEST, GREATEST],
        visible: &[[LEAST, LEAST, GREATEST, LEAST]],
        hidden: &[[LEAST, -32767, GREATEST, GREATEST]],
    },
    Case {
        bounds: [0, 0, 7, 1],
        visible: &[[0, 0, 3, 0], [4, 1, 7, 1]],
        hidden: &[[4, 0, 7, 0], [0, 1, 3, 1]],
    },
];

// The bounds cut by what lies in them of these rectangles.
fn parts_of(alloc: Global, bounds: &Rect, rects: &[[i16; 4]]) -> Result<Parts, Fail> {
    let mut visible = region_of(alloc, rects)?;
    visible.and_rect(alloc, bounds)?;
    Ok(Parts::cut(alloc, bounds, visible)?)
}

#[test]
fn bounds_are_cut_as_worked_out_by_hand(rt: HostRuntime) -> Result<(), Fail> {
    let alloc = rt.alloc();
    for case in &CASES {
        let bounds = rect_of(case.bounds)?;
        let parts = parts_of(alloc, &bounds, case.visible)?;
        assert!(rt; parts.bounds() == bounds);
        assert!(rt; are(parts.visible(), case.visible));
        assert!(rt; are(parts.hidden(), case.hidden));
    }
    Ok(())
}
