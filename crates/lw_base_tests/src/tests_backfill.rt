use lw_backfill::{Backfill, Checker, Cycle, Solid};
use std::alloc::Global;
use std::process::Abort;
use std::test::Fail;

// Pixels by column and row, also left of a layer's first one, above it and further off than a tile, each with the pen that a
// checker of 2 and 3 has there.
static PIXELS: [(i32, i32, u8); 8] = [
    (0, 0, 2),
    (1, 0, 3),
    (-1, 0, 3),
    (-1, -1, 2),
    (8, 7, 3),
    (-9, 16, 3),
    (2147483647, 0, 3),
    (-2147483648, -1, 3),
];

fn are_pens(hooks: &[Box<dyn Backfill + Send>], x: i32, y: i32, pens: &[u8]) -> bool {
    for (held, pen) in hooks.iter().zip(pens) {
        if held.pen_at(x, y) != *pen {
            return false;
        }
    }
    hooks.len() == pens.len()
}

// At each pixel the hooks have the pens 7, that of the checker, and this one.
fn assert_pens<R: Abort>(rt: &R, hooks: &[Box<dyn Backfill + Send>], pen: u8) {
    for (x, y, field) in &PIXELS {
        let same = are_pens(hooks, *x, *y, &[7, *field, pen]);
        assert!(rt; same, "column {x}, row {y}");
    }
}

// Three pens.
fn cycle(alloc: Global) -> Result<Cycle, Fail> {
    Ok(Cycle::new(vec![in alloc; 1, 2, 255]?).ok_or("no pens")?)
}

#[test]
fn boxed_hooks_have_their_pens_and_turn(rt: HostRuntime) -> Result<(), Fail> {
    let alloc = rt.alloc();
    let mut hooks: Vec<Box<dyn Backfill + Send>> = Vec::new(alloc);
    hooks.push(Box::new(alloc, Solid::new(7))?)?;
    hooks.push(Box::new(alloc, Checker::new(2, 3))?)?;
    hooks.push(Box::new(alloc, cycle(alloc)?)?)?;
    // The cycle goes from its last tile to its first.
    for pen in &[1, 2, 255, 1, 2] {
        assert_pens(&rt, &hooks, *pen);
        for held in &mut hooks {
            held.turned();
        }
    }
    Ok(())
}
