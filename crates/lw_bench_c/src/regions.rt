ghost use Rattle.std.specs.Prelude.{◌≡◌, ◌<◌, ℤ, IfOk, IsNone, length};
ghost use Rattle.lw_region.specs.Bands.{covers};

use crate::boxes::{random_boxes, staggered_grid};
use crate::generator::Generator;
use crate::operation::{Operation, combined};
use lw_region::{Rect, Region, or_region};
use std::alloc::{AllocError, Global};

#[derive(Drop)]
struct Operands {
    a: Region,
    b: Region,
}

// The region of at most one box.
fn region_of_few(alloc: Global, boxes: &[Rect]) -> Result<Region, AllocError>
    requires { length boxes.now < 2 }
    ensures { IfOk result (λ made. (x y : ℤ) → covers made x y ≡ covers boxes.now x y) }
{
    match boxes.split_first() {
        None => Ok(Region::new(alloc)),
        Some((only, _)) => {
            let mut made = Region::new(alloc);
            made.or_rect(alloc, only)?;
            Ok(made)
        }
    }
}

// The region of these boxes, made of the regions of its two halves.
fn region_of(alloc: Global, boxes: &[Rect]) -> Result<Region, AllocError>
    ensures { IfOk result (λ made. (x y : ℤ) → covers made x y ≡ covers boxes.now x y) }
{
    if boxes.len() < 2 {
        return region_of_few(alloc, boxes);
    }
    let (left, right) = boxes.split_at(boxes.len() / 2);
    let mut made = region_of(alloc, left)?;
    let other = region_of(alloc, right)?;
    or_region(alloc, &other, &mut made)?;
    Ok(made)
}

fn made_operands(alloc: Global, shape: u32, size: u16, seed: u32) -> Result<Operands, AllocError> {
    let mut generator = Generator::new(seed);
    let (first, second) = if shape == 0 {
        (
            staggered_grid(alloc, size, false)?,
            staggered_grid(alloc, size, true)?,
        )
    } else {
        (
            random_boxes(alloc, size, &mut generator)?,
            random_boxes(alloc, size, &mut generator)?,
        )
    };
    let a = region_of(alloc, first.as_slice())?;
    let b = region_of(alloc, second.as_slice())?;
    Ok(Operands { a, b })
}

// How many rectangles the last of the results has.
fn repeated(
    alloc: Global,
    operation: Operation,
    repetitions: u32,
    operands: &Operands,
    hole: &Rect,
) -> Result<usize, AllocError> {
    let mut count = 0;
    for _ in 0..repetitions {
        let made = combined(alloc, operation, &operands.a, &operands.b, hole)?;
        count = made.rects().len();
    }
    Ok(count)
}

pub(crate) fn counted(
    alloc: Global,
    shape: u32,
    size: u16,
    operation: u32,
    repetitions: u32,
    seed: u32,
) -> Option<u32>
    ensures { 5 < operation → IsNone result }
{
    let operation = Operation::of_number(operation)?;
    let hole = Rect::new(-16384, -16384, 16383, 16383)?;
    let operands = made_operands(alloc, shape, size, seed).ok()?;
    let count = repeated(alloc, operation, repetitions, &operands, &hole).ok()?;
    u32::try_from(count).ok()
}
