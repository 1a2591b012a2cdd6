ghost use Rattle.std.specs.Prelude.{◌≡◌, ◌<◌, ◌↔◌, IfOk, OnOk, IsNone};
ghost use Rattle.lw_bench_c.specs.Wanted.{wanted};

use lw_region::{Rect, Region, and_region, clear_region, or_region, xor_region};
use std::alloc::{AllocError, Global};

// What is done to a copy of the first operand.
#[derive(Clone, Copy)]
pub(crate) enum Operation {
    Copied,
    Union,
    Intersection,
    SymmetricDifference,
    Difference,
    RectangleDifference,
}

impl Operation {
    pub(crate) fn of_number(number: u32) -> Option<Operation>
        ensures { IsNone result ↔ (5 < number) }
    {
        match number {
            0 => Some(Operation::Copied),
            1 => Some(Operation::Union),
            2 => Some(Operation::Intersection),
            3 => Some(Operation::SymmetricDifference),
            4 => Some(Operation::Difference),
            5 => Some(Operation::RectangleDifference),
            _ => None,
        }
    }
}

// The result of the operation, where `hole` is the rectangle that is taken out.
pub(crate) fn combined(
    alloc: Global,
    operation: Operation,
    a: &Region,
    b: &Region,
    hole: &Rect,
) -> Result<Region, AllocError>
    ensures { IfOk result (λ made. made ≡ wanted operation a.now b.now hole.now) }
{
    let mut made = a.copy(alloc)?;
    apply(alloc, operation, b, hole, &mut made)?;
    Ok(made)
}

fn apply(
    alloc: Global,
    operation: Operation,
    b: &Region,
    hole: &Rect,
    made: &mut Region,
) -> Result<(), AllocError>
    ensures { OnOk result (made.new ≡ wanted operation made.old b.now hole.now) }
{
    match operation {
        Operation::Copied => Ok(()),
        Operation::Union => or_region(alloc, b, made),
        Operation::Intersection => and_region(alloc, b, made),
        Operation::SymmetricDifference => xor_region(alloc, b, made),
        Operation::Difference => clear_region(alloc, b, made),
        Operation::RectangleDifference => made.clear_rect(alloc, hole),
    }
}
