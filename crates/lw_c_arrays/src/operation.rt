ghost use Rattle.std.specs.Prelude.{◌≡◌, OnOk};
ghost use Rattle.lw_region.specs.Pixels.{pixels_of};
ghost use Rattle.lw_region.specs.Bands.{bands};
ghost use Rattle.lw_c_arrays.specs.Combined.{combined};

use lw_region::{Region, and_region, clear_region, or_region, xor_region};
use std::alloc::{AllocError, Global};

// What is made of the pixels of two regions.
#[derive(Clone, Copy)]
pub(crate) enum Operation {
    Union,
    Intersection,
    SymmetricDifference,
    Difference,
}

// Makes it of the second of the two, and of the first, which becomes the result.
pub(crate) fn combine(
    alloc: Global,
    operation: Operation,
    into: &mut Region,
    with: &Region,
) -> Result<(), AllocError>
    ensures { OnOk result (into.new ≡ bands (combined operation (pixels_of into.old) (pixels_of with.now))) }
{
    match operation {
        Operation::Union => or_region(alloc, with, into),
        Operation::Intersection => and_region(alloc, with, into),
        Operation::SymmetricDifference => xor_region(alloc, with, into),
        Operation::Difference => clear_region(alloc, with, into),
    }
}
