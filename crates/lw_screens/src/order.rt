//! The numbers of the screens of a display, from the front to the back.

ghost use Rattle.std.specs.Prelude.{◌≡◌, [], ◌∷◌, ◌++◌, IfOk, OnOk};
ghost use Rattle.lw_machine.specs.Arrangement.{without};
ghost use Rattle.lw_screens.specs.Display.{last_first};

use std::alloc::{AllocError, Global};

/// The numbers of so many screens, the last one first.
pub(crate) fn last_first(alloc: Global, count: u32) -> Result<Vec<u32>, AllocError>
    ensures { IfOk result (λ order. order.items ≡ last_first count) }
{
    let mut order = Vec::with_capacity(alloc, count as usize)?;
    for number in (0..count).rev() {
        order.push(number)?;
    }
    Ok(order)
}

/// The numbers with this one put before all others.
pub(crate) fn with_first(alloc: Global, order: &[u32], number: u32) -> Result<Vec<u32>, AllocError>
    ensures { IfOk result (λ numbers. numbers.items ≡ number ∷ without number order.now) }
{
    let mut numbers = Vec::with_capacity(alloc, order.len())?;
    numbers.push(number)?;
    push_others(&mut numbers, order, number)?;
    Ok(numbers)
}

/// The numbers with this one put behind all others.
pub(crate) fn with_last(alloc: Global, order: &[u32], number: u32) -> Result<Vec<u32>, AllocError>
    ensures { IfOk result (λ numbers. numbers.items ≡ without number order.now ++ number ∷ []) }
{
    let mut others = Vec::with_capacity(alloc, order.len())?;
    push_others(&mut others, order, number)?;
    others.push(number)?;
    Ok(others)
}

// Adds the numbers but for this one.
fn push_others(numbers: &mut Vec<u32>, order: &[u32], number: u32) -> Result<(), AllocError>
    ensures { OnOk result (numbers.new.items ≡ numbers.old.items ++ without number order.now) }
{
    for other in order {
        if *other != number {
            numbers.push(*other)?;
        }
    }
    Ok(())
}
