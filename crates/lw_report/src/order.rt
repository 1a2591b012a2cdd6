//! The report's first part: the order of the calls.

ghost use Rattle.std.specs.Prelude.{◌≡◌, ◌+◌, ◌≤◌, ◌++◌, List, ℕ, length, OnOk};
ghost use Rattle.lw_machine.specs.Report.{order_part, order_numbers, separator};

use lw_text_output::{push_decimal, push_numbered_line};
use std::alloc::{AllocError, Global};

/// Writes how many calls were made, and the tasks' numbers in the order of their calls.
#[tactic(auto, unfolding(lw_machine::specs::Report::order_part))]
pub fn push_order(alloc: Global, out: &mut Vec<u8>, order: &[u32]) -> Result<(), AllocError>
    ensures { OnOk result (out.new.items ≡ out.old.items ++ order_part order.now) }
{
    push_numbered_line(alloc, out, b"order", order.len())?;
    push_order_numbers(alloc, out, order)
}

/// Writes the tasks' numbers, 64 on a line.
fn push_order_numbers(alloc: Global, out: &mut Vec<u8>, order: &[u32]) -> Result<(), AllocError>
    ensures { OnOk result (out.new.items ≡ out.old.items ++ order_numbers 0 order.now) }
{
    for (above, task) in order.iter().enumerate() {
        push_decimal(alloc, out, *task as usize)?;
        out.push(byte_after(above + 1, order.len()))?;
    }
    Ok(())
}

/// The byte after the number that is `count`th of the `all` numbers of an order, counted from 1: a line feed after the last
/// one and after 64 on a line, else a space.
pub fn byte_after(count: usize, all: usize) -> u8
    requires { count ≤ all }
    ensures { (rest : List ℕ) → count + length rest ≡ all → result ≡ separator count rest }
{
    if count == all || count % 64 == 0 {
        b'\n'
    } else {
        b' '
    }
}
