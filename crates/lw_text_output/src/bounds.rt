//! The four bounds of a rectangle.

ghost use Rattle.std.specs.Prelude.{◌≡◌, ◌++◌, OnOk, OnErr};
ghost use Rattle.lw_calls.specs.Written.{spaced_bounds};
ghost use Rattle.lw_text_output.specs.Words.{bounds_text, Keeps};

use crate::lines::{push_signed, push_spaced_signed};
use lw_region::Rect;
use std::alloc::{AllocError, Global};

/// Writes the bounds of a rectangle, each after a space.
pub fn push_spaced_bounds(alloc: Global, out: &mut Vec<u8>, rect: &Rect) -> Result<(), AllocError>
    ensures ok { OnOk result (out.new.items ≡ out.old.items ++ spaced_bounds rect.now) }
    ensures err { OnErr result (Keeps out.old.items out.new.items) }
{
    out.push(b' ')?;
    push_bounds(alloc, out, rect)
}

/// Writes the bounds of a rectangle with single spaces.
pub fn push_bounds(alloc: Global, out: &mut Vec<u8>, rect: &Rect) -> Result<(), AllocError>
    ensures ok { OnOk result (out.new.items ≡ out.old.items ++ bounds_text rect.now) }
    ensures err { OnErr result (Keeps out.old.items out.new.items) }
{
    push_signed(alloc, out, rect.min_x() as i64)?;
    push_spaced_signed(alloc, out, rect.min_y() as i64)?;
    push_spaced_signed(alloc, out, rect.max_x() as i64)?;
    push_spaced_signed(alloc, out, rect.max_y() as i64)
}
