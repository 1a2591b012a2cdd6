//! Rectangles of the report.

ghost use Rattle.std.specs.Prelude.{◌≡◌, ◌++◌, length, OnOk};
ghost use Rattle.std.specs.List.{flat_map};
ghost use Rattle.lw_calls.specs.Written.{spaced, spaced_bounds};
ghost use Rattle.lw_machine.specs.Report.{rectangle_line, rectangles_part};

use lw_region::Rect;
use lw_text_output::{end_line, push_bounds, push_numbered_line, push_spaced, push_spaced_bounds};
use std::alloc::{AllocError, Global};

/// Writes a line with a word, a name and how many rectangles there are, and a line for each rectangle.
pub fn push_rectangles(
    alloc: Global,
    out: &mut Vec<u8>,
    word: &[u8],
    name: &[u8],
    rects: &[Rect],
) -> Result<(), AllocError>
    ensures { OnOk result (out.new.items ≡ out.old.items ++ rectangles_part word.now name.now rects.now) }
{
    out.extend_from_slice(word)?;
    push_numbered_line(alloc, out, name, rects.len())?;
    push_rectangle_lines(alloc, out, rects)
}

/// Writes each rectangle on a line.
fn push_rectangle_lines(alloc: Global, out: &mut Vec<u8>, rects: &[Rect]) -> Result<(), AllocError>
    ensures { OnOk result (out.new.items ≡ out.old.items ++ flat_map rectangle_line rects.now) }
{
    for rect in rects {
        push_rectangle_line(alloc, out, rect)?;
    }
    Ok(())
}

/// Writes a line with the bounds of a rectangle.
fn push_rectangle_line(alloc: Global, out: &mut Vec<u8>, rect: &Rect) -> Result<(), AllocError>
    ensures { OnOk result (out.new.items ≡ out.old.items ++ rectangle_line rect.now) }
{
    push_bounds(alloc, out, rect)?;
    end_line(out)
}

/// Writes how many rectangles there are, and the four bounds of each, each number after a space.
pub fn push_rects(alloc: Global, out: &mut Vec<u8>, rects: &[Rect]) -> Result<(), AllocError>
    ensures { OnOk result (out.new.items ≡ out.old.items ++ spaced (length rects.now) ++ flat_map spaced_bounds rects.now) }
{
    push_spaced(alloc, out, rects.len())?;
    push_each_rect(alloc, out, rects)
}

/// Writes the bounds of each rectangle, each number after a space.
fn push_each_rect(alloc: Global, out: &mut Vec<u8>, rects: &[Rect]) -> Result<(), AllocError>
    ensures { OnOk result (out.new.items ≡ out.old.items ++ flat_map spaced_bounds rects.now) }
{
    for rect in rects {
        push_spaced_bounds(alloc, out, rect)?;
    }
    Ok(())
}
