//! The lines of bitmaps.

ghost use Rattle.std.specs.Prelude.{◌≡◌, ◌++◌, map, pos, IfOk, OnOk};
ghost use Rattle.std.specs.List.{flat_map, range_with_len};
ghost use Rattle.lw_planes.specs.Bitmap.{plane_row};
ghost use Rattle.lw_canonical.specs.Canonical.{lines_of_bitmap};
ghost use Rattle.lw_grammar.specs.Statements.{BitmapLine, RowLine};
ghost use Rattle.lw_calls.specs.Written.{line_of};
ghost use Rattle.lw_canonical.specs.Spelling.{spelled};
ghost use Rattle.lw_print.specs.Behind.{text_of_lines};
ghost use Rattle.lw_print.specs.Bitmaps.{bitmap_text};
ghost use Rattle.lw_print.specs.Parts.{bitmap_lines};

use lw_calls::Text;
use lw_planes::Planes;
use lw_text_output::{end_line, name_of, push_rows, push_spaced};
use std::alloc::{AllocError, Global};

/// Writes the lines of each bitmap in rising number. `names` has the bitmaps' names by number.
pub fn push_bitmaps(
    alloc: Global,
    out: &mut Vec<u8>,
    names: &[Text],
    bitmaps: &[Planes],
) -> Result<(), AllocError>
    ensures { OnOk result (out.new.items ≡ out.old.items ++ text_of_lines (bitmap_lines names.now bitmaps.now)) }
{
    for number in 0..bitmaps.len() {
        push_bitmap(alloc, out, name_of(names, number), &bitmaps[number])?;
    }
    Ok(())
}

/// The lines of a bitmap of this name, as they stand in a script: its name and sizes, and its rows plane by plane. The only error
/// is running out of memory.
pub fn print_bitmap(alloc: Global, name: &[u8], bitmap: &Planes) -> Result<Vec<u8>, AllocError>
    ensures { IfOk result (λ text. text.items ≡ bitmap_text name.now bitmap.now) }
{
    let mut out = Vec::new(alloc);
    push_bitmap(alloc, &mut out, name, bitmap)?;
    Ok(out)
}

/// Writes the lines of a bitmap: its name and sizes, and its rows plane by plane.
fn push_bitmap(
    alloc: Global,
    out: &mut Vec<u8>,
    name: &[u8],
    bitmap: &Planes,
) -> Result<(), AllocError>
    ensures { OnOk result (out.new.items ≡ out.old.items ++ text_of_lines (lines_of_bitmap name.now bitmap.now)) }
{
    push_header(alloc, out, name, bitmap)?;
    push_planes(out, bitmap)
}

/// Writes the line with a bitmap's name and sizes.
fn push_header(
    alloc: Global,
    out: &mut Vec<u8>,
    name: &[u8],
    bitmap: &Planes,
) -> Result<(), AllocError>
    ensures { OnOk result (out.new.items ≡ out.old.items
        ++ line_of (spelled (BitmapLine name.now (pos bitmap.now.width) (pos bitmap.now.height) (pos bitmap.now.depth)))) }
{
    out.extend_from_slice(b"bitmap ")?;
    out.extend_from_slice(name)?;
    push_spaced(alloc, out, bitmap.width() as usize)?;
    push_spaced(alloc, out, bitmap.height() as usize)?;
    push_spaced(alloc, out, bitmap.depth() as usize)?;
    end_line(out)
}

/// Writes the rows of a bitmap plane by plane.
fn push_planes(out: &mut Vec<u8>, bitmap: &Planes) -> Result<(), AllocError>
    ensures { OnOk result (out.new.items ≡ out.old.items
        ++ text_of_lines (flat_map (λ k. map (λ y. RowLine (plane_row bitmap.now k y)) (range_with_len 0 bitmap.now.height))
        (range_with_len 0 bitmap.now.depth))) }
{
    for plane in 0..bitmap.depth() {
        push_rows(out, bitmap, plane)?;
    }
    Ok(())
}
