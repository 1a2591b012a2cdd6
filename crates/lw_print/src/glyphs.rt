//! The lines of glyphs.

ghost use Rattle.std.specs.Prelude.{◌≡◌, ◌++◌, ◌==◌, OnOk};
ghost use Rattle.std.specs.List.{flat_map, list_all};
ghost use Rattle.lw_canonical.specs.Canonical.{lines_of_glyph};
ghost use Rattle.lw_calls.specs.Written.{hex_byte};
ghost use Rattle.lw_print.specs.Behind.{text_of_lines};
ghost use Rattle.lw_print.specs.Parts.{glyph_lines};

use lw_text_output::{end_line, push_hex_byte};
use std::alloc::AllocError;

/// Writes the line of each glyph with some bit set, in the order of their codes from 32 on.
pub fn push_glyphs(out: &mut Vec<u8>, glyphs: &[[u8; 8]; 95]) -> Result<(), AllocError>
    ensures { OnOk result (out.new.items ≡ out.old.items ++ text_of_lines (glyph_lines glyphs.now)) }
{
    for index in 0..95 {
        let rows = &glyphs[index as usize];
        push_glyph(out, 32 + index, rows)?;
    }
    Ok(())
}

/// Writes the line of a glyph, where some bit of it is set.
fn push_glyph(out: &mut Vec<u8>, code: u8, rows: &[u8]) -> Result<(), AllocError>
    ensures { OnOk result (out.new.items ≡ out.old.items ++ text_of_lines (lines_of_glyph code rows.now)) }
{
    if is_blank(rows) {
        return Ok(());
    }
    out.extend_from_slice(b"glyph ")?;
    push_hex_byte(out, code)?;
    out.push(b' ')?;
    push_digits(out, rows)?;
    end_line(out)
}

/// Whether no bit of a glyph is set.
fn is_blank(rows: &[u8]) -> bool
    ensures { result ≡ list_all (λ row. row == 0) rows.now }
{
    rows.iter().all(|row| *row == 0)
}

/// Writes bytes in two hexadecimal digits each.
fn push_digits(out: &mut Vec<u8>, bytes: &[u8]) -> Result<(), AllocError>
    ensures { OnOk result (out.new.items ≡ out.old.items ++ flat_map hex_byte bytes.now) }
{
    for byte in bytes {
        push_hex_byte(out, *byte)?;
    }
    Ok(())
}
