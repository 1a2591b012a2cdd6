//! The rows of a plane, with zeros in their padding.

ghost use Rattle.std.specs.Prelude.{◌≡◌, ◌<◌, ◌++◌, OnOk, OnErr};
ghost use Rattle.std.specs.List.{flat_map, range_with_len};
ghost use Rattle.lw_planes.specs.Bitmap.{plane_row};
ghost use Rattle.lw_calls.specs.Written.{line_of, hex_byte};
ghost use Rattle.lw_text_output.specs.Padding.{leftmost_bits, without_padding};
ghost use Rattle.lw_text_output.specs.Words.{Keeps};

use crate::lines::{end_line, push_hex_byte};
use lw_planes::Planes;
use std::alloc::AllocError;

/// Writes the rows of a plane, each on a line in hexadecimal digits.
pub fn push_rows(out: &mut Vec<u8>, planes: &Planes, plane: u32) -> Result<(), AllocError>
    requires { plane < planes.now.depth }
    ensures ok { OnOk result (out.new.items
        ≡ out.old.items ++ flat_map (λ y. line_of (flat_map hex_byte (plane_row planes.now plane y)))
        (range_with_len 0 planes.now.height)) }
    ensures err { OnErr result (Keeps out.old.items out.new.items) }
{
    for y in 0..planes.height() {
        push_row(out, planes.row(plane, y), planes.width() as usize)?;
    }
    Ok(())
}

/// Writes a line with the bytes of a row of `width` pixels in hexadecimal digits, with zeros in the padding.
fn push_row(out: &mut Vec<u8>, row: &[u8], width: usize) -> Result<(), AllocError>
    ensures ok { OnOk result (out.new.items ≡ out.old.items ++ line_of (flat_map hex_byte (without_padding width row.now))) }
    ensures err { OnErr result (Keeps out.old.items out.new.items) }
{
    push_bytes(out, row, width)?;
    end_line(out)
}

/// Writes the bytes of a row of `width` pixels in hexadecimal digits, with zeros in the padding.
fn push_bytes(out: &mut Vec<u8>, row: &[u8], width: usize) -> Result<(), AllocError>
    ensures ok { OnOk result (out.new.items ≡ out.old.items ++ flat_map hex_byte (without_padding width row.now)) }
    ensures err { OnErr result (Keeps out.old.items out.new.items) }
{
    let mut left = width;
    for byte in row {
        push_hex_byte(out, leftmost_bits(*byte, left))?;
        left = left.saturating_sub(8);
    }
    Ok(())
}

/// The byte with its leftmost bits, as many as `kept`, and zeros after them.
pub fn leftmost_bits(byte: u8, kept: usize) -> u8
    ensures { result ≡ leftmost_bits kept byte }
{
    if kept < 8 {
        byte & !(0xff >> kept)
    } else {
        byte
    }
}
