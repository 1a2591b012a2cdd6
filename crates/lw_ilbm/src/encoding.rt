//! Pictures as files.

ghost use Rattle.std.specs.Prelude.{◌≡◌, ◌+◌, ◌<◌, ◌^◌, ◌++◌, length, codes, IfOk, OnOk};
ghost use Rattle.std.specs.Int.{w32, to_be_bytes};
ghost use Rattle.std.specs.List.{flat_map, range_with_len};
ghost use Rattle.lw_planes.specs.Bitmap.{plane_row};
ghost use Rattle.lw_planes.specs.Sizes.{IsPlanes};
ghost use Rattle.lw_text_output.specs.Padding.{without_padding};
ghost use Rattle.lw_ilbm.specs.Packing.{packed};
ghost use Rattle.lw_ilbm.specs.Pictures.{chunk, header_data, body_data, encoded};

use crate::packing::push_packed;
use lw_planes::Planes;
use lw_text_output::leftmost_bits;
use std::alloc::{AllocError, Global};

/// The planes as an ILBM file: FORM, its length, ILBM, the chunk BMHD with the picture's sizes, and the chunk BODY with each
/// row's planes one after another, each packed alone by ByteRun1, with zeros in the padding (the IFF text on ILBM; that no
/// colours are written, and which runs are packed as repeats, is this project's own). A file has 40 bytes and the body's, a whole
/// number of words.
pub fn encode(alloc: Global, planes: &Planes) -> Result<Vec<u8>, AllocError>
    ensures { IfOk result (λ bytes. bytes.items ≡ encoded planes.now) }
{
    let body = packed_rows(alloc, planes)?;
    let mut out = Vec::new(alloc);
    out.extend_from_slice(b"FORM")?;
    push_long(&mut out, 40 + body.len() + body.len() % 2)?;
    out.extend_from_slice(b"ILBM")?;
    push_header(&mut out, planes)?;
    push_chunk(&mut out, b"BODY", &body)?;
    Ok(out)
}

/// Writes a number as 32 bits.
fn push_long(out: &mut Vec<u8>, number: usize) -> Result<(), AllocError>
    requires { number < 2 ^ 32 }
    ensures { OnOk result (out.new.items ≡ out.old.items ++ to_be_bytes w32 number) }
{
    out.extend_from_slice(&(number as u32).to_be_bytes())
}

/// Writes a chunk.
fn push_chunk(out: &mut Vec<u8>, name: &[u8], contents: &[u8]) -> Result<(), AllocError>
    requires { length contents.now < 2 ^ 32 }
    ensures { OnOk result (out.new.items ≡ out.old.items ++ chunk name.now contents.now) }
{
    out.extend_from_slice(name)?;
    push_long(out, contents.len())?;
    out.extend_from_slice(contents)?;
    out.resize(out.len() + contents.len() % 2, 0)?;
    Ok(())
}

/// Writes the header of a packed picture.
fn push_header(out: &mut Vec<u8>, planes: &Planes) -> Result<(), AllocError>
    ensures { OnOk result (out.new.items ≡ out.old.items ++ chunk (codes "BMHD") (header_data planes.now)) }
{
    let width = (planes.width() as u16).to_be_bytes();
    let height = (planes.height() as u16).to_be_bytes();
    let depth = planes.depth() as u8;
    let header = [
        width[0], width[1], height[0], height[1], 0, 0, 0, 0, depth, 0, 1, 0, 0, 0, 1, 1, width[0],
        width[1], height[0], height[1],
    ];
    push_chunk(out, b"BMHD", &header)
}

/// The packed rows of a picture.
fn packed_rows(alloc: Global, planes: &Planes) -> Result<Vec<u8>, AllocError>
    ensures rows { IfOk result (λ body. body.items ≡ body_data planes.now) }
    ensures short { IfOk result (λ body. length body.items < 2 ^ 24) }
{
    let mut body = Vec::new(alloc);
    for y in 0..planes.height() {
        push_planes(alloc, &mut body, planes, y)?;
    }
    Ok(body)
}

/// Writes row `y` of each plane, packed alone.
fn push_planes(alloc: Global, out: &mut Vec<u8>, planes: &Planes, y: u32) -> Result<(), AllocError>
    requires { y < planes.now.height }
    ensures { OnOk result (out.new.items ≡ out.old.items ++
        flat_map (λ k. packed (plane_row planes.now k y)) (range_with_len 0 planes.now.depth)) }
{
    let width = planes.width() as usize;
    for plane in 0..planes.depth() {
        push_row(alloc, out, planes.row(plane, y), width)?;
    }
    Ok(())
}

/// Writes a row of `width` pixels, packed, with zeros in its padding.
fn push_row(alloc: Global, out: &mut Vec<u8>, row: &[u8], width: usize) -> Result<(), AllocError>
    ensures { OnOk result (out.new.items ≡ out.old.items ++ packed (without_padding width row.now)) }
{
    let whole = without_padding(alloc, row, width)?;
    push_packed(out, &whole)
}

/// The bytes of a row of `width` pixels, with zeros in its padding.
fn without_padding(alloc: Global, row: &[u8], width: usize) -> Result<Vec<u8>, AllocError>
    ensures { IfOk result (λ bytes. bytes.items ≡ without_padding width row.now) }
{
    let mut bytes = Vec::new(alloc);
    let mut left = width;
    for byte in row {
        bytes.push(leftmost_bits(*byte, left))?;
        left = left.saturating_sub(8);
    }
    Ok(bytes)
}
