//! The report's second part: the planes of the screen.

ghost use Rattle.std.specs.Prelude.{◌≡◌, ◌<◌, ◌++◌, codes, OnOk};
ghost use Rattle.std.specs.List.{flat_map, range_with_len};
ghost use Rattle.lw_calls.specs.Written.{line_of, spaced};
ghost use Rattle.lw_machine.specs.Report.{plane_lines, planes_part};

use lw_planes::Planes;
use lw_text_output::{end_line, push_numbered_line, push_rows, push_spaced};
use std::alloc::{AllocError, Global};

/// Writes the sizes of the screen and its planes.
#[tactic(auto, unfolding(lw_machine::specs::Report::planes_part))]
pub fn push_planes(alloc: Global, out: &mut Vec<u8>, planes: &Planes) -> Result<(), AllocError>
    ensures { OnOk result (out.new.items ≡ out.old.items ++ planes_part planes.now) }
{
    push_sizes(alloc, out, planes)?;
    push_each_plane(alloc, out, planes)
}

/// Writes the line with the sizes of the screen.
fn push_sizes(alloc: Global, out: &mut Vec<u8>, planes: &Planes) -> Result<(), AllocError>
    ensures { OnOk result (out.new.items
        ≡ out.old.items
        ++ line_of (codes "planes" ++ spaced planes.now.width ++ spaced planes.now.height ++ spaced planes.now.depth)) }
{
    out.extend_from_slice(b"planes")?;
    push_spaced(alloc, out, planes.width() as usize)?;
    push_spaced(alloc, out, planes.height() as usize)?;
    push_spaced(alloc, out, planes.depth() as usize)?;
    end_line(out)
}

/// Writes each plane in rising number.
fn push_each_plane(alloc: Global, out: &mut Vec<u8>, planes: &Planes) -> Result<(), AllocError>
    ensures { OnOk result (out.new.items
        ≡ out.old.items ++ flat_map (plane_lines planes.now) (range_with_len 0 planes.now.depth)) }
{
    for plane in 0..planes.depth() {
        push_plane(alloc, out, planes, plane)?;
    }
    Ok(())
}

/// Writes one plane: a line with its number, and a line for each row.
#[tactic(auto, unfolding(lw_machine::specs::Report::plane_lines))]
fn push_plane(
    alloc: Global,
    out: &mut Vec<u8>,
    planes: &Planes,
    plane: u32,
) -> Result<(), AllocError>
    requires { plane < planes.now.depth }
    ensures { OnOk result (out.new.items ≡ out.old.items ++ plane_lines planes.now plane) }
{
    push_numbered_line(alloc, out, b"plane", plane as usize)?;
    push_rows(out, planes, plane)
}
