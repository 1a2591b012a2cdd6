// What C reads of the screen.

ghost use Rattle.std.specs.Prelude.{◌≡◌, ◌*◌, ◌≤◌, nat_le, pos, int_le, int_lt, ◌++◌, length, drop};
ghost use Rattle.lw_region.specs.Rectangle.{width, height};
ghost use Rattle.lw_planes.specs.Bitmap.{row_bytes};
ghost use Rattle.lw_c_desk.specs.Read.{IsRead, AreSame};
ghost use Rattle.lw_c_desk.specs.Pens.{lies_on, pens_in, ArePens, ArePlanes};

use crate::answers::{BAD_RECTANGLE, CLOSED, DONE, NO_MEMORY, NO_ROOM, OUTSIDE};
use crate::columns::{row_length, write_row};
use crate::handle::Handle;
use crate::writing::copy;
use lw_c_rectangles::{Bounds, is_ordered, rect_of};
use lw_calls::Sizes;
use lw_planes::Planes;
use lw_program_desk::ProgramDesk;
use lw_region::Rect;
use std::alloc::Global;

/// Writes the pens of a rectangle of the screen, row by row, a byte each. Only what lies in it is composed.
#[unsafe(no_mangle)]
pub extern "C" fn lw_desk_pens(
    alloc: Global,
    desk: &mut Handle,
    part: &Bounds,
    out: &mut [u8],
) -> i32
    ensures { IsRead (λ v. ArePens v part.now out.old out.new result) (out.new ≡ out.old)
        desk.old.held.state desk.new.held.state result }
{
    if !desk.is_open {
        return CLOSED;
    }
    pens(alloc, desk.held.state(), part, out)
}

fn pens(alloc: Global, desk: &ProgramDesk, part: &Bounds, out: &mut [u8]) -> i32
    ensures { ArePens desk.now part.now out.old out.new result }
{
    if !is_ordered(part) {
        return BAD_RECTANGLE;
    }
    if !lies_on(desk.sizes(), part) {
        return OUTSIDE;
    }
    let rect = rect_of(part);
    if !has_room(out.len(), &rect) {
        return NO_ROOM;
    }
    let Ok(planes) = desk.pens(alloc, &rect) else {
        return NO_MEMORY;
    };
    write_pens(&planes, out);
    DONE
}

// Whether the rectangle lies on a screen of these sizes.
fn lies_on(sizes: &Sizes, part: &Bounds) -> bool
    ensures { result ≡ lies_on sizes.now part.now }
{
    is_natural(part.min_x)
        && is_natural(part.min_y)
        && is_below(part.max_x, sizes.width)
        && is_below(part.max_y, sizes.height)
}

fn is_natural(place: i16) -> bool
    ensures { result ≡ int_le (pos 0) place }
{
    0 <= place
}

fn is_below(place: i16, end: u32) -> bool
    ensures { result ≡ int_lt place (pos end) }
{
    i64::from(place) < i64::from(end)
}

// Whether so many bytes are one at least for each pixel.
fn has_room(bytes: usize, rect: &Rect) -> bool
    ensures { result ≡ nat_le (height rect.now * width rect.now) bytes }
{
    rect.height() as usize * rect.width() as usize <= bytes
}

// Writes all pens of a bitmap at the head of an array.
fn write_pens(planes: &Planes, out: &mut [u8])
    requires { planes.now.height * planes.now.width ≤ length out.old }
    ensures { out.new ≡ pens_in planes.now ++ drop (planes.now.height * planes.now.width) out.old }
{
    let width = planes.width() as usize;
    let mut first = 0;
    for y in 0..planes.height() {
        let end = first + width;
        write_row(planes, y, &mut out[first..end]);
        first = end;
    }
}

/// Writes the planes of a rectangle of the screen, each row after row, as `lw_desk_open_with` takes a bitmap's, and tells how
/// many bytes they have. Only what lies in it is composed.
#[unsafe(no_mangle)]
pub extern "C" fn lw_desk_planes(
    alloc: Global,
    desk: &mut Handle,
    part: &Bounds,
    out: &mut [u8],
    count: &mut usize,
) -> i32
    ensures { IsRead (λ v. ArePlanes v part.now out.old out.new count.old count.new result)
        (AreSame out.old out.new count.old count.new) desk.old.held.state desk.new.held.state result }
{
    if !desk.is_open {
        return CLOSED;
    }
    planes(alloc, desk.held.state(), part, out, count)
}

fn planes(
    alloc: Global,
    desk: &ProgramDesk,
    part: &Bounds,
    out: &mut [u8],
    count: &mut usize,
) -> i32
    ensures { ArePlanes desk.now part.now out.old out.new count.old count.new result }
{
    if !is_ordered(part) {
        return BAD_RECTANGLE;
    }
    if !lies_on(desk.sizes(), part) {
        return OUTSIDE;
    }
    let rect = rect_of(part);
    let due = plane_bytes(desk.sizes().depth, &rect);
    if out.len() < due {
        *count = due;
        return NO_ROOM;
    }
    let Ok(planes) = desk.pens(alloc, &rect) else {
        return NO_MEMORY;
    };
    let bytes = planes.bytes();
    *count = due;
    copy(bytes, out);
    DONE
}

// How many bytes so many planes of the rectangle's size have.
fn plane_bytes(depth: u32, rect: &Rect) -> usize
    ensures { result ≡ depth * height rect.now * row_bytes (width rect.now) }
{
    depth as usize * rect.height() as usize * row_length(rect.width())
}
