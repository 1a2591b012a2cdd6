// Laying strips on a bitmap. They are laid from the last to the first, so that where several have a place, the first one's pen
// stands there at the end.

ghost use Rattle.std.specs.Prelude.{◌≡◌, ◌≤◌, ◌-ℤ◌, map, false, IfOk};
ghost use Rattle.std.specs.List.{All};
ghost use Rattle.lw_region.specs.Rectangle.{width, height};
ghost use Rattle.lw_planes.specs.Sizes.{AreSizes};
ghost use Rattle.lw_strips.specs.Strips.{IsSizeOf};
ghost use Rattle.lw_strips.specs.Laying.{with_planes, with_strip, with_strips, composed, screen, assembled, LiesIn, part_of};

use crate::overlap::{clear_area, lay_bitmap};
use crate::strip::Strip;
use lw_planes::Planes;
use lw_region::Rect;
use std::alloc::{AllocError, Global};
use std::slice;

/// The bitmap of a window of 1 to 2048 columns and rows, of 1 to 8 planes: each pixel has the pen that the first strip with this
/// place of the screen has there, and pen 0 where no strip has it. All strips have as many planes.
pub fn compose(
    alloc: Global,
    window: &Rect,
    depth: u32,
    strips: &[Strip],
) -> Result<Planes, AllocError>
    requires sizes { AreSizes (width window.now) (height window.now) depth }
    requires planes { All (λ s. s.planes.depth ≡ depth) strips.now }
    ensures { IfOk result (λ made. made ≡ composed window.now depth strips.now) }
{
    let mut made = Planes::new(alloc, window.width(), window.height(), depth)?;
    lay_all(&mut made, window, strips);
    Ok(made)
}

/// The bitmap of a screen of 1 to 2048 columns and rows and 1 to 8 planes, with each strip's pens at their places: the first
/// strip with a place has its pen there, and it is 0 where no strip is. All strips have as many planes.
pub fn assemble(
    alloc: Global,
    width: u32,
    height: u32,
    depth: u32,
    strips: &[Strip],
) -> Result<Planes, AllocError>
    requires sizes { AreSizes width height depth }
    requires planes { All (λ s. s.planes.depth ≡ depth) strips.now }
    ensures { IfOk result (λ made. made ≡ assembled width height depth strips.now) }
{
    let screen = screen_of(width, height);
    compose(alloc, &screen, depth, strips)
}

/// The rectangle of a screen of 1 to 2048 columns and rows, whose top left pixel is at column 0 and row 0.
pub fn screen_of(width: u32, height: u32) -> Rect
    requires columns { 1 ≤ width }
    requires rows { 1 ≤ height }
    requires right { width ≤ 2048 }
    requires lower { height ≤ 2048 }
    ensures { result ≡ screen width height }
{
    match Rect::new(0, 0, (width - 1) as i16, (height - 1) as i16) {
        Some(screen) => screen,
        None => unreachable!(),
    }
}

/// Copies rectangles of a strip, in which they lie, each as a solid strip of its own, in their order.
pub fn part(alloc: Global, strip: &Strip, rects: &[Rect]) -> Result<Vec<Strip>, AllocError>
    requires { All (λ r. LiesIn r strip.now.rect) rects.now }
    ensures { IfOk result (λ parts. parts.items ≡ map (part_of strip.now) rects.now) }
{
    let mut parts = Vec::with_capacity(alloc, rects.len())?;
    for rect in rects {
        parts.push(one_part(alloc, strip, rect)?)?;
    }
    Ok(parts)
}

// The copy of one rectangle.
fn one_part(alloc: Global, strip: &Strip, rect: &Rect) -> Result<Strip, AllocError>
    requires { LiesIn rect.now strip.now.rect }
    ensures { IfOk result (λ part. part ≡ part_of strip.now rect.now) }
{
    // Reading these tells the proof that the rectangles are ordered and of sizes that a bitmap may have.
    let _ = rect.min_x();
    let depth = strip.depth();
    let planes = compose(alloc, rect, depth, slice::from_ref(strip))?;
    Ok(Strip::new(*rect, planes))
}

/// Lays strips on the bitmap of a window, which has the window's width and height, and as many planes as all strips: each pixel
/// gets the pen of the first strip that has its place of the screen, and stays as it was where none has it. No memory is taken.
pub fn lay_all(planes: &mut Planes, window: &Rect, strips: &[Strip])
    requires size { IsSizeOf window.now planes.old }
    requires planes { All (λ s. s.planes.depth ≡ planes.old.depth) strips.now }
    ensures { planes.new ≡ with_strips window.now strips.now planes.old }
{
    // Reading this tells the proof that the bitmap is sound.
    let _ = planes.depth();
    for index in (0..strips.len()).rev() {
        lay_on(planes, window, &strips[index]);
    }
}

// Lays one strip.
fn lay_on(planes: &mut Planes, window: &Rect, strip: &Strip)
    requires size { IsSizeOf window.now planes.old }
    requires planes { strip.now.planes.depth ≡ planes.old.depth }
    ensures { planes.new ≡ with_strip window.now strip.now planes.old }
{
    match strip.planes() {
        Some(source) => lay_planes(planes, window, strip.rect(), source),
        None => lay_blank(planes, window, strip),
    }
}

/// Lays the bitmap of a rectangle on that of a window: each pixel of the window that is in the rectangle gets the pen that the
/// rectangle's bitmap has for this place of the screen, and each other one stays as it was. Each bitmap has the width and height
/// of its rectangle, and both have as many planes. No memory is taken.
pub fn lay_planes(planes: &mut Planes, window: &Rect, rect: &Rect, source: &Planes)
    requires size { IsSizeOf window.now planes.old }
    requires source_size { IsSizeOf rect.now source.now }
    requires planes { source.now.depth ≡ planes.old.depth }
    ensures { planes.new ≡ with_planes window.now rect.now source.now planes.old }
{
    let x = distance(window.min_x(), rect.min_x());
    let y = distance(window.min_y(), rect.min_y());
    lay_bitmap(planes, x, y, source);
}

// Lays a blank strip: its pixels get pen 0.
fn lay_blank(planes: &mut Planes, window: &Rect, strip: &Strip)
    requires blank { strip.now.solid ≡ false }
    ensures { planes.new ≡ with_strip window.now strip.now planes.old }
{
    let rect = strip.rect();
    let x = distance(window.min_x(), rect.min_x());
    let y = distance(window.min_y(), rect.min_y());
    clear_area(planes, x, y, rect.width(), rect.height());
}

// How far a place is past another one, or before it.
fn distance(from: i16, to: i16) -> i64
    ensures { result ≡ to -ℤ from }
{
    i64::from(to) - i64::from(from)
}
