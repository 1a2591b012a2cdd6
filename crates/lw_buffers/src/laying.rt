ghost use Rattle.std.specs.Prelude.{◌≡◌, true};
ghost use Rattle.std.specs.List.{All};
ghost use Rattle.lw_region.specs.Rectangle.{has_pixel};
ghost use Rattle.lw_strips.specs.Strips.{rects_of, planes_of};
ghost use Rattle.lw_strips.specs.Laying.{laid};
ghost use Rattle.lw_buffers.specs.Lookup.{IsBufferOf, AreBuffers, IsNear, pen_from, with_buffers};

use lw_planes::Planes;
use lw_region::Rect;
use lw_strips::{Strip, lay_bitmap};

/// Lays the bitmaps of rectangles on another one, whose pixel (0, 0) is the place (`left`, `top`): each of its pixels gets the
/// pen that the first rectangle with this place has there, and stays as it was where no rectangle has it. Each rectangle has a
/// buffer of its size, and all bitmaps have as many planes. The rectangles may lie over each other, and off the bitmap; the place
/// is no more than 10^12 columns and rows from 0. No memory is taken.
pub fn lay_buffers(to: &mut Planes, left: i64, top: i64, rects: &[Rect], buffers: &[Planes])
    requires buffers { AreBuffers rects.now buffers.now }
    requires planes { All (λ b. b.depth ≡ to.old.depth) buffers.now }
    requires left { IsNear left }
    requires top { IsNear top }
    ensures { to.new ≡ with_buffers rects.now buffers.now left top to.old }
{
    // Reading this tells the proof that the bitmap is sound.
    let _ = to.depth();
    // From the last to the first, so that the first rectangle with a place is laid last.
    for index in (0..rects.len()).rev() {
        lay_buffer(to, left, top, &rects[index], &buffers[index]);
    }
}

// The same for one rectangle.
fn lay_buffer(to: &mut Planes, left: i64, top: i64, rect: &Rect, buffer: &Planes)
    requires size { IsBufferOf rect.now buffer.now }
    requires planes { buffer.now.depth ≡ to.old.depth }
    requires left { IsNear left }
    requires top { IsNear top }
    ensures { to.new ≡ laid (λ x y. has_pixel rect.now x y) (λ x y. pen_from rect.now buffer.now x y) left top to.old }
{
    let x = i64::from(rect.min_x()) - left;
    let y = i64::from(rect.min_y()) - top;
    lay_bitmap(to, x, y, buffer);
}

/// Lays solid strips on a bitmap whose pixel (0, 0) is the place (`left`, `top`) of the screen's plane: each of its pixels gets
/// the pen that the first strip with this place has there, and stays as it was where no strip has it. All bitmaps have as many
/// planes, and the place is no more than 10^12 columns and rows from 0. No memory is taken.
pub fn lay_strips(to: &mut Planes, left: i64, top: i64, strips: &[Strip])
    requires solid { All (λ s. s.solid ≡ true) strips.now }
    requires planes { All (λ s. s.planes.depth ≡ to.old.depth) strips.now }
    requires left { IsNear left }
    requires top { IsNear top }
    ensures { to.new ≡ with_buffers (rects_of strips.now) (planes_of strips.now) left top to.old }
{
    // Reading this tells the proof that the bitmap is sound.
    let _ = to.depth();
    // From the last to the first, so that the first strip with a place is laid last.
    for index in (0..strips.len()).rev() {
        lay_strip(to, left, top, &strips[index]);
    }
}

// The same for one strip.
fn lay_strip(to: &mut Planes, left: i64, top: i64, strip: &Strip)
    requires solid { strip.now.solid ≡ true }
    requires planes { strip.now.planes.depth ≡ to.old.depth }
    requires left { IsNear left }
    requires top { IsNear top }
    ensures { to.new
        ≡ laid (λ x y. has_pixel strip.now.rect x y) (λ x y. pen_from strip.now.rect strip.now.planes x y) left top to.old }
{
    lay_buffer(to, left, top, strip.rect(), strip.bitmap());
}
