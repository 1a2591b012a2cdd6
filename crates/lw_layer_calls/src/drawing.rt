// The calls that draw on a layer or read a pixel of it.

ghost use Rattle.std.specs.Prelude.{ℕ, List};
ghost use Rattle.lw_region.specs.Rectangle.{Rectangle};
ghost use Rattle.lw_calls.specs.declared.call.Call.TheVariants.{WritePixel, ReadPixel, Fill, DrawTo, Letters, SetRast};
ghost use Rattle.lw_layer_calls.specs.Open.{IsOpenStep, IsLentStep};

use lw_calls::{Assets, Reply, Text};
use lw_layer::Layer;
use lw_region::Rect;

// Paints a pixel.
pub(crate) fn write(layer: &mut Layer, x: i32, y: i32) -> Reply
    ensures { (slot : ℕ) → IsOpenStep slot layer.old (WritePixel slot x y) result layer.new }
{
    if !lw_draw::write_pixel(layer, x, y) {
        return Reply::Outside;
    }
    Reply::Done
}

// Reads the pen of a pixel.
pub(crate) fn read(layer: &Layer, x: i32, y: i32) -> Reply
    ensures { (slot : ℕ) → IsOpenStep slot layer.now (ReadPixel slot x y) result layer.now }
{
    match lw_draw::read_pixel(layer, x, y) {
        None => Reply::Outside,
        Some(pen) => Reply::Pen(pen),
    }
}

// Fills a rectangle.
pub(crate) fn fill(layer: &mut Layer, rect: &Rect) -> Reply
    ensures { (slot : ℕ) → IsOpenStep slot layer.old (Fill slot rect.now) result layer.new }
{
    lw_draw::fill(layer, rect);
    Reply::Done
}

// Draws a line from the cursor.
pub(crate) fn draw(layer: &mut Layer, x: i16, y: i16) -> Reply
    ensures { (slot : ℕ) → IsOpenStep slot layer.old (DrawTo slot x y) result layer.new }
{
    lw_draw::line(layer, x, y);
    Reply::Done
}

// Draws letters from the cursor on.
pub(crate) fn letters(layer: &mut Layer, assets: &Assets, text: &Text) -> Reply
    ensures { (task slot : ℕ) (regs : List (List Rectangle))
        → IsLentStep task slot layer.old regs assets.now (Letters slot text.now) result layer.new }
{
    if !lw_text::letters(layer, assets, text) {
        return Reply::OutOfBounds;
    }
    Reply::Done
}

// Gives all drawable pixels a pen.
pub(crate) fn set_rast(layer: &mut Layer, pen: u8) -> Reply
    ensures { (slot : ℕ) → IsOpenStep slot layer.old (SetRast slot pen) result layer.new }
{
    lw_draw::set_rast(layer, pen);
    Reply::Done
}
