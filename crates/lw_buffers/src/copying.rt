ghost use Rattle.std.specs.Prelude.{◌≡◌, ℕ, ◌*◌, ◌<◌, true, if◌then◌else◌, length, pos, ◌+ℤ◌};
ghost use Rattle.std.specs.Int.{bit_at};
ghost use Rattle.std.specs.List.{All};
ghost use Rattle.lw_region.specs.Rectangle.{has_pixel};
ghost use Rattle.lw_region.specs.Bands.{covers};
ghost use Rattle.lw_planes.specs.Row.{bit_of, row_bit};
ghost use Rattle.lw_strips.specs.Strips.{rects_of, planes_of};
ghost use Rattle.lw_buffers.specs.Lookup.{IsBufferOf, AreBuffers, pen_from, pen_in};

use crate::shared::shared_part;
use lw_kernels::{COPY_MINTERM, combine, fill};
use lw_planes::Planes;
use lw_region::Rect;
use lw_strips::Strip;

/// Reads one plane of the pixels of row `y`, from column `x` on, as many as `bits` has bits: each bit becomes the plane's bit
/// of the pen that the first rectangle with this place has there, and 0 where no rectangle has it. The bits of `kept` say
/// which of the places some rectangle has. Bits are counted from the left of a row, so the first is the most significant
/// one of its first byte.
///
/// Both rows are equally long. Each rectangle has a buffer of its size, whose pixel (0, 0) is the rectangle's top left
/// corner, and which has the plane. The rectangles may lie over each other.
pub fn copy_row(
    rects: &[Rect],
    buffers: &[Planes],
    plane: u32,
    x: i32,
    y: i32,
    bits: &mut [u8],
    kept: &mut [u8],
)
    requires equally_long { length kept.old ≡ length bits.old }
    requires buffers { AreBuffers rects.now buffers.now }
    requires plane { All (λ b. plane < b.depth) buffers.now }
    ensures bits { (i : ℕ) → i < 8 * length bits.old → row_bit bits.new i ≡
        bit_at (pen_in rects.now buffers.now (x +ℤ pos i) y) plane }
    ensures kept { (i : ℕ) → i < 8 * length bits.old → row_bit kept.new i ≡
        bit_of (covers rects.now (x +ℤ pos i) y) }
{
    bits.fill(0);
    kept.fill(0);
    copy_over(rects, buffers, plane, x, y, bits, kept);
}

// As `copy_row`, over what the rows have already: where no rectangle has a place, its bits in both stay as they were.
fn copy_over(
    rects: &[Rect],
    buffers: &[Planes],
    plane: u32,
    x: i32,
    y: i32,
    bits: &mut [u8],
    kept: &mut [u8],
)
    requires equally_long { length kept.old ≡ length bits.old }
    requires buffers { AreBuffers rects.now buffers.now }
    requires plane { All (λ b. plane < b.depth) buffers.now }
    ensures bits { (i : ℕ) → i < 8 * length bits.old → row_bit bits.new i ≡
        (if covers rects.now (x +ℤ pos i) y
        then bit_at (pen_in rects.now buffers.now (x +ℤ pos i) y) plane
        else row_bit bits.old i) }
    ensures kept { (i : ℕ) → i < 8 * length bits.old → row_bit kept.new i ≡
        (if covers rects.now (x +ℤ pos i) y then 1 else row_bit kept.old i) }
{
    // From the last to the first, so that the first rectangle with a place is written last.
    for index in (0..rects.len()).rev() {
        copy_from(&rects[index], &buffers[index], plane, x, y, bits, kept);
    }
}

// The same for one rectangle.
fn copy_from(
    rect: &Rect,
    buffer: &Planes,
    plane: u32,
    x: i32,
    y: i32,
    bits: &mut [u8],
    kept: &mut [u8],
)
    requires equally_long { length kept.old ≡ length bits.old }
    requires size { IsBufferOf rect.now buffer.now }
    requires plane { plane < buffer.now.depth }
    ensures bits { (i : ℕ) → i < 8 * length bits.old → row_bit bits.new i ≡
        (if has_pixel rect.now (x +ℤ pos i) y
        then bit_at (pen_from rect.now buffer.now (x +ℤ pos i) y) plane
        else row_bit bits.old i) }
    ensures kept { (i : ℕ) → i < 8 * length bits.old → row_bit kept.new i ≡
        (if has_pixel rect.now (x +ℤ pos i) y then 1 else row_bit kept.old i) }
{
    if let Some(part) = shared_part(rect, x, y, bits.len()) {
        let source = buffer.row(plane, part.line);
        combine(
            bits,
            part.bit,
            source,
            part.column,
            part.count,
            COPY_MINTERM,
        );
        fill(kept, part.bit, part.count, true);
    }
}

/// As `copy_row` of the rectangles and bitmaps of solid strips, over what the rows have already: where no strip has a place, its
/// bits in both stay as they were. So strips are laid over what lies behind them.
pub fn copy_strips(strips: &[Strip], plane: u32, x: i32, y: i32, bits: &mut [u8], kept: &mut [u8])
    requires equally_long { length kept.old ≡ length bits.old }
    requires solid { All (λ s. s.solid ≡ true) strips.now }
    requires plane { All (λ s. plane < s.planes.depth) strips.now }
    ensures bits { (i : ℕ) → i < 8 * length bits.old → row_bit bits.new i ≡
        (if covers (rects_of strips.now) (x +ℤ pos i) y
        then bit_at (pen_in (rects_of strips.now) (planes_of strips.now) (x +ℤ pos i) y) plane
        else row_bit bits.old i) }
    ensures kept { (i : ℕ) → i < 8 * length bits.old → row_bit kept.new i ≡
        (if covers (rects_of strips.now) (x +ℤ pos i) y then 1 else row_bit kept.old i) }
{
    // From the last to the first, so that the first strip with a place is written last.
    for index in (0..strips.len()).rev() {
        copy_strip(&strips[index], plane, x, y, bits, kept);
    }
}

// The same for one strip.
fn copy_strip(strip: &Strip, plane: u32, x: i32, y: i32, bits: &mut [u8], kept: &mut [u8])
    requires equally_long { length kept.old ≡ length bits.old }
    requires solid { strip.now.solid ≡ true }
    requires plane { plane < strip.now.planes.depth }
    ensures bits { (i : ℕ) → i < 8 * length bits.old → row_bit bits.new i ≡
        (if has_pixel strip.now.rect (x +ℤ pos i) y
        then bit_at (pen_from strip.now.rect strip.now.planes (x +ℤ pos i) y) plane
        else row_bit bits.old i) }
    ensures kept { (i : ℕ) → i < 8 * length bits.old → row_bit kept.new i ≡
        (if has_pixel strip.now.rect (x +ℤ pos i) y then 1 else row_bit kept.old i) }
{
    copy_from(strip.rect(), strip.bitmap(), plane, x, y, bits, kept);
}
