// Reading a row of one plane of a live layer, rectangle by rectangle and not pixel by pixel.

ghost use Rattle.std.specs.Prelude.{◌≡◌, ◌*◌, ◌<◌, [], ◌∷◌, length, pos, negsuc, ◌≤ℤ◌};
ghost use Rattle.lw_calls.specs.declared.make.Kind.TheVariants.{SuperBitmap};
ghost use Rattle.lw_layer.specs.Pieces.{down, buffered, rest_of};
ghost use Rattle.lw_layer.specs.Drafts.{IsLiveDraft, layout, buffers_of, live_view};
ghost use Rattle.lw_layer.specs.Copied.{IsRowOf, HasPlaces, AreClear, across_at, rest_buffers, area_of};

use crate::draft::LiveDraft;
use crate::runs::place_in;
use lw_buffers::{copy_row, copy_strips};
use lw_calls::Kind;
use lw_planes::Planes;
use lw_region::Rect;
use std::slice;

// No layer has a column so far right.
const LAST: i32 = 2048;

// Columns left of this one are cut off before any sum, so many bytes of them.
const FIRST: i32 = -2_000_000_000;

const CUT: usize = 0x200_0000;

impl LiveDraft {
    // Reads one plane of the pixels of row y from column x on, and which of them are kept.
    pub(crate) fn copy_row(&self, plane: u32, x: i32, y: i32, bits: &mut [u8], kept: &mut [u8])
        requires sound { IsLiveDraft self.now }
        requires plane { plane < self.now.depth }
        requires equally_long { length kept.old ≡ length bits.old }
        ensures { IsRowOf (live_view self.now) plane x y (8 * length bits.old) bits.new kept.new }
    {
        if x >= FIRST {
            self.copy_near(plane, x, y, bits, kept);
            return;
        }
        let cut = bits.len().min(CUT);
        let (far_bits, near_bits) = bits.split_at_mut(cut);
        let (far_kept, near_kept) = kept.split_at_mut(cut);
        clear(far_bits, far_kept);
        self.copy_near(plane, x + 8 * CUT as i32, y, near_bits, near_kept);
    }

    // The same, where no sum overflows.
    fn copy_near(&self, plane: u32, x: i32, y: i32, bits: &mut [u8], kept: &mut [u8])
        requires sound { IsLiveDraft self.now }
        requires plane { plane < self.now.depth }
        requires equally_long { length kept.old ≡ length bits.old }
        requires near { negsuc 1999999999 ≤ℤ x }
        ensures { IsRowOf (live_view self.now) plane x y (8 * length bits.old) bits.new kept.new }
    {
        // Reading these tells the proof that the rectangles cover the bounds.
        let _ = self.bounds.min_x();
        let _ = self.parts.hidden();
        let Some(row) = place_in(self.height(), y) else {
            clear(bits, kept);
            return;
        };
        if x >= LAST {
            clear(bits, kept);
            return;
        }
        self.copy_buffered(plane, x, row, bits, kept);
    }

    // The same, out of all buffers: a visible rectangle is written over what lies behind it.
    fn copy_buffered(&self, plane: u32, x: i32, y: u32, bits: &mut [u8], kept: &mut [u8])
        requires sound { IsLiveDraft self.now }
        requires plane { plane < self.now.depth }
        requires row { y < (layout self.now).height }
        requires equally_long { length kept.old ≡ length bits.old }
        requires left { negsuc 1999999999 ≤ℤ x }
        requires right { x ≤ℤ pos 2048 }
        ensures { HasPlaces (buffered (layout self.now)) (buffers_of self.now) plane (across_at (layout self.now) x)
            (down (layout self.now) y) (8 * length bits.old) bits.new kept.new }
    {
        let column = self.across_at(x);
        let line = self.down(y);
        self.copy_rest(plane, x, y, bits, kept);
        copy_strips(&self.strips, plane, column, line, bits, kept);
    }

    // The same, out of the buffers beside those of the visible rectangles.
    fn copy_rest(&self, plane: u32, x: i32, y: u32, bits: &mut [u8], kept: &mut [u8])
        requires sound { IsLiveDraft self.now }
        requires plane { plane < self.now.depth }
        requires row { y < (layout self.now).height }
        requires equally_long { length kept.old ≡ length bits.old }
        requires left { negsuc 1999999999 ≤ℤ x }
        requires right { x ≤ℤ pos 2048 }
        ensures { HasPlaces (rest_of (layout self.now)) (rest_buffers self.now) plane (across_at (layout self.now) x)
            (down (layout self.now) y) (8 * length bits.old) bits.new kept.new }
    {
        match self.kind {
            Kind::Simple => clear(bits, kept),
            Kind::Smart => copy_row(
                self.parts.hidden(),
                &self.covered,
                plane,
                self.across_at(x),
                self.down(y),
                bits,
                kept,
            ),
            Kind::SuperBitmap => self.copy_own(plane, x, y, bits, kept),
        }
    }

    // The same, out of an own bitmap.
    fn copy_own(&self, plane: u32, x: i32, y: u32, bits: &mut [u8], kept: &mut [u8])
        requires sound { IsLiveDraft self.now }
        requires own { self.now.kind ≡ SuperBitmap }
        requires plane { plane < self.now.depth }
        requires row { y < (layout self.now).height }
        requires equally_long { length kept.old ≡ length bits.old }
        ensures { HasPlaces (rest_of (layout self.now)) (rest_buffers self.now) plane (across_at (layout self.now) x)
            (down (layout self.now) y) (8 * length bits.old) bits.new kept.new }
    {
        match &self.superbits {
            Some(own) => copy_whole(own, plane, x, y, bits, kept),
            None => unreachable!(),
        }
    }

    // Where the layer's column lies on the plane of the screen, also where the layer has no such column.
    fn across_at(&self, x: i32) -> i32
        requires sound { IsLiveDraft self.now }
        requires left { negsuc 1999999999 ≤ℤ x }
        requires right { x ≤ℤ pos 2048 }
        ensures { result ≡ across_at (layout self.now) x }
    {
        i32::from(self.bounds.min_x()) + x - self.scroll_x
    }
}

// Reads one plane of the pixels of row y of a bitmap from column x on, and which of them it has.
fn copy_whole(own: &Planes, plane: u32, x: i32, y: u32, bits: &mut [u8], kept: &mut [u8])
    requires plane { plane < own.now.depth }
    requires row { y < own.now.height }
    requires equally_long { length kept.old ≡ length bits.old }
    ensures { HasPlaces (area_of own.now ∷ []) (own.now ∷ []) plane x (pos y) (8 * length bits.old) bits.new kept.new }
{
    let right = own.width() as i16 - 1;
    let bottom = own.height() as i16 - 1;
    let Some(area) = Rect::new(0, 0, right, bottom) else {
        unreachable!();
    };
    let rects = slice::from_ref(&area);
    copy_row(rects, slice::from_ref(own), plane, x, y as i32, bits, kept);
}

fn clear(bits: &mut [u8], kept: &mut [u8])
    ensures { AreClear bits.new kept.new }
{
    bits.fill(0);
    kept.fill(0);
}
