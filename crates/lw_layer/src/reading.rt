// Reading the pixels of a live layer.

ghost use Rattle.std.specs.Prelude.{◌≡◌, ◌<◌, if◌then◌else◌, pos};
ghost use Rattle.lw_calls.specs.Kinds.{is_super};
ghost use Rattle.lw_layer.specs.View.{kept_pen};
ghost use Rattle.lw_layer.specs.Looks.{IsLook, owner_of};
ghost use Rattle.lw_layer.specs.StandsFor.{IsSound};
ghost use Rattle.lw_layer.specs.Pieces.{HasLine};
ghost use Rattle.lw_layer.specs.Drafts.{IsLiveDraft, layout, buffers_of, no_bitmap, window_of, live_view};
ghost use Rattle.std.specs.List.{slice_index_or};
ghost use Rattle.lw_planes.specs.Bitmap.{pen_at};

use crate::draft::LiveDraft;
use crate::look::Look;
use crate::runs::place_in;
use crate::windows::is_framed;
use lw_calls::Kind;

impl LiveDraft {
    // The pen of the pixel, where it is kept.
    pub(crate) fn kept_at(&self, x: i32, y: i32) -> Option<u8>
        requires { IsLiveDraft self.now }
        ensures { result ≡ kept_pen (live_view self.now) x y }
    {
        let Some(column) = place_in(self.width(), x) else {
            return None;
        };
        let Some(row) = place_in(self.height(), y) else {
            return None;
        };
        self.pen_at(column, row)
    }

    // The pen of a pixel of the bits, where it is kept.
    fn pen_at(&self, x: u32, y: u32) -> Option<u8>
        requires sound { IsLiveDraft self.now }
        requires column { x < (layout self.now).width }
        requires row { y < (layout self.now).height }
        ensures { result ≡ kept_pen (live_view self.now) (pos x) (pos y) }
    {
        // Reading these tells the proof that the rectangles cover the bounds.
        let _ = self.bounds.min_x();
        let _ = self.parts.hidden();
        let Some(number) = self.buffer_at(x, y) else {
            return None;
        };
        let column = self.column_in(number, x, y);
        let line = self.line_in(number, x, y);
        Some(self.buffer_pen(number, column, line))
    }

    // The pen in a buffer.
    fn buffer_pen(&self, buffer: usize, column: u32, line: u32) -> u8
        requires sound { IsLiveDraft self.now }
        requires line { HasLine (layout self.now) buffer line }
        requires column { column < (slice_index_or (buffers_of self.now) buffer no_bitmap).width }
        ensures { result ≡ pen_at (slice_index_or (buffers_of self.now) buffer no_bitmap) column line }
    {
        self.buffer(buffer).pen(column, line)
    }
}

impl LiveDraft {
    // What the layer looks like.
    pub(crate) fn look(&self) -> Look
        requires { IsLiveDraft self.now }
        ensures look { IsLook (live_view self.now) result }
        ensures sound { IsSound (live_view self.now) }
    {
        // Reading these tells the proof what holds of the bounds and of their parts.
        let _ = self.bounds.min_x();
        let _ = self.parts.visible();
        let _ = self.parts.hidden();
        let (bits_w, bits_h) = self.own_size();
        Look {
            kind: self.kind,
            backdrop: self.backdrop,
            bounds: self.bounds,
            scroll_x: self.scroll_x,
            scroll_y: self.scroll_y,
            bits_w,
            bits_h,
            framed: is_framed(&self.window),
            owner: self.owner(),
            active: self.active,
            updating: self.damage.updating(),
        }
    }

    // The task that opened the window, if the layer is one.
    fn owner(&self) -> Option<u32>
        ensures { result ≡ owner_of (window_of self.now.window) }
    {
        match &self.window {
            None => None,
            Some(window) => Some(window.owner),
        }
    }

    // The size of the own bitmap, if there is one.
    fn own_size(&self) -> (u32, u32)
        requires { IsLiveDraft self.now }
        ensures width { result.0 ≡ (if is_super self.now.kind then (layout self.now).width else 0) }
        ensures height { result.1 ≡ (if is_super self.now.kind then (layout self.now).height else 0) }
    {
        match self.kind {
            Kind::SuperBitmap => (self.width(), self.height()),
            Kind::Simple => (0, 0),
            Kind::Smart => (0, 0),
        }
    }
}
