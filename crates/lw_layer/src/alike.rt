// How many rows of a live layer are alike, by the edges of all rectangles and not pixel by pixel.

ghost use Rattle.std.specs.Prelude.{◌≡◌, ℕ, ◌+◌, ◌<◌, ◌≤◌, pos, ◌+ℤ◌};
ghost use Rattle.lw_cliprects.specs.Parts.{hidden_of};
ghost use Rattle.lw_layer.specs.Pieces.{down};
ghost use Rattle.lw_layer.specs.Drafts.{IsLiveDraft, layout, live_view};
ghost use Rattle.lw_layer.specs.New.{kept_hidden};
ghost use Rattle.lw_layer.specs.Runs.{AreAlike};
ghost use Rattle.lw_layer.specs.Code.{HasBoth, AreRowsAlike, rectangles_in, drawn_in};

use crate::draft::LiveDraft;
use crate::runs::gap;
use lw_calls::Kind;
use lw_region::Rect;

impl LiveDraft {
    // How many rows from row y on are like it.
    pub(crate) fn rows_alike(&self, y: u32) -> u32
        requires sound { IsLiveDraft self.now }
        requires row { y < (layout self.now).height }
        ensures some { 0 < result }
        ensures inside { y + result ≤ (layout self.now).height }
        ensures alike { (k : ℕ) → k < result → AreAlike (live_view self.now) y (y + k) }
    {
        let left = self.height() - y;
        let shown = self.screen_rows(self.parts.visible(), y, left);
        let buffered = self.rest_rows(y, shown);
        let clipped = self.clip_rows(y, buffered);
        self.damage_rows(y, clipped)
    }

    // The same, by the rectangles with a buffer beside the visible ones.
    fn rest_rows(&self, y: u32, most: u32) -> u32
        requires sound { IsLiveDraft self.now }
        requires row { y < (layout self.now).height }
        requires some { 0 < most }
        ensures { AreRowsAlike (kept_hidden self.now.kind (hidden_of self.now.bounds self.now.parts.visible))
            (down (layout self.now) y) most result }
    {
        match self.kind {
            Kind::Simple => most,
            Kind::Smart => self.screen_rows(self.parts.hidden(), y, most),
            Kind::SuperBitmap => most,
        }
    }

    // The same, by the clip region, if there is one.
    fn clip_rows(&self, y: u32, most: u32) -> u32
        requires row { y < 65536 }
        requires some { 0 < most }
        ensures { AreRowsAlike (rectangles_in self.now.clip) (pos y) most result }
    {
        match &self.clip {
            None => most,
            Some(region) => layer_rows(region.rects(), y, most),
        }
    }

    // The same, by the damage, where only damaged pixels are drawable.
    fn damage_rows(&self, y: u32, most: u32) -> u32
        requires row { y < 65536 }
        requires some { 0 < most }
        ensures { AreRowsAlike (drawn_in self.now.damage) (pos y) most result }
    {
        if self.damage.updating() {
            layer_rows(self.damage.region().rects(), y, most)
        } else {
            most
        }
    }

    // The same, by rectangles of the screen.
    fn screen_rows(&self, rects: &[Rect], y: u32, most: u32) -> u32
        requires sound { IsLiveDraft self.now }
        requires row { y < (layout self.now).height }
        requires some { 0 < most }
        ensures { AreRowsAlike rects.now (down (layout self.now) y) most result }
    {
        rows_by(rects, self.down(y), most)
    }
}

// The same, by rectangles in layer coordinates.
fn layer_rows(rects: &[Rect], y: u32, most: u32) -> u32
    requires row { y < 65536 }
    requires some { 0 < most }
    ensures { AreRowsAlike rects.now (pos y) most result }
{
    rows_by(rects, y as i32, most)
}

// How many rows from a row on, at most so many, are such that each rectangle has all of them or none.
fn rows_by(rects: &[Rect], row: i32, most: u32) -> u32
    requires { 0 < most }
    ensures { AreRowsAlike rects.now row most result }
{
    let mut rows = most;
    for rect in rects {
        rows = rows.min(rect_rows(rect, row));
    }
    rows
}

// The same, of one rectangle.
fn rect_rows(rect: &Rect, row: i32) -> u32
    ensures some { 0 < result }
    ensures alike { (k : ℕ) → k < result → HasBoth row (row +ℤ pos k) rect.now }
{
    let top = i32::from(rect.min_y());
    if row < top {
        return gap(row, top);
    }
    let bottom = i32::from(rect.max_y());
    if row <= bottom {
        return gap(row, bottom) + 1;
    }
    u32::MAX
}
