// Laying the pens that a live layer keeps on a bitmap, buffer by buffer.

ghost use Rattle.std.specs.Prelude.{◌≡◌, ◌+ℤ◌, ◌-ℤ◌};
ghost use Rattle.lw_strips.specs.Strips.{rects_of};
ghost use Rattle.lw_buffers.specs.Lookup.{IsNear, with_buffers};
ghost use Rattle.lw_calls.specs.declared.make.Kind.TheVariants.{SuperBitmap};
ghost use Rattle.lw_layer.specs.Pieces.{rest_of};
ghost use Rattle.lw_layer.specs.Drafts.{IsLiveDraft, layout, live_view};
ghost use Rattle.lw_layer.specs.Copied.{rest_buffers, with_kept, HaveShown};

use crate::draft::LiveDraft;
use lw_buffers::{lay_buffers, lay_strips};
use lw_calls::Kind;
use lw_planes::Planes;
use lw_strips::{Strip, lay_bitmap};

impl LiveDraft {
    // Lays the pens that the layer keeps on a bitmap whose pixel (0, 0) lies on the layer's pixel (x, y).
    pub(crate) fn copy_kept(&self, x: i32, y: i32, to: &mut Planes)
        requires sound { IsLiveDraft self.now }
        requires planes { to.old.depth ≡ self.now.depth }
        ensures { to.new ≡ with_kept (live_view self.now) x y to.old }
    {
        // Reading these tells the proof that the rectangles cover the bounds.
        let _ = self.bounds.min_x();
        let _ = self.parts.hidden();
        let left = start(self.bounds.min_x(), self.scroll_x, x);
        let top = start(self.bounds.min_y(), self.scroll_y, y);
        self.lay_rest(left, top, to);
        lay_strips(to, left, top, &self.strips);
    }

    // The strips of the visible rectangles.
    pub(crate) fn shown_strips(&self) -> &[Strip]
        requires { IsLiveDraft self.now }
        ensures rects { rects_of result.now ≡ (live_view self.now).visible }
        ensures pens { HaveShown (live_view self.now) result.now }
    {
        // Reading these tells the proof that the rectangles cover the bounds.
        let _ = self.bounds.min_x();
        let _ = self.parts.hidden();
        self.strips.as_slice()
    }

    // Lays the buffers beside those of the visible rectangles on a bitmap whose pixel (0, 0) is a place of the screen's plane.
    fn lay_rest(&self, left: i64, top: i64, to: &mut Planes)
        requires sound { IsLiveDraft self.now }
        requires planes { to.old.depth ≡ self.now.depth }
        requires left { IsNear left }
        requires top { IsNear top }
        ensures { to.new ≡ with_buffers (rest_of (layout self.now)) (rest_buffers self.now) left top to.old }
    {
        // Reading this tells the proof that the bitmap is sound.
        let _ = to.depth();
        match self.kind {
            Kind::Simple => {}
            Kind::Smart => lay_buffers(to, left, top, self.parts.hidden(), &self.covered),
            Kind::SuperBitmap => self.lay_own(left, top, to),
        }
    }

    // Lays the own bitmap.
    fn lay_own(&self, left: i64, top: i64, to: &mut Planes)
        requires sound { IsLiveDraft self.now }
        requires own { self.now.kind ≡ SuperBitmap }
        requires planes { to.old.depth ≡ self.now.depth }
        requires left { IsNear left }
        requires top { IsNear top }
        ensures { to.new ≡ with_buffers (rest_of (layout self.now)) (rest_buffers self.now) left top to.old }
    {
        // Reading this tells the proof that the bitmap is sound.
        let _ = to.depth();
        let x = start(self.bounds.min_x(), self.scroll_x, 0) - left;
        let y = start(self.bounds.min_y(), self.scroll_y, 0) - top;
        match &self.superbits {
            Some(own) => lay_bitmap(to, x, y, own),
            None => unreachable!(),
        }
    }
}

// Where a layer's column or row lies on the screen's plane, if the edge of its bounds shows the one at the scroll.
#[tactic(auto, using(std::proofs::lemmas::Int::ints))]
fn start(edge: i16, scroll: i32, place: i32) -> i64
    ensures value { result ≡ (edge +ℤ place) -ℤ scroll }
    ensures near { IsNear result }
{
    i64::from(edge) + i64::from(place) - i64::from(scroll)
}
