// Where the pixels of a live layer lie: on the plane of the screen, and in which buffer.

ghost use Rattle.std.specs.Prelude.{◌≡◌, ◌<◌, ◌≤◌, length};
ghost use Rattle.lw_layer.specs.Pieces.{across, down, found_in, rest_of, buffer_at, buffered, buffer_rectangle, whole_of};
ghost use Rattle.lw_layer.specs.Drafts.{IsLiveDraft, layout};
ghost use Rattle.lw_layer.specs.Code.{AreEdges};

use crate::draft::LiveDraft;
use lw_calls::Kind;
use lw_region::Rect;

// The left edge, the top edge and the right edge of a rectangle, on the plane of the screen.
#[derive(Clone, Copy)]
pub(crate) struct Edges {
    pub left: i32,
    pub top: i32,
    pub right: i32,
}

impl LiveDraft {
    // The number of columns of the layer's bits.
    pub(crate) fn width(&self) -> u32
        requires { IsLiveDraft self.now }
        ensures { result ≡ (layout self.now).width }
    {
        match &self.superbits {
            None => self.bounds.width(),
            Some(own) => own.width(),
        }
    }

    // The number of rows of the layer's bits.
    pub(crate) fn height(&self) -> u32
        requires { IsLiveDraft self.now }
        ensures { result ≡ (layout self.now).height }
    {
        match &self.superbits {
            None => self.bounds.height(),
            Some(own) => own.height(),
        }
    }

    // Where the layer's column lies on the plane of the screen.
    pub(crate) fn across(&self, x: u32) -> i32
        requires sound { IsLiveDraft self.now }
        requires near { x ≤ 2048 }
        ensures { result ≡ across (layout self.now) x }
    {
        i32::from(self.bounds.min_x()) + x as i32 - self.scroll_x
    }

    // Where the layer's row lies on the plane of the screen.
    pub(crate) fn down(&self, y: u32) -> i32
        requires sound { IsLiveDraft self.now }
        requires near { y ≤ 2048 }
        ensures { result ≡ down (layout self.now) y }
    {
        i32::from(self.bounds.min_y()) + y as i32 - self.scroll_y
    }

    // The number of the buffer that has the pixel's pen.
    #[tactic(auto, using(crate::proofs::FoundLaws::found_front, crate::proofs::FoundLaws::found_rest, crate::proofs::FoundLaws::found_nowhere))]
    pub(crate) fn buffer_at(&self, x: u32, y: u32) -> Option<usize>
        requires sound { IsLiveDraft self.now }
        requires column { x < (layout self.now).width }
        requires row { y < (layout self.now).height }
        ensures { result ≡ buffer_at (layout self.now) x y }
    {
        if let Some(number) = self.find(self.parts.visible(), x, y) {
            return Some(number);
        }
        let number = self.find_rest(x, y)?;
        Some(self.parts.visible().len() + number)
    }

    // The number of the first rectangle with a buffer, beside the visible ones, that has the pixel.
    #[tactic(auto, using(crate::proofs::FoundLaws::found_whole))]
    fn find_rest(&self, x: u32, y: u32) -> Option<usize>
        requires sound { IsLiveDraft self.now }
        requires column { x < (layout self.now).width }
        requires row { y < (layout self.now).height }
        ensures { result ≡ found_in (layout self.now) (rest_of (layout self.now)) x y }
    {
        match self.kind {
            Kind::Simple => None,
            Kind::Smart => self.find(self.parts.hidden(), x, y),
            Kind::SuperBitmap => Some(0),
        }
    }

    // The number of the first rectangle that has the pixel.
    fn find(&self, rects: &[Rect], x: u32, y: u32) -> Option<usize>
        requires sound { IsLiveDraft self.now }
        requires column { x < (layout self.now).width }
        requires row { y < (layout self.now).height }
        ensures { result ≡ found_in (layout self.now) rects.now x y }
    {
        let column = self.across(x);
        let row = self.down(y);
        rects.iter().position(|rect| rect.has(column, row))
    }
}

impl LiveDraft {
    // The edges of a buffer's rectangle.
    pub(crate) fn buffer_edges(&self, number: usize) -> Edges
        requires sound { IsLiveDraft self.now }
        requires there { number < length (buffered (layout self.now)) }
        ensures { AreEdges result (buffer_rectangle (layout self.now) number) }
    {
        let shown = self.parts.visible();
        if number < shown.len() {
            return edges_of(&shown[number]);
        }
        match self.kind {
            Kind::Simple => unreachable!(),
            Kind::Smart => edges_of(&self.parts.hidden()[number - shown.len()]),
            Kind::SuperBitmap => self.whole(),
        }
    }

    // The edges of the own bitmap.
    fn whole(&self) -> Edges
        requires { IsLiveDraft self.now }
        ensures { AreEdges result (whole_of (layout self.now)) }
    {
        Edges {
            left: self.across(0),
            top: self.down(0),
            right: self.across(self.width() - 1),
        }
    }
}

// The edges of a rectangle.
fn edges_of(rect: &Rect) -> Edges
    ensures { AreEdges result rect.now }
{
    Edges {
        left: i32::from(rect.min_x()),
        top: i32::from(rect.min_y()),
        right: i32::from(rect.max_x()),
    }
}
