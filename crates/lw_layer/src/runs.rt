// Runs of pixels, by the lists of rectangles and not pixel by pixel: how far a row goes on in one buffer, in the clip region
// and in the damage.

ghost use Rattle.std.specs.Prelude.{◌≡◌, ◌<◌, ◌≤◌, ◌+◌, pos, ◌-ℤ◌, ◌≤ℤ◌, false, Some, length};
ghost use Rattle.lw_region.specs.Bands.{covers};
ghost use Rattle.lw_calls.specs.declared.make.Kind.TheVariants.{SuperBitmap};
ghost use Rattle.lw_machine.specs.Kept.{in_clip};
ghost use Rattle.lw_layer.specs.View.{keeps, draws};
ghost use Rattle.lw_layer.specs.Pieces.{across, down, buffer_at, buffer_rectangle};
ghost use Rattle.lw_layer.specs.Drafts.{IsLiveDraft, layout, clip_set, live_view};
ghost use Rattle.lw_layer.specs.Runs.{IsRunAt};
ghost use Rattle.lw_layer.specs.Code.{HasPlace, IsPlaceIn, IsReach, IsKeptReach, lets_draw};

use crate::draft::LiveDraft;
use crate::run::Run;
use lw_calls::Kind;
use lw_region::Region;

impl LiveDraft {
    // A run of drawable pixels from any pixel on.
    #[tactic(auto, using(crate::proofs::KeptLaws::columns_undrawn, crate::proofs::KeptLaws::rows_undrawn))]
    pub(crate) fn run_from(&self, x: i32, y: i32) -> Option<Run>
        requires { IsLiveDraft self.now }
        ensures { IsRunAt (live_view self.now) (λ i j. draws (live_view self.now) i j) x y result }
    {
        let Some(column) = place_in(self.width(), x) else {
            return None;
        };
        let Some(row) = place_in(self.height(), y) else {
            return None;
        };
        self.run_at(column, row)
    }

    // A run of drawable pixels from (x, y) on, where that is drawable.
    #[tactic(auto, using(crate::proofs::KeptLaws::run_some, crate::proofs::KeptLaws::run_none))]
    pub(crate) fn run_at(&self, x: u32, y: u32) -> Option<Run>
        requires sound { IsLiveDraft self.now }
        requires column { x < (layout self.now).width }
        requires row { y < (layout self.now).height }
        ensures { IsRunAt (live_view self.now) (λ i j. draws (live_view self.now) i j) (pos x) (pos y) result }
    {
        // Reading these tells the proof that the rectangles cover the bounds.
        let _ = self.bounds.min_x();
        let _ = self.parts.hidden();
        let Some(number) = self.buffer_at(x, y) else {
            return None;
        };
        let kept = self.kept_reach(x, y, number);
        let len = self.drawn_reach(x, y, kept);
        if len == 0 {
            return None;
        }
        Some(Run {
            buffer: number,
            line: self.line_in(number, x, y),
            bit: self.column_in(number, x, y),
            len,
        })
    }

    // A run of kept pixels from any pixel on.
    #[tactic(auto, using(crate::proofs::KeptLaws::columns_off, crate::proofs::KeptLaws::rows_off))]
    pub(crate) fn kept_run_from(&self, x: i32, y: i32) -> Option<Run>
        requires { IsLiveDraft self.now }
        ensures { IsRunAt (live_view self.now) (λ i j. keeps (live_view self.now) i j) x y result }
    {
        let Some(column) = place_in(self.width(), x) else {
            return None;
        };
        let Some(row) = place_in(self.height(), y) else {
            return None;
        };
        self.kept_run_at(column, row)
    }

    // A run of kept pixels from (x, y) on, where that is kept.
    fn kept_run_at(&self, x: u32, y: u32) -> Option<Run>
        requires sound { IsLiveDraft self.now }
        requires column { x < (layout self.now).width }
        requires row { y < (layout self.now).height }
        ensures { IsRunAt (live_view self.now) (λ i j. keeps (live_view self.now) i j) (pos x) (pos y) result }
    {
        // Reading these tells the proof that the rectangles cover the bounds.
        let _ = self.bounds.min_x();
        let _ = self.parts.hidden();
        let Some(number) = self.buffer_at(x, y) else {
            return None;
        };
        let len = self.kept_reach(x, y, number);
        Some(Run {
            buffer: number,
            line: self.line_in(number, x, y),
            bit: self.column_in(number, x, y),
            len,
        })
    }

    // The column of the pixel in the buffer that has its pen.
    pub(crate) fn column_in(&self, number: usize, x: u32, y: u32) -> u32
        requires sound { IsLiveDraft self.now }
        requires found { buffer_at (layout self.now) x y ≡ Some number }
        requires pixel { HasPlace (layout self.now) x y number }
        ensures { pos result ≡ across (layout self.now) x -ℤ (buffer_rectangle (layout self.now) number).min_x }
    {
        gap(self.buffer_edges(number).left, self.across(x))
    }

    // The line of the pixel in the buffer that has its pen.
    pub(crate) fn line_in(&self, number: usize, x: u32, y: u32) -> u32
        requires sound { IsLiveDraft self.now }
        requires found { buffer_at (layout self.now) x y ≡ Some number }
        requires pixel { HasPlace (layout self.now) x y number }
        ensures { pos result ≡ down (layout self.now) y -ℤ (buffer_rectangle (layout self.now) number).min_y }
    {
        gap(self.buffer_edges(number).top, self.down(y))
    }

    // How many pixels from (x, y) on have their pens in the buffer that has the pen of (x, y).
    #[tactic(auto, using(crate::proofs::ReachLaws::free_in_own))]
    fn kept_reach(&self, x: u32, y: u32, number: usize) -> u32
        requires sound { IsLiveDraft self.now }
        requires pixel { HasPlace (layout self.now) x y number }
        requires found { buffer_at (layout self.now) x y ≡ Some number }
        ensures { IsKeptReach (layout self.now) number x y result }
    {
        if self.kind == Kind::SuperBitmap && number == self.parts.visible().len() {
            self.own_reach(x, y)
        } else {
            self.rectangle_reach(x, y, number)
        }
    }

    // The same, for a pixel in an own bitmap: up to the next visible rectangle.
    #[tactic(auto, using(crate::proofs::ReachLaws::own_reach_next, crate::proofs::ReachLaws::own_reach_none, crate::proofs::ReachLaws::next_is_later))]
    fn own_reach(&self, x: u32, y: u32) -> u32
        requires sound { IsLiveDraft self.now }
        requires own { self.now.kind ≡ SuperBitmap }
        requires column { x < (layout self.now).width }
        requires row { y < (layout self.now).height }
        requires free { covers self.now.parts.visible (across (layout self.now) x) (down (layout self.now) y) ≡ false }
        ensures { IsKeptReach (layout self.now) (length self.now.parts.visible) x y result }
    {
        let all = self.width() - x;
        let place = self.across(x);
        let row = self.down(y);
        match self.parts.visible_region().next_start(place, row) {
            None => all,
            Some(next) => all.min(gap(place, next)),
        }
    }

    // The same, for a pixel in another buffer: up to the edge of its rectangle.
    #[tactic(auto, using(crate::proofs::ReachLaws::rectangle_reach_is, crate::proofs::ReachLaws::up_to_edge))]
    fn rectangle_reach(&self, x: u32, y: u32, number: usize) -> u32
        requires sound { IsLiveDraft self.now }
        requires pixel { HasPlace (layout self.now) x y number }
        requires found { buffer_at (layout self.now) x y ≡ Some number }
        requires shown { self.now.kind ≡ SuperBitmap → number < length self.now.parts.visible }
        ensures { IsKeptReach (layout self.now) number x y result }
    {
        // Reading the hidden list tells the proof that no two rectangles overlap.
        let _ = self.parts.hidden();
        let all = self.width() - x;
        let place = self.across(x);
        let right = self.buffer_edges(number).right;
        (all - 1).min(gap(place, right)) + 1
    }

    // How many of len pixels from (x, y) on the clip region and the damage let be drawn.
    #[tactic(auto, using(crate::proofs::ReachLaws::drawn_reach_updating, crate::proofs::ReachLaws::drawn_reach_idle))]
    fn drawn_reach(&self, x: u32, y: u32, len: u32) -> u32
        requires column { x < 65536 }
        requires row { y < 65536 }
        ensures { IsReach (lets_draw self.now y) x len result }
    {
        let clipped = self.clip_reach(x, y, len);
        if self.damage.updating() {
            reach(self.damage.region(), x, y, clipped)
        } else {
            clipped
        }
    }

    // How many of len pixels from (x, y) on are in the clip region, if there is one.
    #[tactic(auto, using(crate::proofs::ReachLaws::clip_reach_none, crate::proofs::ReachLaws::clip_reach_some))]
    fn clip_reach(&self, x: u32, y: u32, len: u32) -> u32
        requires column { x < 65536 }
        requires row { y < 65536 }
        ensures { IsReach (λ u. in_clip (clip_set self.now.clip) u y) x len result }
    {
        match &self.clip {
            None => len,
            Some(region) => reach(region, x, y, len),
        }
    }
}

// A place as one of so many from 0 on.
pub(crate) fn place_in(count: u32, place: i32) -> Option<u32>
    requires { count ≤ 2048 }
    ensures { IsPlaceIn count place result }
{
    if 0 <= place && place < count as i32 {
        Some(place as u32)
    } else {
        None
    }
}

// How far a place is from another that isn't before it.
pub(crate) fn gap(from: i32, to: i32) -> u32
    requires { from ≤ℤ to }
    ensures { pos result ≡ to -ℤ from }
{
    (i64::from(to) - i64::from(from)) as u32
}

// How many of len pixels from (x, y) on the region has.
fn reach(region: &Region, x: u32, y: u32, len: u32) -> u32
    requires column { x < 65536 }
    requires row { y < 65536 }
    ensures { IsReach (λ u. covers region.now (pos u) (pos y)) x len result }
{
    match region.run_end(x as i32, y as i32) {
        None => 0,
        Some(last) => len.min((last - x as i32) as u32 + 1),
    }
}
