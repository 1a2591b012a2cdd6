// The next drawable or kept pixel of a row, by the lists of rectangles: from a column on to the first that is kept, from that one
// to the first in the clip region, and from that one to the first damaged one, until nothing moves.

ghost use Rattle.std.specs.Prelude.{◌≡◌, ℕ, ◌<◌, ◌≤◌, not, ◌||◌, pos};
ghost use Rattle.lw_region.specs.Bands.{covers};
ghost use Rattle.lw_machine.specs.Kept.{in_clip};
ghost use Rattle.lw_layer.specs.View.{keeps, draws};
ghost use Rattle.lw_layer.specs.Pieces.{across, down};
ghost use Rattle.lw_layer.specs.Drafts.{IsLiveDraft, clip_set, layout, live_view};
ghost use Rattle.lw_layer.specs.Runs.{IsNext};
ghost use Rattle.lw_layer.specs.Code.{IsStart, IsNextIn, IsFrom, IsBehind, lets_draw};

use crate::draft::LiveDraft;
use crate::runs::{gap, place_in};
use lw_calls::Kind;
use lw_region::Region;

impl LiveDraft {
    // The first drawable column from x to last of row y.
    pub(crate) fn next_from(&self, x: i32, y: i32, last: i32) -> Option<i32>
        requires { IsLiveDraft self.now }
        ensures { IsNext (λ i j. draws (live_view self.now) i j) x y last result }
    {
        let Some(row) = place_in(self.height(), y) else {
            return None;
        };
        let first = from_place(x);
        let end = behind_place(last).min(self.width());
        match self.next_in(first, row, end) {
            None => None,
            Some(column) => Some(column as i32),
        }
    }

    // The first drawable column from x to end, end excluded, of row y.
    fn next_in(&self, x: u32, y: u32, end: u32) -> Option<u32>
        requires sound { IsLiveDraft self.now }
        requires row { y < (layout self.now).height }
        requires end { end ≤ (layout self.now).width }
        ensures { IsNextIn (λ u. draws (live_view self.now) u y) x end result }
    {
        let mut column = x;
        while column < end {
            let next = self.drawn_start(column, y);
            if next == column {
                return Some(column);
            }
            column = next;
        }
        None
    }

    // The first kept column from x to last of row y.
    pub(crate) fn next_kept_from(&self, x: i32, y: i32, last: i32) -> Option<i32>
        requires { IsLiveDraft self.now }
        ensures { IsNext (λ i j. keeps (live_view self.now) i j) x y last result }
    {
        let Some(row) = place_in(self.height(), y) else {
            return None;
        };
        let first = from_place(x);
        let end = behind_place(last).min(self.width());
        match self.next_kept_in(first, row, end) {
            None => None,
            Some(column) => Some(column as i32),
        }
    }

    // The first kept column from x to end, end excluded, of row y.
    fn next_kept_in(&self, x: u32, y: u32, end: u32) -> Option<u32>
        requires sound { IsLiveDraft self.now }
        requires row { y < (layout self.now).height }
        requires end { end ≤ (layout self.now).width }
        ensures { IsNextIn (λ u. keeps (live_view self.now) u y) x end result }
    {
        let mut column = x;
        while column < end {
            let next = self.kept_start(column, y);
            if next == column {
                return Some(column);
            }
            column = next;
        }
        None
    }

    // The first column from x on that may be drawable.
    #[tactic(auto, using(crate::proofs::StartLaws::drawn_start_is, crate::proofs::StartLaws::drawn_start_past))]
    fn drawn_start(&self, x: u32, y: u32) -> u32
        requires sound { IsLiveDraft self.now }
        requires column { x < (layout self.now).width }
        requires row { y < (layout self.now).height }
        ensures { IsStart (λ u. draws (live_view self.now) u y) x result }
    {
        let kept = self.kept_start(x, y);
        if kept >= self.width() {
            return kept;
        }
        self.open_start(kept, y)
    }

    // The first column from x on that the clip region and the damage let be drawn.
    #[tactic(auto, using(crate::proofs::StartLaws::open_start_is, crate::proofs::StartLaws::open_start_past))]
    fn open_start(&self, x: u32, y: u32) -> u32
        requires column { x < 65536 }
        requires row { y < 65536 }
        ensures { IsStart (lets_draw self.now y) x result }
    {
        let clip = self.clip_start(x, y);
        if clip >= 65536 {
            return clip;
        }
        self.damage_start(clip, y)
    }

    // The first kept column from x on.
    #[tactic(auto, using(crate::proofs::StartLaws::kept_start_simple, crate::proofs::StartLaws::kept_start_smart, crate::proofs::StartLaws::kept_start_super))]
    fn kept_start(&self, x: u32, y: u32) -> u32
        requires sound { IsLiveDraft self.now }
        requires column { x < (layout self.now).width }
        requires row { y < (layout self.now).height }
        ensures { IsStart (λ u. keeps (live_view self.now) u y) x result }
    {
        match self.kind {
            Kind::Simple => self.shown_start(x, y),
            Kind::Smart => x,
            Kind::SuperBitmap => x,
        }
    }

    // The first visible column from x on.
    fn shown_start(&self, x: u32, y: u32) -> u32
        requires sound { IsLiveDraft self.now }
        requires column { x < (layout self.now).width }
        requires row { y < (layout self.now).height }
        ensures { IsStart (λ u. covers self.now.parts.visible (across (layout self.now) u) (down (layout self.now) y)) x result }
    {
        let place = self.across(x);
        match self.parts.visible_region().next_start(place, self.down(y)) {
            None => 65536,
            Some(next) => x + gap(place, next).min(65536),
        }
    }

    // The first column from x on in the clip region, if there is one.
    fn clip_start(&self, x: u32, y: u32) -> u32
        requires column { x < 65536 }
        requires row { y < 65536 }
        ensures { IsStart (λ u. in_clip (clip_set self.now.clip) u y) x result }
    {
        match &self.clip {
            None => x,
            Some(region) => start(region, x, y),
        }
    }

    // The first damaged column from x on, where only damaged ones are drawable.
    fn damage_start(&self, x: u32, y: u32) -> u32
        requires column { x < 65536 }
        requires row { y < 65536 }
        ensures { IsStart (λ u. not self.now.damage.updating || covers self.now.damage.rects (pos u) (pos y)) x result }
    {
        if self.damage.updating() {
            start(self.damage.region(), x, y)
        } else {
            x
        }
    }
}

// The first column from x on in row y that the region has.
fn start(region: &Region, x: u32, y: u32) -> u32
    requires column { x < 65536 }
    requires row { y < 65536 }
    ensures { IsStart (λ u. covers region.now (pos u) (pos y)) x result }
{
    match region.next_start(x as i32, y as i32) {
        None => 65536,
        Some(next) => next as u32,
    }
}

// The least number that isn't before the place.
fn from_place(place: i32) -> u32
    ensures { IsFrom place result }
{
    if place < 0 { 0 } else { place as u32 }
}

// The least number that is after the place.
fn behind_place(place: i32) -> u32
    ensures { IsBehind place result }
{
    if place < 0 { 0 } else { place as u32 + 1 }
}
