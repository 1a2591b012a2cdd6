// Which former rectangles of a layer are new ones, moved with its bounds.

ghost use Rattle.std.specs.Prelude.{◌≡◌, ◌<◌, ◌≤◌, ◌++◌, length, pos, negsuc, ◌-ℤ◌, ◌≤ℤ◌, IfOk, IsTrue};
ghost use Rattle.lw_region.specs.Rectangle.{moved_by};
ghost use Rattle.std.specs.List.{slice_index_or};
ghost use Rattle.lw_layer.specs.Looks.{IsLook};
ghost use Rattle.lw_layer.specs.New.{kept_hidden};
ghost use Rattle.lw_reveal.specs.Pairing.{IsNear, IsPair, IsPairing, IsPairingOf, SameLists};

use lw_calls::Kind;
use lw_cliprects::Parts;
use lw_layer::{Layer, Look};
use lw_region::Rect;
use std::alloc::{AllocError, Global};

// The former and the new rectangles that have a buffer, the visible ones first; how far the bounds are moved; for each former
// one the new one that it becomes, if it becomes one; and which new ones a former one becomes.
#[derive(Drop)]
pub(crate) struct Pairing {
    pub(crate) former: Vec<Rect>,
    pub(crate) news: Vec<Rect>,
    pub(crate) dx: i32,
    pub(crate) dy: i32,
    pub(crate) handed: Vec<Option<usize>>,
    pub(crate) given: Vec<bool>,
}

impl Pairing {
    // No pairs so far.
    fn empty(
        alloc: Global,
        former: Vec<Rect>,
        news: Vec<Rect>,
        dx: i32,
        dy: i32,
    ) -> Result<Pairing, AllocError>
        requires right { dx ≤ℤ pos 99999 }
        requires left { negsuc 99999 ≤ℤ dx }
        requires lower { dy ≤ℤ pos 99999 }
        requires upper { negsuc 99999 ≤ℤ dy }
        ensures sound { IfOk result (λ p. IsPairing p) }
        ensures lists { IfOk result (λ p. (p.former.items ≡ former.items) × (p.news.items ≡ news.items)) }
        ensures moved { IfOk result (λ p. (p.dx ≡ dx) × (p.dy ≡ dy)) }
    {
        let handed = vec![in alloc; None; former.len()]?;
        let given = vec![in alloc; false; news.len()]?;
        Ok(Pairing {
            former,
            news,
            dx,
            dy,
            handed,
            given,
        })
    }

    // Finds all pairs, where so many of the former and of the new rectangles are visible ones.
    fn pair_all(&mut self, shown: usize, new_shown: usize)
        requires sound { IsPairing self.old }
        requires former { shown ≤ length self.old.former.items }
        requires news { new_shown ≤ length self.old.news.items }
        ensures sound { IsPairing self.new }
        ensures lists { SameLists self.old self.new }
    {
        let former = self.former.len();
        let news = self.news.len();
        self.pair_parts(0, shown, 0, new_shown);
        self.pair_parts(0, shown, new_shown, news);
        self.pair_parts(shown, former, 0, new_shown);
        self.pair_parts(shown, former, new_shown, news);
    }

    // Pairs the former rectangles of one part of the list with the new ones of one part. Both parts go from the top row down,
    // and in a row to the right, so one walk finds all pairs. (A pair that is missed is copied: that costs time alone.)
    fn pair_parts(&mut self, from: usize, to: usize, start: usize, end: usize)
        requires sound { IsPairing self.old }
        requires former { to ≤ length self.old.former.items }
        requires news { end ≤ length self.old.news.items }
        requires ordered { start ≤ end }
        ensures sound { IsPairing self.new }
        ensures lists { SameLists self.old self.new }
    {
        let mut place = start;
        for number in from..to {
            place = self.next_place(number, place, end);
            self.pair(number, place, end);
        }
    }

    // The first of the new rectangles from `place` on that doesn't stand before the former one, moved.
    fn next_place(&self, number: usize, place: usize, end: usize) -> usize
        requires former { number < length self.now.former.items }
        requires news { end ≤ length self.now.news.items }
        requires ordered { place ≤ end }
        ensures { result ≤ end }
    {
        for next in place..end {
            if !self.stands_before(next, number) {
                return next;
            }
        }
        end
    }

    // Whether the new rectangle stands before the former one, moved.
    fn stands_before(&self, place: usize, number: usize) -> bool
        requires former { number < length self.now.former.items }
        requires news { place < length self.now.news.items }
    {
        let new = &self.news[place];
        let former = &self.former[number];
        let y = i64::from(former.min_y()) + i64::from(self.dy);
        let x = i64::from(former.min_x()) + i64::from(self.dx);
        i64::from(new.min_y()) < y || (i64::from(new.min_y()) == y && i64::from(new.min_x()) < x)
    }

    // Pairs a former rectangle with a new one, if they are a pair.
    fn pair(&mut self, number: usize, place: usize, end: usize)
        requires sound { IsPairing self.old }
        requires former { number < length self.old.former.items }
        requires news { end ≤ length self.old.news.items }
        ensures sound { IsPairing self.new }
        ensures lists { SameLists self.old self.new }
    {
        if place < end && self.is_free(number) && self.is_pair(number, place) {
            self.handed[number] = Some(place);
            self.given[place] = true;
        }
    }

    // The former rectangle has no pair so far.
    fn is_free(&self, number: usize) -> bool
        requires { number < length self.now.handed.items }
        ensures { IsTrue result → slice_index_or self.now.handed.items number None ≡ None }
    {
        self.handed[number].is_none()
    }

    // The new rectangle is the former one, moved.
    fn is_pair(&self, number: usize, place: usize) -> bool
        requires near { IsNear self.now }
        requires former { number < length self.now.former.items }
        requires news { place < length self.now.news.items }
        ensures { IsTrue result → IsPair self.now number place }
    {
        is_moved(&self.former[number], self.dx, self.dy, &self.news[place])
    }
}

// All pairs of a layer's rectangles, as they are and as they are to be.
pub(crate) fn find_pairs(
    alloc: Global,
    layer: &Layer,
    look: &Look,
    bounds: &Rect,
    parts: &Parts,
) -> Result<Pairing, AllocError>
    requires look { IsLook layer.now look.now }
    requires parts { parts.now.bounds ≡ bounds.now }
    ensures { IfOk result (λ p. IsPairingOf layer.now bounds.now parts.now.visible p) }
{
    let former = beside_own(alloc, look.kind, layer.visible(), layer.hidden())?;
    let news = beside_own(alloc, look.kind, parts.visible(), parts.hidden())?;
    let dx = displacement(look.bounds.min_x(), bounds.min_x());
    let dy = displacement(look.bounds.min_y(), bounds.min_y());
    let mut pairing = Pairing::empty(alloc, former, news, dx, dy)?;
    pairing.pair_all(layer.visible().len(), parts.visible().len());
    Ok(pairing)
}

// The rectangles with a buffer beside an own bitmap.
fn beside_own(
    alloc: Global,
    kind: Kind,
    shown: &[Rect],
    hidden: &[Rect],
) -> Result<Vec<Rect>, AllocError>
    ensures { IfOk result (λ rects. rects.items ≡ shown.now ++ kept_hidden kind hidden.now) }
{
    let mut rects = Vec::with_capacity(alloc, shown.len() + hidden.len())?;
    rects.extend_from_slice(shown)?;
    match kind {
        Kind::Simple => {}
        Kind::Smart => rects.extend_from_slice(hidden)?,
        Kind::SuperBitmap => {}
    }
    Ok(rects)
}

// How far an edge is moved.
fn displacement(from: i16, to: i16) -> i32
    ensures value { result ≡ to -ℤ from }
    ensures left { negsuc 99999 ≤ℤ result }
    ensures right { result ≤ℤ pos 99999 }
{
    i32::from(to) - i32::from(from)
}

// The second rectangle is the first, moved.
fn is_moved(former: &Rect, dx: i32, dy: i32, new: &Rect) -> bool
    ensures { IsTrue result → moved_by former.now dx dy ≡ new.now }
{
    match former.moved(dx, dy) {
        Some(moved) => moved == *new,
        None => false,
    }
}
