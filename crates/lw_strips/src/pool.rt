ghost use Rattle.std.specs.Prelude.{◌≡◌, ◌↔◌, ◌+◌, ◌-◌, ◌≤◌, [], ◌∷◌, ◌++◌, reverse, length, IfSome, IsNone, OnOk, OnErr, IsOk};
ghost use Rattle.std.specs.Prelude.{MatchOption};
ghost use Rattle.lw_region.specs.Rectangle.{Rectangle};
ghost use Rattle.lw_strips.specs.Pools.{same_rectangle, copies, copies_in, IsClaimed, HasNoOther, IsPlaceOf};

use crate::strip::Strip;
use lw_region::Rect;
use std::alloc::{AllocError, Global};
use std::marker::Model;

/// Strips on their way from one owner to another. Contracts see its strips, and how many more may be given before room is
/// reserved again.
#[derive(Debug, Drop)]
pub struct Pool {
    strips: Vec<Strip>,
}

impl Model for Pool {
    ghost use Rattle.std.specs.Prelude.{◌-◌};
    ghost use Rattle.std.specs.Vec.{vec_len, vec_capacity};
    ghost use Rattle.lw_strips.specs.Pools.{PoolView};

    ghost Value = { PoolView };

    ghost view = { λ p. record { strips = p.strips.items; spare = vec_capacity p.strips - vec_len p.strips } };
}

impl Pool {
    /// A pool with no strip and no room. It takes no memory.
    pub fn new(alloc: Global) -> Pool
        ensures { result ≡ record { strips = []; spare = 0 } }
    {
        Pool {
            strips: Vec::new(alloc),
        }
    }

    /// The strips.
    pub fn strips(&self) -> &[Strip]
        ensures { result.now ≡ self.now.strips }
    {
        self.strips.as_slice()
    }

    /// How many more strips may be given before room has to be reserved again.
    pub fn spare(&self) -> usize
        ensures { result ≡ self.now.spare }
    {
        self.strips.capacity() - self.strips.len()
    }

    /// Reserves room for `count` strips at least. After an error the pool is as before.
    pub fn reserve(&mut self, count: usize) -> Result<(), AllocError>
        ensures strips { self.new.strips ≡ self.old.strips }
        ensures room { OnOk result (count ≤ self.new.spare) }
        ensures spare { self.old.spare ≤ self.new.spare }
        ensures enough { count ≤ self.old.spare → IsOk result }
        ensures err { OnErr result (self.new ≡ self.old) }
    {
        self.strips.try_reserve(count)
    }

    /// Puts a strip into the pool. There has to be room for it, which the caller has reserved.
    pub fn give(&mut self, strip: Strip)
        requires { 1 ≤ self.old.spare }
        ensures { self.new ≡ record {
          strips = self.old.strips ++ strip ∷ [];
          spare = self.old.spare - 1;
        } }
    {
        self.strips.push_reserved(strip);
    }

    /// Puts all these strips into the pool, the last one first, and leaves none of them behind. There has to be room for them,
    /// which the caller has reserved.
    pub fn give_all(&mut self, strips: &mut Vec<Strip>)
        requires { length strips.old.items ≤ self.old.spare }
        ensures pool { self.new ≡ record {
          strips = self.old.strips ++ reverse strips.old.items;
          spare = self.old.spare - length strips.old.items;
        } }
        ensures given { strips.new.items ≡ [] }
    {
        while let Some(strip) = strips.pop() {
            self.give(strip);
        }
    }

    /// Takes a strip of this rectangle out of the pool; `None` exactly where the pool has none.
    pub fn claim(&mut self, rect: &Rect) -> Option<Strip>
        ensures claimed { IfSome result (λ strip. IsClaimed rect.now strip self.old self.new) }
        ensures none { IsNone result ↔ (copies_in rect.now self.old.strips ≡ 0) }
        ensures stays { IsNone result → self.new ≡ self.old }
    {
        let place = place_of(&self.strips, rect)?;
        Some(self.strips.remove(place))
    }

    /// Takes a strip of each of these rectangles out of the pool, which has one for each, and frees them. Strips are left in it
    /// that were there before, of each rectangle as many as weren't claimed; their order isn't told, nor which of several strips
    /// of one rectangle are freed.
    pub fn claim_all(&mut self, rects: &[Rect])
        requires { (r : Rectangle) → copies r rects.now ≤ copies_in r self.old.strips }
        ensures numbers { (r : Rectangle) → copies_in r self.old.strips ≡ copies_in r self.new.strips + copies r rects.now }
        ensures others { HasNoOther self.old self.new }
        ensures spare { self.new.spare ≡ self.old.spare + length rects.now }
    {
        for rect in rects {
            let _strip = self.claim(rect);
        }
    }
}

// The place of the first strip of this rectangle.
fn place_of(strips: &[Strip], rect: &Rect) -> Option<usize>
    ensures { MatchOption result
        (copies_in rect.now strips.now ≡ 0)
        (λ place. IsPlaceOf rect.now place strips.now) }
{
    for index in 0..strips.len() {
        if is_of(&strips[index], rect) {
            return Some(index);
        }
    }
    None
}

// Whether the strip has this rectangle.
fn is_of(strip: &Strip, rect: &Rect) -> bool
    ensures { result ≡ same_rectangle rect.now strip.now.rect }
{
    rect == strip.rect()
}

// Pools may go to another thread, and threads may share them: the bounds ask for the proofs.
fn cross_threads() {
    crosses::<Pool>();
    is_shared::<Pool>();
}

fn crosses<T: Send>() {}

fn is_shared<T: Sync>() {}
