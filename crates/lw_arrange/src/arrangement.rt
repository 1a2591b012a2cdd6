use lw_calls::{Call, Reply, Sizes};
use lw_region::{Rect, Region};
use lw_stack::{InfoDraft, Shown};
use lw_strips::Piece;
use std::marker::Model;

/// What planning a call answers.
#[derive(Debug, Drop)]
pub enum Step {
    /// The call is refused, with this reply.
    Refused(Reply),
    /// The call is to be done so.
    Arranged(Arrangement),
}

/// A planned arrangement: its call, the list, the bounds and the active window after it, the area of the screen outside which
/// each layer is shown as before, what is then shown of each layer in the area and what no layer has of it, and the pieces of the
/// screen that change owner (the manual's Layers Library chapter).
#[derive(Debug, Drop)]
pub struct Arrangement {
    task: u32,
    call: Call,
    sizes: Sizes,
    after: InfoDraft,
    area: Region,
    shown: Shown,
    pieces: Vec<Piece>,
}

impl Model for Arrangement {
    ghost use Rattle.lw_stack.specs.Stack.{stack_of};
    ghost use Rattle.lw_arrange.specs.Arrangements.{ArrangementView, IsArrangement};

    ghost Value = { ArrangementView };

    ghost view = { λ a. record {
      task = a.task;
      call = a.call;
      stack = stack_of a.sizes a.after;
      area = a.area;
      shown = a.shown.sets.items;
      rest = a.shown.rest;
      pieces = a.pieces.items;
    } };

    ghost invariant = { λ a. IsArrangement
        (record {
          task = a.task;
          call = a.call;
          stack = stack_of a.sizes a.after;
          area = a.area;
          shown = a.shown.sets.items;
          rest = a.shown.rest;
          pieces = a.pieces.items;
        }) };
}

impl Arrangement {
    ghost use Rattle.std.specs.Prelude.{◌≡◌, ◌<◌, not, ◌&&◌, [], ℤ};
    ghost use Rattle.std.specs.List.{All, slice_index_or};
    ghost use Rattle.std.specs.Option.{is_some};
    ghost use Rattle.lw_region.specs.Bands.{covers};
    ghost use Rattle.lw_cliprects.specs.Parts.{LieIn};
    ghost use Rattle.lw_machine.specs.Screen.{screen_bounds};
    ghost use Rattle.lw_strips.specs.Laying.{screen, LiesIn};
    ghost use Rattle.lw_stack.specs.Stack.{bounds_at, first_at, stack_of, IsStack, AreShownIn};
    ghost use Rattle.lw_arrange.specs.Arrangements.{IsArrangement};

    /// The plan of a task's call that leaves such a list, of which this is shown in the area, and in which these pieces change
    /// owner.
    pub(crate) fn new(
        task: u32,
        call: Call,
        sizes: Sizes,
        after: InfoDraft,
        area: Region,
        shown: Shown,
        pieces: Vec<Piece>,
    ) -> Arrangement
        requires stack { IsStack (stack_of sizes after) }
        requires area { LieIn (screen_bounds sizes) area }
        requires shown { AreShownIn area after.bounds.items after.order.items shown.sets.items }
        requires rest { (x y : ℤ) →
            covers shown.rest x y ≡ (covers area x y && not (is_some (first_at after.bounds.items after.order.items x y))) }
        requires pieces { All (λ p. LiesIn p.rect (screen sizes.width sizes.height)) pieces.items }
        ensures { result ≡ record {
          task = task;
          call = call;
          stack = stack_of sizes after;
          area = area;
          shown = shown.sets.items;
          rest = shown.rest;
          pieces = pieces.items;
        } }
    {
        Arrangement {
            task,
            call,
            sizes,
            after,
            area,
            shown,
            pieces,
        }
    }

    /// The task that makes the call.
    pub fn task(&self) -> u32
        ensures { result ≡ self.now.task }
    {
        self.task
    }

    /// The call that is planned.
    pub fn call(&self) -> &Call
        ensures { result.now ≡ self.now.call }
    {
        &self.call
    }

    /// The numbers of the live layers' slots after it, each once, from front to back.
    pub fn order(&self) -> &[u32]
        ensures { result.now ≡ self.now.stack.front_to_back }
    {
        self.after.order.as_slice()
    }

    /// The bounds of a slot's layer after it, in places of the screen, off which they may lie, their edges included; `None`
    /// exactly where no slot of this number is live then.
    pub fn bounds(&self, slot: u32) -> Option<Rect>
        ensures { result ≡ bounds_at self.now.stack.bounds slot }
    {
        match self.after.bounds.get(slot as usize) {
            Some(bounds) => *bounds,
            None => None,
        }
    }

    /// The bounds of all slots after it.
    pub(crate) fn all_bounds(&self) -> &[Option<Rect>]
        ensures { result.now ≡ self.now.stack.bounds }
    {
        self.after.bounds.as_slice()
    }

    /// The slot of the active window after it; `None` exactly where no window is active then.
    pub fn active(&self) -> Option<u32>
        ensures { result ≡ self.now.stack.active }
    {
        self.after.active
    }

    /// The sizes of the desk for which it was planned.
    pub fn sizes(&self) -> &Sizes
        ensures value { result.now ≡ self.now.stack.sizes }
        ensures planned { IsArrangement self.now }
    {
        &self.sizes
    }

    /// The area of the screen outside which each layer is shown as before.
    pub(crate) fn area(&self) -> &Region
        ensures { result.now ≡ self.now.area }
    {
        &self.area
    }

    /// The places of the area on which a slot's layer is shown after it.
    pub(crate) fn shown(&self, slot: u32) -> &Region
        requires { slot < self.now.stack.sizes.slots }
        ensures { result.now ≡ slice_index_or self.now.shown slot [] }
    {
        self.shown.sets.get(slot)
    }

    /// The places of the area that no layer has after it.
    pub(crate) fn rest(&self) -> &Region
        ensures { result.now ≡ self.now.rest }
    {
        &self.shown.rest
    }

    /// The pieces of the screen that change owner: what one owner loses to another one is a canonical list.
    pub fn pieces(&self) -> &[Piece]
        ensures { result.now ≡ self.now.pieces }
    {
        self.pieces.as_slice()
    }
}
