// Calls of a task under one holding of their locks.

ghost use Rattle.std.specs.Prelude.{◌≡◌, ◌+◌, ◌<◌, ◌≤◌, [], ◌∷◌, length, vec_len, vec_capacity, All, IsTrue, MatchResult};
ghost use Rattle.lw_calls.specs.declared.group.Hold.TheVariants.{Slot as OneSlot};
ghost use Rattle.lw_calls.specs.declared.touch.Role.TheVariants.{Task};
ghost use Rattle.lw_calls.specs.Entries.{count_of};
ghost use Rattle.lw_calls.specs.Limits.{call_fits};
ghost use Rattle.lw_calls.specs.declared.touch.CallClass.TheVariants.{OnLayer};
ghost use Rattle.lw_calls.specs.Touches.{class_of};
ghost use Rattle.lw_locks.specs.Called.{MayCallEach, CalledEach};
ghost use Rattle.lw_locks.specs.Promised.{GroupDone, class_under, held_roles};

use crate::answer::Answer;
use crate::desk::Desk;
use crate::gate::{Gate, Spot};
use crate::held::Layer;
use crate::locking::lock;
use crate::opening::Opening;
use crate::pass::Pass;
use lw_calls::{Call, Hold, Role};
use lw_engine_trait::Engine;
use std::alloc::{AllocError, Global};
use std::sync::Wait;

impl<E: Engine, N: Opening> Desk<E, N> {
    /// Makes calls one after another under one holding of their locks: calls on the layer that is held, or on all
    /// layers where all are. It may wait, and so promises no return. It ends with the first call that runs out of memory: the
    /// calls before it have their answers after those that were there, and no further one is in the history.
    pub fn group<R: Wait, G: Gate>(
        &self,
        rt: &R,
        alloc: Global,
        gate: &G,
        pass: &mut Pass<E, N>,
        hold: Hold,
        calls: &[Call],
        answers: &mut Vec<Answer>,
    ) -> Result<(), AllocError>
        requires class { All (λ c. class_of c ≡ class_under hold) calls.now }
        requires fits { All (λ c. IsTrue (call_fits N.desk.sizes c)) calls.now }
        requires some { 0 < length calls.now }
        requires room { count_of pass.old.task pass.old.history + length calls.now ≤ 4294967295 }
        ensures task { pass.new.task ≡ pass.old.task }
        ensures done { GroupDone N.desk (Task pass.old.task ∷ []) (Task pass.old.task ∷ held_roles N.desk.sizes.slots hold) pass.old.task pass.old.history pass.new.history calls.now answers.old.items answers.new.items }
        ensures all { MatchResult result (λ _. length answers.new.items ≡ length answers.old.items + length calls.now)
            (λ _. length answers.new.items < length answers.old.items + length calls.now) }
    {
        let (task, seq) = (pass.task(), pass.made());
        gate.pass(task, seq, Spot::Before);
        let done = self.under_hold(rt, alloc, gate, pass, hold, calls, answers);
        for made in seq..pass.made() {
            gate.pass(task, made, Spot::After);
        }
        if done.is_err() {
            gate.pass(task, pass.made(), Spot::After);
        }
        done
    }

    // Takes the room for all answers, and then the locks.
    fn under_hold<R: Wait, G: Gate>(
        &self,
        rt: &R,
        alloc: Global,
        gate: &G,
        pass: &mut Pass<E, N>,
        hold: Hold,
        calls: &[Call],
        answers: &mut Vec<Answer>,
    ) -> Result<(), AllocError>
        requires may { MayCallEach N.desk (class_under hold) pass.old.task pass.old.history calls.now }
        ensures { CalledEach N.desk hold pass.old pass.new calls.now answers.old.items answers.new.items result }
    {
        answers.reserve(calls.len())?;
        match hold {
            Hold::Slot(slot) => self.under_one(rt, alloc, gate, pass, slot, calls, answers),
            Hold::All => self.under_all(rt, alloc, gate, pass, calls, answers),
        }
    }

    // Makes calls under the lock of one layer. No lock has another slot's layer; if it had, no call would be made.
    fn under_one<R: Wait, G: Gate>(
        &self,
        rt: &R,
        alloc: Global,
        gate: &G,
        pass: &mut Pass<E, N>,
        slot: u32,
        calls: &[Call],
        answers: &mut Vec<Answer>,
    ) -> Result<(), AllocError>
        requires may { MayCallEach N.desk (OnLayer slot) pass.old.task pass.old.history calls.now }
        requires space { vec_len answers.old + length calls.now ≤ vec_capacity answers.old }
        ensures { CalledEach N.desk (OneSlot slot) pass.old pass.new calls.now answers.old.items answers.new.items result }
    {
        let mut guard = lock(rt, &self.layers[slot as usize]);
        let place = &mut *guard;
        let Some(layer) = place.held.take() else {
            unreachable!();
        };
        if layer.slot != slot {
            place.held = Some(layer);
            return Err(AllocError);
        }
        let Layer {
            slot,
            mut cell,
            seat: theirs,
            of,
        } = layer;
        let holder = &mut pass.holder;
        self.steps.hold(holder, theirs);
        let done = self
            .steps
            .each_on_layer(alloc, gate, &mut cell, holder, calls, answers);
        let seat = self.steps.give(holder, Role::Slot(slot));
        let back = Layer {
            slot,
            cell,
            seat,
            of,
        };
        place.held = Some(back);
        done
    }
}
