// Calls on all layers, under LayerInfo's lock and then those of all slots.

ghost use Rattle.std.specs.Prelude.{◌≡◌, ◌+◌, ◌≤◌, length, vec_len, vec_capacity};
ghost use Rattle.lw_calls.specs.declared.group.Hold.TheVariants.{All as AllSlots};
ghost use Rattle.lw_calls.specs.declared.touch.CallClass.TheVariants.{OnAll};
ghost use Rattle.lw_calls.specs.Touches.{class_of};
ghost use Rattle.lw_locks.specs.Called.{MayCall, Called, MayCallEach, CalledEach, SteppedEach};
ghost use Rattle.lw_locks.specs.Held.{AreHeld, roles_below};

use crate::answer::Answer;
use crate::desk::Desk;
use crate::gate::Gate;
use crate::held::{Layer, LayerInfo};
use crate::holder::Holder;
use crate::locking::lock;
use crate::opening::Opening;
use crate::pass::Pass;
use lw_calls::{Call, Role};
use lw_engine_trait::Engine;
use std::alloc::{AllocError, Global};
use std::slice;
use std::sync::Wait;

impl<E: Engine, N: Opening> Desk<E, N> {
    // Makes one call on all layers under all locks.
    pub(crate) fn once_under_all<R: Wait, G: Gate>(
        &self,
        rt: &R,
        alloc: Global,
        gate: &G,
        pass: &mut Pass<E, N>,
        call: &Call,
    ) -> Result<Answer, AllocError>
        requires class { class_of call.now ≡ OnAll }
        requires may { MayCall N.desk pass.old.task pass.old.history call.now }
        ensures { Called N.desk pass.old pass.new call.now result }
    {
        let mut answers = Vec::with_capacity(alloc, 1)?;
        let one = slice::from_ref(call);
        self.under_all(rt, alloc, gate, pass, one, &mut answers)?;
        let Some(answer) = answers.pop() else {
            unreachable!();
        };
        Ok(answer)
    }

    // Makes calls under all locks. The room for all cells is taken before the first lock, and given back after the last.
    pub(crate) fn under_all<R: Wait, G: Gate>(
        &self,
        rt: &R,
        alloc: Global,
        gate: &G,
        pass: &mut Pass<E, N>,
        calls: &[Call],
        answers: &mut Vec<Answer>,
    ) -> Result<(), AllocError>
        requires may { MayCallEach N.desk OnAll pass.old.task pass.old.history calls.now }
        requires space { vec_len answers.old + length calls.now ≤ vec_capacity answers.old }
        ensures { CalledEach N.desk AllSlots pass.old pass.new calls.now answers.old.items answers.new.items result }
    {
        let mut cells = Vec::with_capacity(alloc, self.layers.len())?;
        let mut guard = lock(rt, &self.info);
        let place = &mut *guard;
        let Some(info) = place.held.take() else {
            unreachable!();
        };
        let LayerInfo {
            mut info,
            seat: theirs,
            of,
        } = info;
        let holder = &mut pass.holder;
        self.steps.hold(holder, theirs);
        let done = self.under_slots(
            rt, alloc, gate, &mut info, &mut cells, holder, calls, answers,
        );
        let seat = self.steps.give(holder, Role::Info);
        let back = LayerInfo { info, seat, of };
        place.held = Some(back);
        done
    }

    // Takes the locks of the slots whose cells aren't held, in rising number, makes the calls under all of them, and gives them
    // back. No lock has another slot's layer; if one had, no call would be made.
    fn under_slots<R: Wait, G: Gate>(
        &self,
        rt: &R,
        alloc: Global,
        gate: &G,
        info: &mut E::Info,
        cells: &mut Vec<E::Cell>,
        holder: &mut Holder<E, N>,
        calls: &[Call],
        answers: &mut Vec<Answer>,
    ) -> Result<(), AllocError>
        requires below { length cells.old.items ≤ N.desk.sizes.slots }
        requires capacity { N.desk.sizes.slots ≤ vec_capacity cells.old }
        requires may { MayCallEach N.desk OnAll holder.old.task holder.old.seat.history calls.now }
        requires space { vec_len answers.old + length calls.now ≤ vec_capacity answers.old }
        requires roles { holder.old.seat.roles ≡ roles_below holder.old.task (length cells.old.items) }
        requires held { AreHeld E.relations N.desk holder.old.seat info.old cells.old.items }
        ensures stepped { SteppedEach N.desk (roles_below holder.old.task N.desk.sizes.slots) holder.old holder.new calls.now answers.old.items answers.new.items result }
        ensures many { length cells.new.items ≡ length cells.old.items }
        ensures held { AreHeld E.relations N.desk holder.new.seat info.new cells.new.items }
    {
        let next = cells.len();
        if next == self.layers.len() {
            let all = cells.as_mut_slice();
            return self
                .steps
                .each_on_all(alloc, gate, info, all, holder, calls, answers);
        }
        let mut guard = lock(rt, &self.layers[next]);
        let place = &mut *guard;
        let Some(layer) = place.held.take() else {
            unreachable!();
        };
        if layer.slot as usize != next {
            place.held = Some(layer);
            return Err(AllocError);
        }
        let Layer {
            slot,
            cell,
            seat: theirs,
            of,
        } = layer;
        self.steps.hold(holder, theirs);
        cells.push_reserved(cell);
        let done = self.under_slots(rt, alloc, gate, info, cells, holder, calls, answers);
        let Some(cell) = cells.pop() else {
            unreachable!();
        };
        let seat = self.steps.give(holder, Role::Slot(slot));
        let back = Layer {
            slot,
            cell,
            seat,
            of,
        };
        place.held = Some(back);
        done
    }
}
