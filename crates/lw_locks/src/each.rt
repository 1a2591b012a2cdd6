// Calls of a task made one after another, while it holds what they touch. Each function ends with the first call that fails.

ghost use Rattle.std.specs.Prelude.{◌≡◌, ◌+◌, ◌≤◌, length, vec_len, vec_capacity};
ghost use Rattle.lw_calls.specs.declared.touch.CallClass.TheVariants.{OnLayer, OnAll};
ghost use Rattle.lw_locks.specs.Called.{MayCallEach, SteppedEach};
ghost use Rattle.lw_locks.specs.Held.{IsCell, AreHeld};

use crate::answer::Answer;
use crate::gate::{Gate, Spot};
use crate::holder::Holder;
use crate::opening::Opening;
use crate::steps::Steps;
use lw_calls::Call;
use lw_engine_trait::Engine;
use std::alloc::{AllocError, Global};

impl<E: Engine, N: Opening> Steps<E, N> {
    // Makes calls on one layer.
    pub(crate) fn each_on_layer<G: Gate>(
        &self,
        alloc: Global,
        gate: &G,
        cell: &mut E::Cell,
        holder: &mut Holder<E, N>,
        calls: &[Call],
        answers: &mut Vec<Answer>,
    ) -> Result<(), AllocError>
        requires may { MayCallEach N.desk
            (OnLayer (E.relations.number cell.old)) holder.old.task holder.old.seat.history calls.now }
        requires space { vec_len answers.old + length calls.now ≤ vec_capacity answers.old }
        requires cell { IsCell E.relations N.desk holder.old.seat cell.old }
        ensures stepped { SteppedEach N.desk holder.old.seat.roles holder.old holder.new calls.now answers.old.items answers.new.items result }
        ensures cell { IsCell E.relations N.desk holder.new.seat cell.new }
        ensures number { E.relations.number cell.new ≡ E.relations.number cell.old }
    {
        for call in calls {
            gate.pass(holder.task(), holder.made(), Spot::Under);
            let answer = self.on_layer(alloc, cell, holder, call)?;
            answers.push_reserved(answer);
        }
        Ok(())
    }

    // Makes calls on all layers.
    pub(crate) fn each_on_all<G: Gate>(
        &self,
        alloc: Global,
        gate: &G,
        info: &mut E::Info,
        cells: &mut [E::Cell],
        holder: &mut Holder<E, N>,
        calls: &[Call],
        answers: &mut Vec<Answer>,
    ) -> Result<(), AllocError>
        requires may { MayCallEach N.desk OnAll holder.old.task holder.old.seat.history calls.now }
        requires space { vec_len answers.old + length calls.now ≤ vec_capacity answers.old }
        requires slots { length cells.old ≡ N.desk.sizes.slots }
        requires held { AreHeld E.relations N.desk holder.old.seat info.old cells.old }
        ensures stepped { SteppedEach N.desk holder.old.seat.roles holder.old holder.new calls.now answers.old.items answers.new.items result }
        ensures slots { length cells.new ≡ N.desk.sizes.slots }
        ensures held { AreHeld E.relations N.desk holder.new.seat info.new cells.new }
    {
        for call in calls {
            gate.pass(holder.task(), holder.made(), Spot::Under);
            let answer = self.on_all(alloc, info, cells, holder, call)?;
            answers.push_reserved(answer);
        }
        Ok(())
    }
}
