//! Each class of calls on the parts that it touches: the machine's step by the engine, and its ticket by the order word. The step
//! that can fail comes first, so a call that failed has no ticket.
ghost use Rattle.std.specs.Prelude.{◌≡◌, ◌≢◌, ◌<◌, false, length, IsTrue, Contains};
ghost use Rattle.lw_calls.specs.Entries.{count_of};
ghost use Rattle.lw_calls.specs.Limits.{call_fits};
ghost use Rattle.lw_calls.specs.declared.touch.CallClass.TheVariants.{OnRegisters, OnInfo, OnLayer, OnLayers, OnAll};
ghost use Rattle.lw_calls.specs.declared.touch.Role.TheVariants.{Task};
ghost use Rattle.lw_calls.specs.Touches.{touch_of, class_of};
ghost use Rattle.lw_order.specs.Owned.{Owns};
ghost use Rattle.lw_order.specs.Roles.{same_role};
ghost use Rattle.lw_locks.specs.Called.{MayCall, Stepped};
ghost use Rattle.lw_locks.specs.Held.{IsBegun, IsCell, IsInfo, AreHeld};
ghost use Rattle.lw_locks.specs.Joins.{WasJoined, WasStamped, Took, Gave};
ghost use Rattle.lw_locks.specs.Promised.{Done};

use crate::answer::Answer;
use crate::holder::Holder;
use crate::opening::Opening;
use lw_calls::{Call, Role};
use lw_engine_trait::Engine;
use lw_order::{Order, Seat};
use std::alloc::{AllocError, Global};
use std::marker::PhantomData;

#[derive(Drop)]
pub(crate) struct Steps<E: Engine, N: Opening> {
    pub(crate) order: Order,
    pub(crate) engine: E,
    pub(crate) of: PhantomData<N>,
    ghost word: { order.word ≡ N.word },
    ghost sizes: { order.sizes ≡ N.desk.sizes },
    ghost begun: { IsBegun N.desk (E.sizes engine) (E.assets engine) },
}

impl<E: Engine, N: Opening> Steps<E, N> {
    // Gives a seat the roles and the history of another.
    pub(crate) fn join(&self, seat: &mut Seat, theirs: Seat)
        requires word { seat.old.word ≡ N.word }
        requires their_word { theirs.word ≡ N.word }
        ensures { WasJoined N.desk seat.old theirs seat.new }
    {
        self.order.join(seat, theirs);
    }

    // Gives a task the roles and the history of a seat.
    pub(crate) fn hold(&self, holder: &mut Holder<E, N>, theirs: Seat)
        requires { theirs.word ≡ N.word }
        ensures { Took N.desk holder.old theirs holder.new }
    {
        self.join(&mut holder.seat, theirs);
    }

    // Takes a role, which isn't its task's own, from a task, and gives it a seat.
    pub(crate) fn give(&self, holder: &mut Holder<E, N>, off: Role) -> Seat
        requires role { Contains holder.old.seat.roles off }
        requires other { same_role off (Task holder.old.task) ≡ false }
        ensures { Gave N.word N.desk off holder.old holder.new result }
    {
        self.order.split(&mut holder.seat, off)
    }

    // Stamps a call, and gives its ticket.
    fn stamp(&self, seat: &mut Seat, task: u32, call: &Call) -> u64
        requires word { seat.old.word ≡ N.word }
        requires owns { Owns N.desk.sizes.slots seat.old.roles (touch_of task call.now) }
        requires fits { IsTrue (call_fits N.desk.sizes call.now) }
        requires room { count_of task seat.old.history < 4294967295 }
        ensures { WasStamped N.desk seat.old seat.new task call.now result }
    {
        self.order.stamp(seat, task, call)
    }

    // Stamps a task's call that isn't on registers, and gives its ticket.
    fn stamp_step(&self, holder: &mut Holder<E, N>, call: &Call) -> u64
        requires registers { class_of call.now ≢ OnRegisters }
        requires owns { Contains holder.old.seat.roles (Task holder.old.task)
            → Owns N.desk.sizes.slots holder.old.seat.roles (touch_of holder.old.task call.now) }
        requires may { MayCall N.desk holder.old.task holder.old.seat.history call.now }
        ensures task { holder.new.task ≡ holder.old.task }
        ensures stamped { WasStamped N.desk holder.old.seat holder.new.seat holder.old.task call.now result }
    {
        let ticket = self.stamp(&mut holder.seat, holder.task, call);
        holder.made += 1;
        ticket
    }

    // A call on the registers of its task.
    pub(crate) fn on_registers(
        &self,
        alloc: Global,
        holder: &mut Holder<E, N>,
        call: &Call,
    ) -> Result<Answer, AllocError>
        requires class { class_of call.now ≡ OnRegisters }
        requires may { MayCall N.desk holder.old.task holder.old.seat.history call.now }
        ensures { Stepped N.desk holder.old holder.new call.now result }
    {
        let reply = self.engine.regs(alloc, &mut holder.regs, call)?;
        let ticket = self.stamp(&mut holder.seat, holder.task, call);
        holder.made += 1;
        Ok(Answer { reply, ticket })
    }

    // A look at LayerInfo.
    pub(crate) fn on_info(&self, info: &E::Info, holder: &mut Holder<E, N>, call: &Call) -> Answer
        requires class { class_of call.now ≡ OnInfo }
        requires may { MayCall N.desk holder.old.task holder.old.seat.history call.now }
        requires info { IsInfo E.relations N.desk holder.old.seat info.now }
        ensures task { holder.new.task ≡ holder.old.task }
        ensures roles { holder.new.seat.roles ≡ holder.old.seat.roles }
        ensures info { IsInfo E.relations N.desk holder.new.seat info.now }
        ensures done { Done N.desk holder.old.seat.roles holder.old.task holder.old.seat.history holder.new.seat.history call.now result.reply result.ticket }
    {
        let reply = self.engine.look(info, call);
        let ticket = self.stamp_step(holder, call);
        Answer { reply, ticket }
    }

    // A call on the layer of a slot.
    pub(crate) fn on_layer(
        &self,
        alloc: Global,
        cell: &mut E::Cell,
        holder: &mut Holder<E, N>,
        call: &Call,
    ) -> Result<Answer, AllocError>
        requires class { class_of call.now ≡ OnLayer (E.relations.number cell.old) }
        requires may { MayCall N.desk holder.old.task holder.old.seat.history call.now }
        requires cell { IsCell E.relations N.desk holder.old.seat cell.old }
        ensures stepped { Stepped N.desk holder.old holder.new call.now result }
        ensures cell { IsCell E.relations N.desk holder.new.seat cell.new }
        ensures number { E.relations.number cell.new ≡ E.relations.number cell.old }
    {
        let task = holder.task();
        let regs = holder.regs();
        let reply = self.engine.one(alloc, cell, regs, task, call)?;
        let ticket = self.stamp_step(holder, call);
        Ok(Answer { reply, ticket })
    }

    // A call on two layers, of which it reads the first.
    pub(crate) fn on_layers(
        &self,
        source: &E::Cell,
        to: &mut E::Cell,
        holder: &mut Holder<E, N>,
        call: &Call,
    ) -> Answer
        requires class { class_of call.now ≡ OnLayers (E.relations.number source.now) (E.relations.number to.old) }
        requires may { MayCall N.desk holder.old.task holder.old.seat.history call.now }
        requires source { IsCell E.relations N.desk holder.old.seat source.now }
        requires to { IsCell E.relations N.desk holder.old.seat to.old }
        ensures task { holder.new.task ≡ holder.old.task }
        ensures roles { holder.new.seat.roles ≡ holder.old.seat.roles }
        ensures source { IsCell E.relations N.desk holder.new.seat source.now }
        ensures to { IsCell E.relations N.desk holder.new.seat to.new }
        ensures number { E.relations.number to.new ≡ E.relations.number to.old }
        ensures done { Done N.desk holder.old.seat.roles holder.old.task holder.old.seat.history holder.new.seat.history call.now result.reply result.ticket }
    {
        let reply = self.engine.two(source, to, call);
        let ticket = self.stamp_step(holder, call);
        Answer { reply, ticket }
    }

    // A call on the layers of all slots, whose cells are given in rising number.
    pub(crate) fn on_all(
        &self,
        alloc: Global,
        info: &mut E::Info,
        cells: &mut [E::Cell],
        holder: &mut Holder<E, N>,
        call: &Call,
    ) -> Result<Answer, AllocError>
        requires class { class_of call.now ≡ OnAll }
        requires may { MayCall N.desk holder.old.task holder.old.seat.history call.now }
        requires slots { length cells.old ≡ N.desk.sizes.slots }
        requires held { AreHeld E.relations N.desk holder.old.seat info.old cells.old }
        ensures stepped { Stepped N.desk holder.old holder.new call.now result }
        ensures slots { length cells.new ≡ N.desk.sizes.slots }
        ensures held { AreHeld E.relations N.desk holder.new.seat info.new cells.new }
    {
        let task = holder.task();
        let reply = self.engine.all(alloc, info, cells, task, call)?;
        let ticket = self.stamp_step(holder, call);
        Ok(Answer { reply, ticket })
    }
}
