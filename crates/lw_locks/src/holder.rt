ghost use Rattle.std.specs.Prelude.{◌≡◌};
ghost use Rattle.lw_calls.specs.Entries.{count_of};
ghost use Rattle.lw_locks.specs.Held.{AreRegs};
ghost use Rattle.lw_locks.specs.Joins.{IsHistory};

use crate::opening::Opening;
use lw_engine_trait::Engine;
use lw_order::Seat;
use std::marker::{Model, PhantomData};

// A task with its registers, and a seat with its role and those of all that it holds. Contracts see the task and the seat.
#[derive(Drop)]
pub(crate) struct Holder<E: Engine, N: Opening> {
    pub(crate) task: u32,
    pub(crate) made: u32,
    pub(crate) regs: E::Regs,
    pub(crate) seat: Seat,
    pub(crate) of: PhantomData<N>,
}

impl<E: Engine, N: Opening> Model for Holder<E, N> {
    ghost use Rattle.lw_locks.specs.Seen.{SeenHolder};
    ghost use Rattle.lw_locks.specs.Held.{IsHolding};

    ghost Value = { SeenHolder };

    ghost view = { λ h. record { task = h.task; seat = h.seat } };

    ghost invariant = { λ h. IsHolding E.relations N.word N.desk h.task h.made h.seat h.regs };
}

impl<E: Engine, N: Opening> Holder<E, N> {
    // Its number. What it knows is a history that the order word may have.
    pub(crate) fn task(&self) -> u32
        ensures number { result ≡ self.now.task }
        ensures known { IsHistory N.desk.sizes self.now.seat.history }
    {
        self.task
    }

    // How many calls the task made.
    pub(crate) fn made(&self) -> u32
        ensures count { result ≡ count_of self.now.task self.now.seat.history }
        ensures known { IsHistory N.desk.sizes self.now.seat.history }
    {
        self.made
    }

    pub(crate) fn regs(&self) -> &E::Regs
        ensures { AreRegs E.relations N.desk self.now.task self.now.seat result.now }
    {
        &self.regs
    }
}
