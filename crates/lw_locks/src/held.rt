//! What lies behind the locks.
ghost use Rattle.std.specs.Prelude.{IsSome};

use crate::opening::Opening;
use lw_engine_trait::Engine;
use lw_order::Seat;
use std::marker::{Model, PhantomData};

// A slot. Contracts see its number.
#[derive(Drop)]
pub(crate) struct Layer<E: Engine, N: Opening> {
    pub(crate) slot: u32,
    pub(crate) cell: E::Cell,
    pub(crate) seat: Seat,
    pub(crate) of: PhantomData<N>,
}

impl<E: Engine, N: Opening> Model for Layer<E, N> {
    ghost use Rattle.std.specs.Prelude.{ℕ};
    ghost use Rattle.lw_locks.specs.Held.{IsLayer};

    ghost Value = { ℕ };

    ghost view = { λ l. l.slot };

    ghost invariant = { λ l. IsLayer E.relations N.word N.desk l.slot l.seat l.cell };
}

// LayerInfo. Contracts see nothing of it.
#[derive(Drop)]
pub(crate) struct LayerInfo<E: Engine, N: Opening> {
    pub(crate) info: E::Info,
    pub(crate) seat: Seat,
    pub(crate) of: PhantomData<N>,
}

impl<E: Engine, N: Opening> Model for LayerInfo<E, N> {
    ghost use Rattle.lw_locks.specs.Held.{IsLayerInfo};

    ghost Value = { Unit {0} };

    ghost view = { λ _. tt };

    ghost invariant = { λ l. IsLayerInfo E.relations N.word N.desk l.seat l.info };
}

// What a lock keeps. While the lock is held it may be elsewhere; whenever the lock is free it is there.
#[derive(Drop)]
pub(crate) struct Place<T> {
    pub(crate) held: Option<T>,
    // So that the next lock has another cache line: tasks on layers of their own write to no line in common.
    pub(crate) apart: [u64; 8],
    ghost there: { IsSome held },
}
