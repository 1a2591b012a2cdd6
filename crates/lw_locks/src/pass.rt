ghost use Rattle.std.specs.Prelude.{◌≡◌};
ghost use Rattle.lw_calls.specs.Entries.{count_of};
ghost use Rattle.lw_locks.specs.Joins.{IsHistory};

use crate::holder::Holder;
use crate::opening::Opening;
use lw_engine_trait::Engine;
use std::marker::Model;

/// A task on a desk: its registers, and what it knows of the history. Contracts see its number and that history, in which its own
/// calls stand once and in their order.
#[derive(Drop)]
pub struct Pass<E: Engine, N: Opening> {
    pub(crate) holder: Holder<E, N>,
}

impl<E: Engine, N: Opening> Model for Pass<E, N> {
    ghost use Rattle.std.specs.Prelude.{◌≡◌, [], ◌∷◌};
    ghost use Rattle.lw_calls.specs.declared.touch.Role.TheVariants.{Task};
    ghost use Rattle.lw_locks.specs.Seen.{SeenPass, shown};

    ghost Value = { SeenPass };

    ghost view = { λ p. shown p.holder };

    ghost invariant = { λ p. p.holder.seat.roles ≡ Task p.holder.task ∷ [] };
}

impl<E: Engine, N: Opening> Pass<E, N> {
    /// The number of its task.
    pub fn task(&self) -> u32
        ensures { result ≡ self.now.task }
    {
        self.holder.task()
    }

    /// How many calls it made. Their history is one that the desk's order word may have.
    pub fn made(&self) -> u32
        ensures count { result ≡ count_of self.now.task self.now.history }
        ensures known { IsHistory N.desk.sizes self.now.history }
    {
        self.holder.made()
    }
}
