// The hooks that were handed in and that no call took so far.

ghost use Rattle.std.specs.Prelude.{◌≡◌, ℕ, map, option_map, slice_set, IfOk, MatchOption, Some, None};
ghost use Rattle.std.specs.List.{slice_index_or};
ghost use Rattle.lw_machine.specs.Desk.{shelf_of};

use crate::Backfill;
use std::alloc::{AllocError, Global};
use std::marker::Model;

/// The shelf of hooks that no call took, by their numbers. Contracts see the hook of each number, or none
/// where it was taken.
#[derive(Drop)]
pub struct Shelf<B: Backfill> {
    hooks: Vec<Option<B>>,
}

impl<B: Backfill> Model for Shelf<B> {
    ghost use Rattle.std.specs.Prelude.{List, map, Option, option_map};
    ghost use Rattle.lw_machine.specs.Hook.{Hook};

    ghost Value = { List (Option Hook) };

    ghost view = { λ s. map (λ held. option_map B.hook held) s.hooks.items };
}

impl<B: Backfill> Shelf<B> {
    /// A shelf with all of these hooks, numbered from 0 in their order. It fails only when out of memory, and the hooks are lost
    /// then.
    pub fn new(alloc: Global, hooks: Vec<B>) -> Result<Shelf<B>, AllocError>
        ensures { IfOk result (λ shelf. (n : ℕ) → slice_index_or shelf n None ≡ shelf_of (map B.hook hooks.items) n) }
    {
        let mut held = Vec::with_capacity(alloc, hooks.len())?;
        for hook in hooks {
            held.push(Some(hook))?;
        }
        Ok(Shelf { hooks: held })
    }

    /// The hook of a number; none where no hook has the number, or where it was taken. It takes no memory.
    pub fn get(&self, hook: u32) -> Option<&B>
        ensures { MatchOption result
            (slice_index_or self.now hook None ≡ None)
            (λ held. slice_index_or self.now hook None ≡ Some (B.hook held.now)) }
    {
        match self.hooks.get(hook as usize) {
            Some(held) => held.as_ref(),
            None => None,
        }
    }

    /// Takes the hook of a number off the shelf, if it is there. It takes no memory.
    pub fn take(&mut self, hook: u32) -> Option<B>
        ensures hook { option_map B.hook result ≡ slice_index_or self.old hook None }
        ensures shelf { self.new ≡ slice_set self.old hook None }
    {
        let Some(held) = self.hooks.get_mut(hook as usize) else {
            return None;
        };
        held.take()
    }
}

// A shelf may go to another thread where its hooks may: the bounds ask for the proofs.
fn cross_threads<B: Backfill + Send>() {
    crosses::<Shelf<B>>();
}

fn crosses<T: Send>() {}
