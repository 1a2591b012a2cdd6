ghost use Rattle.std.specs.Prelude.{◌≡◌, OnOk, OnErr, MatchOption};
ghost use Rattle.std.specs.Borrow.{sem};
ghost use Rattle.lw_machine.specs.Layer.{may_open};
ghost use Rattle.lw_layer.specs.View as view;
ghost use Rattle.lw_layer.specs.Drafts.{IsDraft, cell_view, no_layer};
ghost use Rattle.lw_layer.specs.Lending.{LendsLayer};
ghost use Rattle.lw_layer.specs.Looks.{IsLookAt};
ghost use Rattle.lw_layer.specs.StandsFor.{IsSound, slot_of};
ghost use Rattle.lw_layer.specs.Windows.{without_room, HasRoom};

use crate::draft::Draft;
use crate::layer::Layer;
use crate::look::Look;
use crate::state::CellState;
use std::alloc::{AllocError, Global};
use std::marker::Model;
use std::mem;

/// One slot of the desk: its layer, if it is live. Contracts see the slot's part of the desk.
#[derive(Debug, Drop)]
pub struct Cell {
    slot: u32,
    state: CellState,
}

impl Model for Cell {
    ghost use Rattle.lw_layer.specs.View.{CellView};
    ghost use Rattle.lw_layer.specs.States.{state_in, live_in};

    ghost Value = { CellView };

    ghost view = { λ c. record { number = c.slot; state = state_in c.state; live = live_in c.state } };
}

impl Cell {
    /// The cell of a slot whose layer was not created so far.
    pub fn unopened(slot: u32) -> Cell
        ensures { result ≡ record { number = slot; state = view.Unopened; live = no_layer } }
    {
        Cell {
            slot,
            state: CellState::Unopened,
        }
    }

    /// The slot's number.
    pub fn slot(&self) -> u32
        ensures { result ≡ self.now.number }
    {
        self.slot
    }

    /// The layer; `None` exactly where the slot isn't live.
    pub fn layer(&self) -> Option<&Layer>
        ensures { MatchOption result (self.now.state ≡ view.Live → ⊥)
            (λ l. (self.now.state ≡ view.Live) × (l.now ≡ self.now.live)) }
    {
        self.state.layer()
    }

    /// Lends the layer; `None` exactly where the slot isn't live.
    pub fn layer_mut(&mut self) -> Option<&mut Layer>
        ensures* writes_back { sem 𝓛 (LendsLayer self.entry result) }
        ensures layer { MatchOption result (self.old.state ≡ view.Live → ⊥)
            (λ l. (self.old.state ≡ view.Live) × (l.now ≡ self.old.live)) }
    {
        self.state.layer_mut()
    }

    /// Takes a state up and hands back the former one. No memory is taken. Of a live layer it asks that `parts` cuts `bounds`;
    /// that `strips` are solid ones of the visible rectangles, in their order, and each hidden rectangle of a smart layer has a
    /// buffer of its size, all with `depth` planes; that exactly a super-bitmap layer has an own bitmap, in which the portion
    /// lies that is shown; and that damage lies on kept pixels.
    pub fn take_up(&mut self, draft: Draft) -> Draft
        requires { IsDraft draft }
        ensures taken { self.new ≡ cell_view draft }
        ensures former { cell_view result ≡ self.old }
        ensures draft { IsDraft result }
    {
        let slot = mem::replace(&mut self.slot, draft.slot);
        let state = mem::replace(&mut self.state, CellState::taken(draft.state));
        Draft {
            slot,
            state: state.handed_back(),
        }
    }

    /// Whether a layer may be created in the slot: it has had none so far or, from version 3 on, its former one was deleted.
    pub fn may_open(&self, version: u32) -> bool
        ensures { result ≡ may_open version (slot_of self.now.state self.now.live) }
    {
        match &self.state {
            CellState::Unopened => true,
            CellState::Live(_) => false,
            CellState::Closed => 3 <= version,
        }
    }

    /// What the live layer looks like; `None` exactly where the slot isn't live.
    pub fn look(&self) -> Option<Look>
        ensures look { IsLookAt self.now.state self.now.live result }
        ensures sound { self.now.state ≡ view.Live → IsSound self.now.live }
        ensures idle { (self.now.state ≡ view.Live → ⊥) → self.now.live ≡ no_layer }
    {
        match &self.state {
            CellState::Live(layer) => Some(layer.look()),
            CellState::Unopened => None,
            CellState::Closed => None,
        }
    }

    /// Reserves room for `count` messages at least in the port of a window. It changes nothing else, and nothing of a layer that
    /// isn't a window or of a slot that isn't live.
    pub fn reserve(&mut self, alloc: Global, count: usize) -> Result<(), AllocError>
        ensures cell { without_room self.new ≡ without_room self.old }
        ensures room { OnOk result (HasRoom count self.new) }
        ensures err { OnErr result (self.new ≡ self.old) }
    {
        match self.layer_mut() {
            Some(layer) => layer.reserve(alloc, count),
            None => Ok(()),
        }
    }
}

// A cell may go to another thread, and threads may share it: the bounds ask for the proofs.
fn cross_threads() {
    crosses::<Cell>();
    is_shared::<Cell>();
}

fn crosses<T: Send>() {}

fn is_shared<T: Sync>() {}
