// What a cell holds.

ghost use Rattle.std.specs.Prelude.{◌≡◌, MatchOption};
ghost use Rattle.std.specs.Borrow.{sem};
ghost use Rattle.lw_layer.specs.View as view;
ghost use Rattle.lw_layer.specs.Drafts.{IsState, state_of, live_of};
ghost use Rattle.lw_layer.specs.States.{state_in, live_in};
ghost use Rattle.lw_layer.specs.Lending.{LendsLive};

use crate::draft::DraftState;
use crate::layer::Layer;

// Whether a slot's layer was not created so far, is live, or was deleted.
#[derive(Debug, Drop)]
pub(crate) enum CellState {
    Unopened,
    Closed,
    Live(Layer),
}

impl CellState {
    // The same as what a draft says of its slot.
    pub(crate) fn taken(state: DraftState) -> CellState
        requires { IsState state }
        ensures state { state_in result ≡ state_of state }
        ensures live { live_in result ≡ live_of state }
    {
        match state {
            DraftState::Unopened => CellState::Unopened,
            DraftState::Closed => CellState::Closed,
            DraftState::Live(draft) => CellState::Live(Layer { draft }),
        }
    }

    // The same as a draft says it.
    pub(crate) fn handed_back(self) -> DraftState
        ensures sound { IsState result }
        ensures state { state_of result ≡ state_in self }
        ensures live { live_of result ≡ live_in self }
    {
        match self {
            CellState::Unopened => DraftState::Unopened,
            CellState::Closed => DraftState::Closed,
            CellState::Live(layer) => DraftState::Live(layer.into_draft()),
        }
    }

    // The layer, where it is live.
    pub(crate) fn layer(&self) -> Option<&Layer>
        ensures { MatchOption result (state_in self.now ≡ view.Live → ⊥)
            (λ l. (state_in self.now ≡ view.Live) × (l.now ≡ live_in self.now)) }
    {
        match self {
            CellState::Unopened => None,
            CellState::Closed => None,
            CellState::Live(layer) => Some(layer),
        }
    }

    // The same, to be changed.
    pub(crate) fn layer_mut(&mut self) -> Option<&mut Layer>
        ensures* writes_back { sem 𝓛 (LendsLive self.entry result) }
        ensures layer { MatchOption result (state_in self.old ≡ view.Live → ⊥)
            (λ l. (state_in self.old ≡ view.Live) × (l.now ≡ live_in self.old)) }
    {
        match self {
            CellState::Unopened => None,
            CellState::Closed => None,
            CellState::Live(layer) => Some(layer),
        }
    }
}
