ghost use Rattle.std.specs.Prelude.{◌≡◌};
ghost use Rattle.lw_machine.specs.Step.{end_update};
ghost use Rattle.lw_layer.specs.View.{with_layer};
ghost use Rattle.lw_layer.specs.Drafts.{IsLiveDraft, live_view};

use crate::raster::Raster;
use crate::windows::{WindowDraft, set_asked};
use lw_calls::Kind;
use lw_cliprects::Parts;
use lw_damage::Damage;
use lw_planes::Planes;
use lw_region::{Rect, Region};
use lw_strips::Strip;

/// The state of one slot, as a value that the crates above fill and a cell takes up.
#[derive(Debug, Drop)]
pub struct Draft {
    /// The slot's number.
    pub slot: u32,
    pub state: DraftState,
}

/// Whether a slot's layer was not created so far, is live, or was deleted.
#[derive(Debug, Drop)]
pub enum DraftState {
    Unopened,
    Closed,
    Live(LiveDraft),
}

/// A live layer (the manual's Layers Library chapter: the `Layer` structure with its list of clip rectangles).
#[derive(Debug, Drop)]
pub struct LiveDraft {
    pub kind: Kind,
    pub backdrop: bool,
    /// The layer's bounds, in screen coordinates; they may lie off the screen.
    pub bounds: Rect,
    /// The pixel of a super-bitmap layer's own bitmap that its top left corner shows, and 0 for other layers.
    pub scroll_x: i32,
    pub scroll_y: i32,
    /// The number of planes, 1 to 8.
    pub depth: u32,
    pub raster: Raster,
    /// The clip region, in layer coordinates.
    pub clip: Option<Region>,
    pub damage: Damage,
    /// The bounds, cut into visible and hidden rectangles.
    pub parts: Parts,
    /// A solid strip for each visible rectangle, in their order: its buffer.
    pub strips: Vec<Strip>,
    /// A buffer of its size for each hidden rectangle of a smart layer, in their order; none for other layers.
    pub covered: Vec<Planes>,
    /// A super-bitmap layer's own bitmap. What it has where the layer is visible means nothing.
    pub superbits: Option<Planes>,
    /// The layer is the active window.
    pub active: bool,
    /// The window that the layer is, if it is one.
    pub window: Option<WindowDraft>,
}

impl LiveDraft {
    // Ends an update.
    pub(crate) fn end_update(&mut self, full: bool)
        requires { IsLiveDraft self.old }
        ensures sound { IsLiveDraft self.new }
        ensures view { live_view self.new ≡ with_layer (λ l. end_update full l) (live_view self.old) }
    {
        self.damage.end(full);
        if full {
            set_asked(&mut self.window, false);
        }
    }
}
