ghost use Rattle.std.specs.Prelude.{◌≡◌, IfOk};
ghost use Rattle.lw_region.specs.Banded.{IsCanonical};
ghost use Rattle.lw_cliprects.specs.Parts.{Division, hidden_of, LieIn, AreDivided};

use lw_region::{Rect, Region, difference};
use std::alloc::{AllocError, Global};
use std::marker::Model;

/// The bounds of a layer, cut into its visible and its hidden rectangles. Contracts see the bounds and the visible
/// rectangles, which settle the hidden ones.
#[derive(Debug, Drop)]
pub struct Parts {
    bounds: Rect,
    visible: Region,
    hidden: Region,
}

impl Model for Parts {
    ghost use Rattle.std.specs.Prelude.{◌≡◌};
    ghost use Rattle.lw_cliprects.specs.Parts.{Division, hidden_of, LieIn};

    ghost Value = { Division };

    ghost view = { λ p. record { bounds = p.bounds; visible = p.visible } };

    ghost invariant = { λ p. (p.hidden ≡ hidden_of p.bounds p.visible) × LieIn p.bounds p.visible };
}

impl Parts {
    /// Cuts the bounds into the rectangles of the visible region, which lies in the bounds, and those of what it leaves of them.
    pub fn cut(alloc: Global, bounds: &Rect, visible: Region) -> Result<Parts, AllocError>
        requires { LieIn bounds.now visible }
        ensures { IfOk result (λ parts. parts ≡ record { bounds = bounds.now; visible = visible }) }
    {
        let hidden = hidden_region(alloc, bounds, &visible)?;
        Ok(Parts {
            bounds: *bounds,
            visible,
            hidden,
        })
    }

    /// The rectangle that was cut.
    pub fn bounds(&self) -> Rect
        ensures { result ≡ self.now.bounds }
    {
        self.bounds
    }

    /// The visible rectangles: the canonical list of the visible region.
    pub fn visible(&self) -> &[Rect]
        ensures value { result.now ≡ self.now.visible }
        ensures canonical { IsCanonical self.now.visible }
    {
        self.visible.rects()
    }

    /// The visible rectangles as a region.
    pub fn visible_region(&self) -> &Region
        ensures { result.now ≡ self.now.visible }
    {
        &self.visible
    }

    /// The hidden rectangles: the canonical list of what the visible ones leave of the bounds.
    pub fn hidden(&self) -> &[Rect]
        ensures value { result.now ≡ hidden_of self.now.bounds self.now.visible }
        ensures divided { AreDivided self.now.bounds self.now.visible result.now }
    {
        // Reading the visible list makes its form known to the proof, for `divided`.
        let _ = self.visible();
        self.hidden.rects()
    }
}

// The pixels of the bounds that are not visible.
fn hidden_region(alloc: Global, bounds: &Rect, visible: &Region) -> Result<Region, AllocError>
    ensures { IfOk result (λ hidden. hidden ≡ hidden_of bounds.now visible.now) }
{
    difference(alloc, bounds.as_list(), visible.rects())
}

// Parts may go to another thread, and threads may share them: the bounds ask for the proofs.
fn cross_threads() {
    crosses::<Parts>();
    is_shared::<Parts>();
}

fn crosses<T: Send>() {}

fn is_shared<T: Sync>() {}
