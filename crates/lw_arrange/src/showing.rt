// What is visible of a layer after an arrangement: in the area of the plan what that says, and elsewhere what is visible already; and
// all that is visible already of a layer that neither loses nor gains a piece.

ghost use Rattle.std.specs.Prelude.{◌≡◌, ◌↔◌, ◌<◌, true, ℤ, Some, IfOk};
ghost use Rattle.lw_region.specs.Bands.{covers};
ghost use Rattle.lw_layer.specs.View as view;
ghost use Rattle.lw_stack.specs.Stack.{bounds_at};
ghost use Rattle.lw_arrange.specs.Prepared.{shown_at};
ghost use Rattle.lw_arrange.specs.Areas.{IsShownElsewhere, IsShownUnlessExchanged, IsUnaffected, IsVisibleAfter};
ghost use Rattle.lw_arrange.specs.Pieces.{exchanges};

use crate::arrangement::Arrangement;
use lw_layer::{Cell, Layer};
use lw_region::{Rect, Region, difference, or_region};
use lw_stack::meets;
use lw_strips::Piece;
use std::alloc::{AllocError, Global};

/// Whether the cell's layer is live, keeps its bounds, and neither loses nor gains a piece: then what `prepare` makes ready leaves the
/// cell as it is. What its window is told doesn't count here. No rectangle of what is visible is looked at.
pub fn is_unaffected(cell: &Cell, arrangement: &Arrangement) -> bool
    requires { IsShownUnlessExchanged arrangement.now cell.now }
    ensures { result ≡ true ↔ IsUnaffected arrangement.now cell.now }
{
    let Some(layer) = cell.layer() else {
        return false;
    };
    let Some(bounds) = arrangement.bounds(cell.slot()) else {
        return false;
    };
    // Reading this tells the proof that the layer's damage lies on kept pixels of the inner rectangle.
    let _ = layer.damage().region();
    if layer.look().bounds != bounds {
        return false;
    }
    !exchanges(cell.slot(), arrangement.pieces())
}

// Whether the owner loses or gains a piece.
fn exchanges(owner: u32, pieces: &[Piece]) -> bool
    ensures { result ≡ exchanges owner pieces.now }
{
    pieces
        .iter()
        .any(|piece| piece.from == owner || piece.to == owner)
}

/// The visible region of a new layer in the cell: what is shown of it in the area, since elsewhere nothing is.
pub(crate) fn new_visible<'a>(cell: &Cell, arrangement: &'a Arrangement) -> &'a Region
    requires slot { cell.now.number < arrangement.now.stack.sizes.slots }
    requires idle { cell.now.state ≡ view.Live → ⊥ }
    requires elsewhere { IsShownElsewhere arrangement.now cell.now }
    ensures { result.now ≡ shown_at arrangement.now cell.now.number }
{
    // Reading the sizes tells the proof what holds of the plan, and reading the list that it is canonical.
    let _ = arrangement.sizes();
    let visible = arrangement.shown(cell.slot());
    let _ = visible.rects();
    visible
}

/// The visible region after the arrangement of a layer that stays live, which has these bounds then; `None` where bounds and
/// visible rectangles stay. No region is made for a layer that stays where it is and doesn't meet the area.
pub(crate) fn changed_visible(
    alloc: Global,
    cell: &Cell,
    layer: &Layer,
    arrangement: &Arrangement,
    bounds: &Rect,
) -> Result<Option<Region>, AllocError>
    requires slot { cell.now.number < arrangement.now.stack.sizes.slots }
    requires live { cell.now.state ≡ view.Live }
    requires layer { layer.now ≡ cell.now.live }
    requires bounds { bounds_at arrangement.now.stack.bounds cell.now.number ≡ Some bounds.now }
    requires elsewhere { IsShownElsewhere arrangement.now cell.now }
    ensures { IfOk result (λ visible. IsVisibleAfter arrangement.now cell.now.number cell.now.live bounds.now visible) }
{
    let stays = layer.look().bounds == *bounds;
    if stays && !meets(arrangement.area(), bounds) {
        return Ok(None);
    }
    let visible = visible_after(alloc, cell, layer, arrangement)?;
    if stays && layer.visible() == visible.rects() {
        return Ok(None);
    }
    Ok(Some(visible))
}

// The visible region after the arrangement of a layer that stays live.
fn visible_after(
    alloc: Global,
    cell: &Cell,
    layer: &Layer,
    arrangement: &Arrangement,
) -> Result<Region, AllocError>
    requires slot { cell.now.number < arrangement.now.stack.sizes.slots }
    requires live { cell.now.state ≡ view.Live }
    requires layer { layer.now ≡ cell.now.live }
    requires elsewhere { IsShownElsewhere arrangement.now cell.now }
    ensures { IfOk result (λ visible. visible ≡ shown_at arrangement.now cell.now.number) }
{
    // Reading the sizes tells the proof what holds of the plan.
    let _ = arrangement.sizes();
    let mut visible = difference(alloc, layer.visible(), arrangement.area().rects())?;
    or_region(alloc, arrangement.shown(cell.slot()), &mut visible)?;
    Ok(visible)
}
