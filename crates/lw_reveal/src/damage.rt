// The damage of a layer that stays live, after an arrangement that gives it other bounds or another visible region.

ghost use Rattle.std.specs.Prelude.{◌≡◌, ◌≤◌, true, [], IfOk, IsTrue};
ghost use Rattle.lw_region.specs.Rectangle.{width, height};
ghost use Rattle.lw_machine.specs.Layer.{is_framed};
ghost use Rattle.lw_layer.specs.Pieces.{HasFrameRoom, IsDamageOf};
ghost use Rattle.lw_reveal.specs.Changed.{carried_to, MayHave};
ghost use Rattle.lw_reveal.specs.Counted.{AreCounted};
ghost use Rattle.lw_reveal.specs.Gained.{AreLeft, AreOf, StaysUndamaged};

use lw_calls::Kind;
use lw_damage::Damage;
use lw_layer::{Layer, inner_rectangle, kept_region};
use lw_region::{Rect, Region, clear_region, difference};
use std::alloc::{AllocError, Global};

// The damage of the live layer once it has these bounds and these visible pixels: what it keeps then and doesn't count as kept
// before, and what stays of its former damage.
pub(crate) fn damage_after(
    alloc: Global,
    layer: &Layer,
    bounds: &Rect,
    visible: &Region,
) -> Result<Damage, AllocError>
    requires may { MayHave layer.now bounds.now visible.now }
    ensures { IfOk result (λ d. IsDamageOf (carried_to bounds.now visible.now layer.now) d) }
{
    let look = layer.look();
    let inner = inner_rectangle(look.kind, look.framed, bounds);
    if stays_undamaged(layer, bounds) {
        return Ok(undamaged(alloc, inner, look.updating));
    }
    let was = counted_region(alloc, layer, bounds)?;
    let kept = kept_region(alloc, look.kind, bounds, visible.rects())?;
    let due = left_region(alloc, was, layer.damage().region(), kept)?;
    Damage::of_region(alloc, inner, &due, look.updating)
}

// Whether the layer is a smart one that isn't damaged and keeps its size: it keeps the same pixels then, and has the same inner
// rectangle, so that nothing is due and no region is needed to tell.
fn stays_undamaged(layer: &Layer, bounds: &Rect) -> bool
    ensures { IsTrue result → StaysUndamaged layer.now bounds.now }
{
    let look = layer.look();
    look.kind == Kind::Smart
        && bounds.width() == look.bounds.width()
        && bounds.height() == look.bounds.height()
        && layer.damage().region().rects().is_empty()
}

// No damage, with an update on or not. It takes no memory, where `Damage::of_region` of an empty region takes some for a while.
fn undamaged(alloc: Global, inner: Option<Rect>, updating: bool) -> Damage
    ensures { result ≡ record { inner = inner; rects = []; updating = updating } }
{
    let mut damage = Damage::new(alloc, inner);
    if updating {
        damage.begin();
    }
    damage
}

/// The pixels that the live layer keeps and that count as kept once it has these bounds, in layer coordinates: in a framed window
/// whose size changes not those of its old frame that lie in the new inner rectangle. Of a super-bitmap layer there are none,
/// since none of its pixels is ever damaged or filled (the manual's Layers Library chapter: the damage list; which pixels count
/// is this project's own). It fails only when out of memory.
pub fn counted_region(alloc: Global, layer: &Layer, bounds: &Rect) -> Result<Region, AllocError>
    requires wide { width bounds.now ≤ 2048 }
    requires high { height bounds.now ≤ 2048 }
    requires frame { is_framed layer.now.layer.window ≡ true → HasFrameRoom bounds.now }
    ensures { IfOk result (λ counted. AreCounted layer.now bounds.now counted) }
{
    let look = layer.look();
    let kept = kept_region(alloc, look.kind, &look.bounds, layer.visible())?;
    let former = inner_rectangle(look.kind, look.framed, &look.bounds);
    let new = inner_rectangle(look.kind, look.framed, bounds);
    if !look.framed || former == new {
        return Ok(kept);
    }
    let gained = region_of(alloc, new)?;
    let spared = region_of(alloc, former)?;
    left_region(alloc, gained, &spared, kept)
}

// The pixels of the rectangle, if there is one.
fn region_of(alloc: Global, place: Option<Rect>) -> Result<Region, AllocError>
    ensures { IfOk result (λ made. AreOf place made) }
{
    let mut region = Region::new(alloc);
    if let Some(rect) = place {
        region.or_rect(alloc, &rect)?;
    }
    Ok(region)
}

// What is left of a region once these pixels were taken out of it, but for those that are spared.
fn left_region(
    alloc: Global,
    taken: Region,
    spared: &Region,
    from: Region,
) -> Result<Region, AllocError>
    ensures { IfOk result (λ left. AreLeft taken spared.now from left) }
{
    if takes_all(&taken, spared, &from) {
        return Ok(Region::new(alloc));
    }
    let mut left = from;
    if spared.rects().is_empty() {
        clear_region(alloc, &taken, &mut left)?;
        return Ok(left);
    }
    let out = difference(alloc, taken.rects(), spared.rects())?;
    clear_region(alloc, &out, &mut left)?;
    Ok(left)
}

// Whether just the pixels of the region are taken, and none is spared, so that nothing is left: a layer that keeps what it kept and
// wasn't damaged needs no further region.
fn takes_all(taken: &Region, spared: &Region, from: &Region) -> bool
    ensures { IsTrue result → (spared.now ≡ []) × (taken.now ≡ from.now) }
{
    spared.rects().is_empty() && taken.rects() == from.rects()
}
