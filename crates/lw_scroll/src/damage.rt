// The damage of a layer after a scroll.

ghost use Rattle.std.specs.Prelude.{◌≡◌, true, false, ℤ, pos, negsuc, ◌-ℤ◌, ◌≤ℤ◌, IfOk, OnOk};
ghost use Rattle.lw_region.specs.Rectangle.{has_pixel, IsWord};
ghost use Rattle.lw_region.specs.Bands.{covers};
ghost use Rattle.lw_calls.specs.Kinds.{is_super};
ghost use Rattle.lw_damage.specs.Damaged.{may_lie};
ghost use Rattle.lw_layer.specs.Pieces.{IsDamageOf};
ghost use Rattle.lw_scroll.specs.Marks.{AreKept, AreClipped, IsWhole, AreDrawable, LeadToHurt, AreDue, IsDamageAfter};
ghost use Rattle.lw_scroll.specs.Marks.{IsMovedDamage, AreShifted};

use crate::block::{block_of, brought_block, rect_of};
use lw_calls::Kind;
use lw_damage::Damage;
use lw_layer::{Layer, kept_region};
use lw_region::{Rect, Region, and_region, clear_region, difference, moved_region, or_region};
use std::alloc::{AllocError, Global};

// The damage of the layer once its pixels were scrolled; `None` where it is as before.
pub(crate) fn damage_after(
    alloc: Global,
    layer: &Layer,
    rect: &Rect,
    dx: i32,
    dy: i32,
) -> Result<Option<Damage>, AllocError>
    requires left { negsuc 65534 ≤ℤ dx }
    requires right { dx ≤ℤ pos 65535 }
    requires up { negsuc 65534 ≤ℤ dy }
    requires down { dy ≤ℤ pos 65535 }
    ensures { IfOk result (λ d. IsDamageAfter layer.now rect.now dx dy d) }
{
    let former = layer.damage();
    if is_whole(layer, former) {
        return Ok(None);
    }
    let block = block_of(layer, rect);
    let Some(target) = rect_of(brought_block(block, dx, dy)) else {
        return Ok(None);
    };
    let Some(source) = rect_of(brought_block(block, -dx, -dy)) else {
        return Ok(None);
    };
    let damage = moved_damage(alloc, layer, former, &target, &source, dx, dy)?;
    Ok(Some(damage))
}

// Whether the layer keeps all its pixels and none is damaged, so that a scroll leaves it so.
fn is_whole(layer: &Layer, former: &Damage) -> bool
    requires former { IsDamageOf layer.now former.now }
    ensures whole { result ≡ true → IsWhole layer.now }
    ensures other { result ≡ false → is_super layer.now.layer.kind ≡ false }
    ensures inside { (x y : ℤ) → covers former.now.rects x y ≡ true → may_lie former.now.inner x y ≡ true }
{
    let damaged = former.region();
    match layer.look().kind {
        Kind::Simple => false,
        Kind::Smart => damaged.rects().is_empty(),
        Kind::SuperBitmap => true,
    }
}

// The damage once the pixels of the target took that of the source.
fn moved_damage(
    alloc: Global,
    layer: &Layer,
    former: &Damage,
    target: &Rect,
    source: &Rect,
    dx: i32,
    dy: i32,
) -> Result<Damage, AllocError>
    requires former { IsDamageOf layer.now former.now }
    requires other { is_super layer.now.layer.kind ≡ false }
    requires left { negsuc 65534 ≤ℤ dx }
    requires right { dx ≤ℤ pos 65535 }
    requires up { negsuc 65534 ≤ℤ dy }
    requires down { dy ≤ℤ pos 65535 }
    requires shifted { AreShifted target.now source.now dx dy }
    ensures { IfOk result (λ d. IsMovedDamage layer.now target.now dx dy d) }
{
    let kept = kept_of(alloc, layer)?;
    let reached = drawable_in(alloc, layer, former, &kept, target)?;
    let hurt = hurt_region(alloc, kept, former.region(), source, dx, dy)?;
    let due = due_region(alloc, former.region(), reached, &hurt)?;
    Damage::of_region(alloc, former.inner(), &due, former.updating())
}

// The pixels that the layer keeps.
fn kept_of(alloc: Global, layer: &Layer) -> Result<Region, AllocError>
    requires other { is_super layer.now.layer.kind ≡ false }
    ensures { IfOk result (λ kept. AreKept layer.now kept) }
{
    let look = layer.look();
    kept_region(alloc, look.kind, &look.bounds, layer.visible())
}

// The drawable pixels of a rectangle.
fn drawable_in(
    alloc: Global,
    layer: &Layer,
    former: &Damage,
    kept: &Region,
    target: &Rect,
) -> Result<Region, AllocError>
    requires former { IsDamageOf layer.now former.now }
    requires kept { AreKept layer.now kept.now }
    ensures { IfOk result (λ made. AreDrawable layer.now target.now made) }
{
    let mut reached = Region::new(alloc);
    reached.or_rect(alloc, target)?;
    and_region(alloc, kept, &mut reached)?;
    meet_clip(alloc, layer, &mut reached)?;
    if former.updating() {
        and_region(alloc, former.region(), &mut reached)?;
    }
    Ok(reached)
}

// Leaves those pixels that lie in the clip region, if there is one.
fn meet_clip(alloc: Global, layer: &Layer, into: &mut Region) -> Result<(), AllocError>
    ensures { OnOk result (AreClipped layer.now into.old into.new) }
{
    if let Some(clip) = layer.clip() {
        and_region(alloc, clip, into)?;
    }
    Ok(())
}

// The pixels that lead to one of the source that is damaged or isn't kept.
fn hurt_region(
    alloc: Global,
    kept: Region,
    former: &Region,
    source: &Rect,
    dx: i32,
    dy: i32,
) -> Result<Region, AllocError>
    requires left { negsuc 65534 ≤ℤ dx }
    requires right { dx ≤ℤ pos 65535 }
    requires up { negsuc 65534 ≤ℤ dy }
    requires down { dy ≤ℤ pos 65535 }
    requires words { (x y : ℤ) → has_pixel source.now x y ≡ true → IsWord (x -ℤ dx) × IsWord (y -ℤ dy) }
    ensures { IfOk result (λ made. LeadToHurt kept former.now source.now dx dy made) }
{
    let mut sound = kept;
    clear_region(alloc, former, &mut sound)?;
    let mut hurt = Region::new(alloc);
    hurt.or_rect(alloc, source)?;
    clear_region(alloc, &sound, &mut hurt)?;
    moved_region(alloc, hurt.rects(), -dx, -dy)
}

// The damage of the pixels that something is brought to, and the former damage of the others.
fn due_region(
    alloc: Global,
    former: &Region,
    reached: Region,
    hurt: &Region,
) -> Result<Region, AllocError>
    ensures { IfOk result (λ due. AreDue former.now reached hurt.now due) }
{
    let mut due = difference(alloc, former.rects(), reached.rects())?;
    let mut brought = reached;
    and_region(alloc, hurt, &mut brought)?;
    or_region(alloc, &brought, &mut due)?;
    Ok(due)
}
