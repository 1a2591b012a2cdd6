// What the screen shows in a rectangle of it.

ghost use Rattle.std.specs.Prelude.{◌≡◌, true, length, IfOk};
ghost use Rattle.lw_machine.specs.Desk.{Desk};
ghost use Rattle.lw_machine.specs.Screen.{screen_bounds};
ghost use Rattle.lw_strips.specs.Laying.{LiesIn};
ghost use Rattle.lw_engine.specs.Desks.{AreOfDesk};
ghost use Rattle.lw_engine.specs.ScreenParts.{screen_part};
ghost use Rattle.lw_engine.specs.PartsMade.{LiesOff, AreStripsNear};

use crate::layer_info::LayerInfo;
use crate::slot::Slot;
use lw_backfill::Backfill;
use lw_planes::Planes;
use lw_region::Rect;
use lw_stack::Info;
use lw_strips::{Strip, lay_all};
use std::alloc::{AllocError, Global};

/// The pens that the screen shows in a rectangle of it. It is given all slots, and looks at no pen of a layer whose bounds have
/// nothing of the rectangle, nor at any slot without a layer. It fails only when out of memory.
pub fn screen_part<B: Backfill>(
    alloc: Global,
    info: &LayerInfo<B>,
    slots: &[Slot<B>],
    rect: &Rect,
) -> Result<Planes, AllocError>
    requires inside { LiesIn rect.now (screen_bounds info.now.stack.sizes) }
    requires many { length slots.now ≡ info.now.stack.sizes.slots }
    requires desk { (d : Desk) × AreOfDesk info.now.stack slots.now d }
    ensures { IfOk result (λ planes. (d : Desk) → AreOfDesk info.now.stack slots.now d
        → planes ≡ screen_part d rect.now) }
{
    composed(alloc, info.info(), slots, rect)
}

// The strips of the layers that meet the rectangle, of the front one first. They are disjoint, so that their order is free.
fn composed<B: Backfill>(
    alloc: Global,
    info: &Info,
    slots: &[Slot<B>],
    rect: &Rect,
) -> Result<Planes, AllocError>
    requires inside { LiesIn rect.now (screen_bounds info.now.sizes) }
    requires many { length slots.now ≡ info.now.sizes.slots }
    requires desk { (d : Desk) × AreOfDesk info.now slots.now d }
    ensures { IfOk result (λ planes. (d : Desk) → AreOfDesk info.now slots.now d → planes ≡ screen_part d rect.now) }
{
    let sizes = info.sizes();
    let order = info.order();
    let mut planes = Planes::new(alloc, rect.width(), rect.height(), sizes.depth)?;
    for slot in order {
        let bounds = info.bounds(*slot);
        lay_all(
            &mut planes,
            rect,
            strips_near(&slots[*slot as usize], bounds, rect),
        );
    }
    Ok(planes)
}

// The strips of a slot with these bounds, or none where these have nothing of the rectangle.
fn strips_near<'a, B: Backfill>(slot: &'a Slot<B>, bounds: Option<Rect>, rect: &Rect) -> &'a [Strip]
    ensures { AreStripsNear rect.now bounds slot.now result.now }
{
    if is_off(bounds, rect) {
        return &[];
    }
    slot.strips()
}

fn is_off(bounds: Option<Rect>, rect: &Rect) -> bool
    ensures { (result ≡ true) → LiesOff rect.now bounds }
{
    match bounds {
        Some(bounds) => rect.meet(&bounds).is_none(),
        None => true,
    }
}
