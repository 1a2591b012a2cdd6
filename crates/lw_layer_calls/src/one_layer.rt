ghost use Rattle.std.specs.Prelude.{◌≡◌, ℕ, ◌<◌, List, false, IsOk, IfOk, OnErr, IsTrue};
ghost use Rattle.lw_region.specs.Rectangle.{Rectangle};
ghost use Rattle.lw_calls.specs.Assets.{Assets as AssetsView};
ghost use Rattle.lw_calls.specs.declared.sizes.Sizes.{Sizes};
ghost use Rattle.lw_calls.specs.declared.call.Call.TheVariants.{Clip, Unclip, Scroll};
ghost use Rattle.lw_calls.specs.Kinds.{is_super};
ghost use Rattle.lw_calls.specs.Limits.{call_fits};
ghost use Rattle.lw_calls.specs.declared.touch.CallClass.TheVariants.{OnLayer};
ghost use Rattle.lw_calls.specs.Touches.{class_of};
ghost use Rattle.lw_machine.specs.Step.{clip_answer};
ghost use Rattle.lw_engine_trait.specs.Memory.{takes_memory};
ghost use Rattle.lw_layer.specs.Drafts.{clip_set};
ghost use Rattle.lw_layer_calls.specs.Parts.{IsLayerStep};
ghost use Rattle.lw_layer_calls.specs.Open.{is_scroll, IsOpenStep, IsLentStep};

use crate::blitting::{blit, put, scroll_raster};
use crate::drawing::{draw, fill, letters, read, set_rast, write};
use crate::raster_state::set_state;
use crate::regs::Regs;
use crate::updating::{begin_refresh, end_refresh};
use crate::windows::{take_message, title};
use lw_calls::{Assets, Call, Kind, Reply};
use lw_layer::{Cell, Layer};
use lw_region::Region;
use std::alloc::{AllocError, Global};

/// Makes one call of a task on a layer and gives its reply, as the machine's step says of every desk whose slot this is, in which
/// these are the task's registers, and to which this was handed in: those that set how it paints (pens, mode, mask, cursor),
/// those that draw or read a pixel, blits from a bitmap or from the layer itself, ScrollRaster, InstallClipRegion with a copy of
/// a register or with none, BeginUpdate, EndUpdate, ScrollLayer, SetWindowTitles with a copy of the title, and GetMsg. It fails
/// only when out of memory, which only these copies and the damage of ScrollRaster take, and the layer is then as before.
pub fn on_layer(
    alloc: Global,
    cell: &mut Cell,
    regs: &Regs,
    assets: &Assets,
    task: u32,
    call: &Call,
) -> Result<Reply, AllocError>
    requires class { class_of call.now ≡ OnLayer cell.old.number }
    requires fits { (sizes : Sizes) × IsTrue (call_fits sizes call.now) }
    ensures step { IfOk result (λ r. IsLayerStep task cell.old regs.now assets.now call.now r cell.new) }
    ensures number { cell.new.number ≡ cell.old.number }
    ensures unchanged { OnErr result (cell.new ≡ cell.old) }
    ensures memory { takes_memory call.now ≡ false → IsOk result }
{
    if let Call::Scroll { dx, dy, .. } = *call {
        return Ok(scroll(cell, dx, dy));
    }
    let Some(layer) = cell.layer_mut() else {
        return Ok(Reply::NotOpen);
    };
    on_open(alloc, layer, regs, assets, task, call)
}

// The same on a layer that is open. A scroll is none of these calls, since it takes the layer out of its cell.
fn on_open(
    alloc: Global,
    layer: &mut Layer,
    regs: &Regs,
    assets: &Assets,
    task: u32,
    call: &Call,
) -> Result<Reply, AllocError>
    requires class { (slot : ℕ) × (class_of call.now ≡ OnLayer slot) }
    requires other { is_scroll call.now ≡ false }
    requires fits { (sizes : Sizes) × IsTrue (call_fits sizes call.now) }
    ensures step { IfOk result (λ r. (slot : ℕ) → class_of call.now ≡ OnLayer slot
        → IsLentStep task slot layer.old regs.now assets.now call.now r layer.new) }
    ensures unchanged { OnErr result (layer.new ≡ layer.old) }
    ensures memory { takes_memory call.now ≡ false → IsOk result }
{
    match *call {
        Call::SetA { .. }
        | Call::SetB { .. }
        | Call::SetMode { .. }
        | Call::SetMask { .. }
        | Call::At { .. } => Ok(set_state(layer, call)),
        Call::WritePixel { x, y, .. } => Ok(write(layer, x, y)),
        Call::ReadPixel { x, y, .. } => Ok(read(layer, x, y)),
        Call::Fill { ref rect, .. } => Ok(fill(layer, rect)),
        Call::DrawTo { x, y, .. } => Ok(draw(layer, x, y)),
        Call::Letters { ref text, .. } => Ok(letters(layer, assets, text)),
        Call::SetRast { pen, .. } => Ok(set_rast(layer, pen)),
        Call::ScrollRaster {
            dx,
            dy,
            ref rect,
            ..
        } => scroll_raster(alloc, layer, dx, dy, rect),
        Call::Put {
            bitmap,
            ref area,
            ..
        } => Ok(put(layer, assets, bitmap, area)),
        Call::Blit { ref area, .. } => Ok(blit(layer, area)),
        Call::Clip { reg, .. } => clip(alloc, layer, regs, reg),
        Call::Unclip { .. } => Ok(unclip(layer)),
        Call::BeginRefresh { .. } => Ok(begin_refresh(layer, task)),
        Call::EndRefresh { full, .. } => Ok(end_refresh(layer, task, full)),
        Call::SetTitle {
            title: ref text,
            ..
        } => title(alloc, layer, assets, task, text),
        Call::TakeMessage { .. } => Ok(take_message(layer, task)),
        // No other call is on a layer and no scroll.
        _ => unreachable!(),
    }
}

// Installs a copy of a register as clip region, and answers the one from before.
fn clip(alloc: Global, layer: &mut Layer, regs: &Regs, reg: u32) -> Result<Reply, AllocError>
    requires { reg < 8 }
    ensures step { IfOk result (λ r. (task slot : ℕ) (assets : AssetsView)
        → IsLentStep task slot layer.old regs.now assets (Clip slot reg) r layer.new) }
    ensures unchanged { OnErr result (layer.new ≡ layer.old) }
{
    if layer.look().updating {
        return Ok(Reply::InUpdate);
    }
    let region = regs.region(reg).copy(alloc)?;
    Ok(answer(layer.set_clip(Some(region))))
}

// Takes the clip region away, and answers it.
fn unclip(layer: &mut Layer) -> Reply
    ensures { (slot : ℕ) → IsOpenStep slot layer.old (Unclip slot) result layer.new }
{
    if layer.look().updating {
        return Reply::InUpdate;
    }
    answer(layer.set_clip(None))
}

// Shows another portion of a super-bitmap layer's own bitmap.
fn scroll(cell: &mut Cell, dx: i32, dy: i32) -> Reply
    ensures step { (task : ℕ) (regs : List (List Rectangle)) (assets : AssetsView)
        → IsLayerStep task cell.old regs assets (Scroll cell.old.number dx dy) result cell.new }
    ensures number { cell.new.number ≡ cell.old.number }
{
    let Some(layer) = cell.layer() else {
        return Reply::NotOpen;
    };
    if !is_super(layer.look().kind) {
        return Reply::NotSuper;
    }
    if !lw_super::scroll(cell, dx, dy) {
        return Reply::OutOfBounds;
    }
    Reply::Done
}

// The layer has a bitmap of its own.
fn is_super(kind: Kind) -> bool
    ensures { result ≡ is_super kind }
{
    match kind {
        Kind::SuperBitmap => true,
        _ => false,
    }
}

// The answer that gives a clip region away.
fn answer(clip: Option<Region>) -> Reply
    ensures { result ≡ clip_answer (clip_set clip) }
{
    match clip {
        None => Reply::Nothing,
        Some(region) => {
            // Its list is known to be canonical only to those who read it.
            let _ = region.rects();
            Reply::Rects(region)
        }
    }
}
