// The calls that set how a layer paints from then on: pens A and B, the drawing mode, the mask of planes, and the cursor.

ghost use Rattle.std.specs.Prelude.{◌≡◌, ℕ, ◌<◌, IsTrue};
ghost use Rattle.lw_calls.specs.declared.sizes.Sizes.{Sizes};
ghost use Rattle.lw_calls.specs.Limits.{call_fits};
ghost use Rattle.lw_calls.specs.declared.touch.CallClass.TheVariants.{OnLayer};
ghost use Rattle.lw_calls.specs.Touches.{class_of};
ghost use Rattle.lw_layer.specs.Drafts.{raster_of};
ghost use Rattle.lw_layer_calls.specs.Open.{IsOpenStep, sets_raster, raster_after};

use lw_calls::{Call, Reply};
use lw_layer::{Layer, Raster};

// Sets what the call sets of how a layer paints; another call sets nothing.
fn change(raster: &mut Raster, call: &Call)
    requires fits { (sizes : Sizes) × IsTrue (call_fits sizes call.now) }
    requires mode { raster.old.mode < 8 }
    ensures value { raster_of raster.new ≡ raster_after call.now (raster_of raster.old) }
    ensures mode { raster.new.mode < 8 }
{
    match *call {
        Call::SetA { pen, .. } => raster.a = pen,
        Call::SetB { pen, .. } => raster.b = pen,
        Call::SetMode { mode, .. } => raster.mode = mode,
        Call::SetMask { mask, .. } => raster.mask = mask,
        Call::At { x, y, .. } => {
            raster.x = x;
            raster.y = y;
        }
        _ => {}
    }
}

// Makes a call that sets how the layer paints.
pub(crate) fn set_state(layer: &mut Layer, call: &Call) -> Reply
    requires sets { IsTrue (sets_raster call.now) }
    requires fits { (sizes : Sizes) × IsTrue (call_fits sizes call.now) }
    ensures { (slot : ℕ) → class_of call.now ≡ OnLayer slot → IsOpenStep slot layer.old call.now result layer.new }
{
    let mut raster = layer.raster();
    change(&mut raster, call);
    layer.set_raster(raster);
    Reply::Done
}
