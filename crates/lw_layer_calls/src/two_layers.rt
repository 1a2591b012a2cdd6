ghost use Rattle.std.specs.Prelude.{◌≡◌, IsTrue};
ghost use Rattle.lw_calls.specs.declared.sizes.Sizes.{Sizes};
ghost use Rattle.lw_calls.specs.Limits.{call_fits};
ghost use Rattle.lw_calls.specs.declared.touch.CallClass.TheVariants.{OnLayers};
ghost use Rattle.lw_calls.specs.Touches.{class_of};
ghost use Rattle.lw_layer_calls.specs.Parts.{IsPairStep};

use lw_blit::between;
use lw_calls::{Call, Reply};
use lw_layer::Cell;

/// Makes one call on two layers and gives its reply, as the machine's step says of every desk whose slots these are: ClipBlit
/// from one layer to another. It takes no memory.
pub fn on_layers(source: &Cell, to: &mut Cell, call: &Call) -> Reply
    requires class { class_of call.now ≡ OnLayers source.now.number to.old.number }
    requires fits { (sizes : Sizes) × IsTrue (call_fits sizes call.now) }
    ensures step { IsPairStep source.now to.old call.now result to.new }
    ensures number { to.new.number ≡ to.old.number }
{
    let Call::Blit { ref area, .. } = *call else {
        // No other call is on two layers.
        unreachable!();
    };
    let Some(from) = source.layer() else {
        return Reply::NotOpen;
    };
    let Some(layer) = to.layer_mut() else {
        return Reply::NotOpen;
    };
    between(from, layer, area);
    Reply::Done
}
