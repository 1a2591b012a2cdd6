ghost use Rattle.std.specs.Prelude.{◌≡◌, ℕ};
ghost use Rattle.lw_calls.specs.declared.call.Call.TheVariants.{Which};
ghost use Rattle.lw_calls.specs.declared.touch.CallClass.TheVariants.{OnInfo};
ghost use Rattle.lw_calls.specs.Touches.{class_of};
ghost use Rattle.lw_machine.specs.Desk.{Desk};
ghost use Rattle.lw_machine.specs.Parts.{info_part};
ghost use Rattle.lw_machine.specs.Step.{found, reply};
ghost use Rattle.lw_stack.specs.Stack.{StandsForInfo};

use lw_calls::{Call, Reply};
use lw_stack::Info;

/// Makes one call that only looks at LayerInfo and gives its reply (WhichLayer), as the machine's step says of every desk
/// with this LayerInfo and its sizes.
pub fn on_info(info: &Info, call: &Call) -> Reply
    requires class { class_of call.now ≡ OnInfo }
    ensures { (d : Desk) (task : ℕ) → d.sizes ≡ info.now.sizes → StandsForInfo info.now (info_part d)
        → result ≡ reply d task call.now }
{
    match *call {
        Call::Which { x, y } => which(info, x, y),
        // No other call looks at LayerInfo alone.
        _ => unreachable!(),
    }
}

// The layer that is on top of a place.
fn which(info: &Info, x: i32, y: i32) -> Reply
    ensures { (d : Desk) (task : ℕ) → d.sizes ≡ info.now.sizes → StandsForInfo info.now (info_part d)
        → result ≡ reply d task (Which x y) }
{
    answer(info.which(x, y))
}

// The answer that tells a slot.
fn answer(slot: Option<u32>) -> Reply
    ensures { result ≡ found slot }
{
    match slot {
        Some(slot) => Reply::Layer(slot),
        None => Reply::Nothing,
    }
}
