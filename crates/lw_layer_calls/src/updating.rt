// The calls that begin and end an update (the manual's Layers Library chapter: BeginUpdate and EndUpdate).

ghost use Rattle.std.specs.Prelude.{ℕ};
ghost use Rattle.lw_calls.specs.declared.call.Call.TheVariants.{BeginRefresh, EndRefresh};
ghost use Rattle.lw_layer_calls.specs.Open.{IsTaskStep};

use crate::windows::is_other;
use lw_calls::Reply;
use lw_layer::Layer;

// Begins an update, unless the window is another task's: from then on only damaged pixels are drawable.
pub(crate) fn begin_refresh(layer: &mut Layer, task: u32) -> Reply
    ensures { (slot : ℕ) → IsTaskStep task slot layer.old (BeginRefresh slot) result layer.new }
{
    let look = layer.look();
    if is_other(look.owner, task) {
        return Reply::NotOwner;
    }
    if look.updating {
        return Reply::InUpdate;
    }
    layer.begin_update();
    Reply::Done
}

// Ends the update, unless the window is another task's. A full end takes all damage away.
pub(crate) fn end_refresh(layer: &mut Layer, task: u32, full: bool) -> Reply
    ensures { (slot : ℕ) → IsTaskStep task slot layer.old (EndRefresh slot full) result layer.new }
{
    let look = layer.look();
    if is_other(look.owner, task) {
        return Reply::NotOwner;
    }
    if !look.updating {
        return Reply::NotInUpdate;
    }
    layer.end_update(full);
    Reply::Done
}
