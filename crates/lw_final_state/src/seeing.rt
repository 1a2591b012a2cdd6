// What is seen of a layer, from its cell and the list of layers.

ghost use Rattle.std.specs.Prelude.{◌≡◌, IfOk};
ghost use Rattle.lw_region.specs.Bands.{bands};
ghost use Rattle.lw_machine.specs.Finals.{damage_set, port_of};
ghost use Rattle.lw_final_state.specs.Shown.{top_set, seen_in};

use lw_calls::{Messages, Seen};
use lw_layer::{Cell, Layer};
use lw_region::Region;
use lw_stack::Info;
use std::alloc::{AllocError, Global};

/// What is seen of the cell's layer: where it is shown, its damage, and the messages of its port exactly where it is a window. It
/// fails only when out of memory.
pub fn seen(alloc: Global, info: &Info, cell: &Cell) -> Result<Option<Seen>, AllocError>
    ensures { IfOk result (λ seen. seen ≡ seen_in info.now cell.now) }
{
    let Some(layer) = cell.layer() else {
        return Ok(None);
    };
    let visible = visible(alloc, info, cell.slot())?;
    let damage = damage(alloc, layer)?;
    let messages = messages(alloc, layer)?;
    Ok(Some(Seen {
        visible,
        damage,
        messages,
    }))
}

// Where on the screen the slot's layer is shown.
fn visible(alloc: Global, info: &Info, slot: u32) -> Result<Region, AllocError>
    ensures { IfOk result (λ region. region ≡ bands (top_set info.now slot)) }
{
    let region = info.visible_of(alloc, slot)?;
    // Reading them tells the proof that their list is canonical.
    let _ = region.rects();
    Ok(region)
}

// The damaged pixels of the layer.
fn damage(alloc: Global, layer: &Layer) -> Result<Region, AllocError>
    ensures { IfOk result (λ region. region ≡ bands (damage_set layer.now.layer)) }
{
    let region = layer.damage().region();
    // Reading them tells the proof that their list is canonical.
    let _ = region.rects();
    region.copy(alloc)
}

// The messages of the window's port, if the layer is a window.
fn messages(alloc: Global, layer: &Layer) -> Result<Option<Messages>, AllocError>
    ensures { IfOk result (λ messages. messages ≡ port_of layer.now.layer.window) }
{
    let Some(window) = layer.window() else {
        return Ok(None);
    };
    let messages = Vec::from_slice(alloc, window.port.messages())?;
    Ok(Some(Messages::new(messages)))
}
