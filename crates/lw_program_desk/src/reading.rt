// What is read of a desk, without a call: it stays as it is.

ghost use Rattle.std.specs.Prelude.{◌≡◌, ◌<◌, length, None, Some, IfOk, MatchOption};
ghost use Rattle.lw_machine.specs.Desk.{Desk as MachineDesk};
ghost use Rattle.lw_machine.specs.Finals.{port_of};
ghost use Rattle.lw_machine.specs.Screen.{screen_bounds};
ghost use Rattle.lw_strips.specs.Strips.{IsSizeOf};
ghost use Rattle.lw_strips.specs.Laying.{LiesIn};
ghost use Rattle.lw_layer.specs.View as view;
ghost use Rattle.lw_engine.specs.Desks.{cell_at};
ghost use Rattle.lw_engine.specs.ScreenParts.{screen_part};
ghost use Rattle.lw_program_desk.specs.Views.{StandsFor, IsLayerIn};
ghost use Rattle.lw_program_desk.specs.Read.{visible_in, damage_in, messages_in};

use crate::program_desk::ProgramDesk;
use crate::tiles::Tiles;
use lw_calls::Message;
use lw_engine::{Slot, screen_part};
use lw_layer::Layer;
use lw_planes::Planes;
use lw_region::Rect;
use std::alloc::{AllocError, Global};

impl ProgramDesk {
    /// The slots of the layers, from the front to the back.
    pub fn layers(&self) -> &[u32]
        ensures { (d : MachineDesk) → StandsFor self.now d → result.now ≡ d.front_to_back }
    {
        let info = self.held().info();
        info.info().order()
    }

    /// The bounds of a slot's layer in screen coordinates; they may lie off the screen. `None` exactly where it has no layer.
    pub fn bounds(&self, slot: u32) -> Option<Rect>
        ensures { (d : MachineDesk) → StandsFor self.now d → result ≡ d.bounds slot }
    {
        let info = self.held().info();
        info.info().bounds(slot)
    }

    /// Where on the screen a slot's layer is shown; `None` exactly where it has no layer.
    pub fn visible(&self, slot: u32) -> Option<&[Rect]>
        requires { slot < self.now.sizes.slots }
        ensures { (d : MachineDesk) → StandsFor self.now d → MatchOption result
            (visible_in d slot ≡ None) (λ rects. visible_in d slot ≡ Some rects.now) }
    {
        let Some(layer) = layer_in(self.held().cells(), slot) else {
            return None;
        };
        Some(layer.visible())
    }

    /// The damage of a slot's layer, in layer coordinates; `None` exactly where it has no layer.
    pub fn damage(&self, slot: u32) -> Option<&[Rect]>
        requires { slot < self.now.sizes.slots }
        ensures { (d : MachineDesk) → StandsFor self.now d → MatchOption result
            (damage_in d slot ≡ None) (λ rects. damage_in d slot ≡ Some rects.now) }
    {
        let Some(layer) = layer_in(self.held().cells(), slot) else {
            return None;
        };
        Some(layer.damage().region().rects())
    }

    /// The messages that a slot's window has, from the oldest; `None` exactly where it has no window. All of them stay there.
    pub fn messages(&self, slot: u32) -> Option<&[Message]>
        requires { slot < self.now.sizes.slots }
        ensures { (d : MachineDesk) → StandsFor self.now d → MatchOption result
            (messages_in d slot ≡ None) (λ list. messages_in d slot ≡ Some list.now) }
    {
        let Some(layer) = layer_in(self.held().cells(), slot) else {
            return None;
        };
        messages_of(layer)
    }

    /// The pens of a rectangle of the screen. Only what lies in it is composed, of the layers whose bounds meet it. It fails only
    /// when out of memory.
    pub fn pens(&self, alloc: Global, rect: &Rect) -> Result<Planes, AllocError>
        requires { LiesIn rect.now (screen_bounds self.now.sizes) }
        ensures pens { IfOk result (λ planes. (d : MachineDesk) → StandsFor self.now d → planes ≡ screen_part d rect.now) }
        ensures size { IfOk result (λ planes. IsSizeOf rect.now planes × (planes.depth ≡ self.now.sizes.depth)) }
    {
        let held = self.held();
        screen_part(alloc, held.info(), held.cells(), rect)
    }
}

// The layer of a slot; `None` exactly where it has none.
pub(crate) fn layer_in(slots: &[Slot<Tiles>], slot: u32) -> Option<&Layer>
    requires { slot < length slots.now }
    ensures { MatchOption result
        ((cell_at slots.now slot).state ≡ view.Live → ⊥) (λ l. IsLayerIn (cell_at slots.now slot) l.now) }
{
    slots[slot as usize].cell().layer()
}

// The messages in a window's port; `None` exactly where the layer is no window.
fn messages_of(layer: &Layer) -> Option<&[Message]>
    ensures { MatchOption result
        (port_of layer.now.layer.window ≡ None) (λ list. port_of layer.now.layer.window ≡ Some list.now) }
{
    let Some(window) = layer.window() else {
        return None;
    };
    Some(window.port.messages())
}
