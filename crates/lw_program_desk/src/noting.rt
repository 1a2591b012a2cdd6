// Where a call changes the screen.

ghost use Rattle.std.specs.Prelude.{◌≡◌, ◌++◌};
ghost use Rattle.lw_calls.specs.Limits.{IsWithinLimits};
ghost use Rattle.lw_machine.specs.Desk.{Desk as MachineDesk};
ghost use Rattle.lw_machine.specs.Layer.{layer_is};
ghost use Rattle.lw_changes.specs.Touched.{touched_slot, bounds_list, bounds_on, bounds_meet, may_repaint_frame, repainted_in};
ghost use Rattle.lw_changes.specs.Touched.{repainted, frame_places, touched};
ghost use Rattle.lw_program_desk.specs.Views.{StandsFor};
ghost use Rattle.lw_program_desk.specs.Noting.{AreNoted, StayOn};

use crate::program_desk::ProgramDesk;
use crate::reading::layer_in;
use lw_calls::{Call, Kind, Sizes};
use lw_changes::{Changes, Frames, frames_of, touched_slot};
use lw_layer::Layer;
use lw_region::Rect;
use lw_stack::on_screen;

impl ProgramDesk {
    // Notes in a list what a call touched that led to this desk, by where its layer and the active window were before it.
    pub(crate) fn note_in(
        &self,
        call: &Call,
        own: &Option<Rect>,
        active: &Option<Rect>,
        changes: &mut Changes,
    )
        ensures noted { (d e : MachineDesk) → StandsFor self.now e → bounds_list own.now ≡ bounds_on d (touched_slot call.now)
            → bounds_list active.now ≡ bounds_on d d.active
            → AreNoted self.now.sizes (touched d call.now e) changes.old changes.new }
        ensures on_screen { StayOn self.now.sizes changes.old changes.new }
    {
        let is = self.bounds_of(touched_slot(call));
        note_part(self.limited_sizes(), own, changes);
        note_part(self.limited_sizes(), &is, changes);
        match frames_of(call) {
            Frames::Unpainted => {}
            Frames::OfTheActive => note_part(self.limited_sizes(), active, changes),
            Frames::OfThoseMet => self.note_met(own, &is, changes),
        }
    }

    // Notes the windows whose frames an arrangement within these places may paint.
    fn note_met(&self, own: &Option<Rect>, is: &Option<Rect>, changes: &mut Changes)
        ensures noted { (e : MachineDesk) → StandsFor self.now e
            → AreNoted self.now.sizes (repainted e (bounds_list own.now ++ bounds_list is.now)) changes.old changes.new }
        ensures on_screen { StayOn self.now.sizes changes.old changes.new }
    {
        let slots = self.layers();
        for slot in slots {
            self.note_if_met(*slot, own, is, changes);
        }
    }

    fn note_if_met(&self, slot: u32, own: &Option<Rect>, is: &Option<Rect>, changes: &mut Changes)
        ensures noted { (e : MachineDesk) → StandsFor self.now e
            → AreNoted self.now.sizes (repainted_in e (bounds_list own.now ++ bounds_list is.now) slot) changes.old changes.new }
        ensures on_screen { StayOn self.now.sizes changes.old changes.new }
    {
        let bounds = self.bounds(slot);
        if self.may_repaint_frame(slot) && either_meets(own, is, &bounds) {
            note_part(self.limited_sizes(), &bounds, changes);
        }
    }

    // Whether a slot's layer is a window with a frame that keeps only what is visible.
    fn may_repaint_frame(&self, slot: u32) -> bool
        ensures { (d : MachineDesk) → StandsFor self.now d → result ≡ layer_is may_repaint_frame (d.slot slot) }
    {
        if self.limited_sizes().slots <= slot {
            return false;
        }
        match layer_in(self.held().cells(), slot) {
            Some(layer) => may_repaint_frame(layer),
            None => false,
        }
    }

    // The bounds of a slot's layer, where a slot is told.
    pub(crate) fn bounds_of(&self, slot: Option<u32>) -> Option<Rect>
        ensures { (d : MachineDesk) → StandsFor self.now d → bounds_list result ≡ bounds_on d slot }
    {
        match slot {
            Some(slot) => self.bounds(slot),
            None => None,
        }
    }

    // The slot of the active window.
    pub(crate) fn active(&self) -> Option<u32>
        ensures { (d : MachineDesk) → StandsFor self.now d → result ≡ d.active }
    {
        let info = self.held().info();
        info.info().active()
    }
}

fn may_repaint_frame(layer: &Layer) -> bool
    ensures { result ≡ may_repaint_frame layer.now.layer }
{
    let look = layer.look();
    look.framed && matches!(look.kind, Kind::Simple)
}

// Notes what of these bounds lies on the screen.
fn note_part(sizes: &Sizes, bounds: &Option<Rect>, changes: &mut Changes)
    requires { IsWithinLimits sizes.now }
    ensures noted { AreNoted sizes.now (bounds_list bounds.now) changes.old changes.new }
    ensures on_screen { StayOn sizes.now changes.old changes.new }
{
    if let Some(part) = on_screen(sizes, *bounds) {
        // Reading a bound is what makes their order known to the proof.
        let _ = part.min_x();
        changes.add(&part);
    }
}

fn either_meets(own: &Option<Rect>, is: &Option<Rect>, bounds: &Option<Rect>) -> bool
    ensures { result ≡ bounds_meet (bounds_list own.now ++ bounds_list is.now) bounds.now }
{
    have_place(own, bounds) || have_place(is, bounds)
}

// Whether both have a place in common.
fn have_place(own: &Option<Rect>, bounds: &Option<Rect>) -> bool
    ensures { result ≡ bounds_meet (bounds_list own.now) bounds.now }
{
    let (Some(own), Some(bounds)) = (own, bounds) else {
        return false;
    };
    own.meet(bounds).is_some()
}
