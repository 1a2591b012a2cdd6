ghost use Rattle.std.specs.Prelude.{◌≡◌, ◌==◌, not, if◌then◌else◌};
ghost use Rattle.lw_calls.specs.Touches.{class_of, is_on_info, slots_in, touch_of, has_slot};
ghost use Rattle.lw_calls.specs.Orders.{has_some};

use crate::call::Call;

/// A part of the machine: a task's region registers, a layer's slot, or what LayerInfo keeps.
#[derive(Clone, Copy, Debug, PartialEq, Eq)]
pub enum Role {
    Task(u32),
    Slot(u32),
    Info,
}

/// The slots that a call may read or change.
#[derive(Clone, Copy, Debug, PartialEq, Eq)]
pub enum Slots {
    Nothing,
    One(u32),
    Two(u32, u32),
    All,
}

impl Slots {
    /// The slot is one of these.
    pub(crate) fn has(&self, slot: u32) -> bool
        ensures { result ≡ has_slot self.now slot }
    {
        match *self {
            Slots::Nothing => false,
            Slots::One(one) => one == slot,
            Slots::Two(one, other) => one == slot || other == slot,
            Slots::All => true,
        }
    }

    /// There is none among these.
    pub(crate) fn is_empty(&self) -> bool
        ensures { result ≡ not (has_some self.now) }
    {
        match *self {
            Slots::Nothing => true,
            _ => false,
        }
    }
}

/// The parts of the machine that a call may read or change: its task's registers, what LayerInfo keeps, and slots.
#[derive(Clone, Copy, Debug, PartialEq, Eq)]
pub struct Touch {
    pub task: u32,
    pub info: bool,
    pub slots: Slots,
}

/// What a call works on, and with it what it locks: the registers of its task; LayerInfo, at which it looks; the layer of a slot;
/// two different layers; or all layers, which it arranges or of which one gets another hook.
#[derive(Clone, Copy, Debug, PartialEq, Eq)]
pub enum CallClass {
    OnRegisters,
    OnInfo,
    OnLayer(u32),
    OnLayers(u32, u32),
    OnAll,
}

impl CallClass {
    // Calls of the class read or change what LayerInfo keeps.
    fn is_on_info(&self) -> bool
        ensures { result ≡ is_on_info self.now }
    {
        match *self {
            CallClass::OnInfo | CallClass::OnAll => true,
            _ => false,
        }
    }

    // The slots of the class.
    fn slots(&self) -> Slots
        ensures { result ≡ slots_in self.now }
    {
        match *self {
            CallClass::OnRegisters | CallClass::OnInfo => Slots::Nothing,
            CallClass::OnLayer(slot) => Slots::One(slot),
            CallClass::OnLayers(source, slot) => Slots::Two(source, slot),
            CallClass::OnAll => Slots::All,
        }
    }
}

/// What a call touches. A call on registers touches the task alone, one on a layer also that slot, a blit between two
/// layers both slots, a look at LayerInfo also that, and an arrangement or a change of a hook also LayerInfo and all slots.
pub fn touches(task: u32, call: &Call) -> Touch
    ensures { result ≡ touch_of task call.now }
{
    let class = class_of(call);
    Touch {
        task,
        info: class.is_on_info(),
        slots: class.slots(),
    }
}

/// What a call works on.
pub fn class_of(call: &Call) -> CallClass
    ensures { result ≡ class_of call.now }
{
    match call {
        Call::RegRect { .. } | Call::RegPair { .. } | Call::RegClear { .. } =>
            CallClass::OnRegisters,
        Call::Which { .. } => CallClass::OnInfo,
        Call::Create { .. }
        | Call::OpenWindow { .. }
        | Call::Close { .. }
        | Call::ToFront { .. }
        | Call::ToBack { .. }
        | Call::InFrontOf { .. }
        | Call::MoveBy { .. }
        | Call::SizeBy { .. }
        | Call::SetBox { .. }
        | Call::Activate { .. }
        | Call::SetHook { .. } => CallClass::OnAll,
        Call::SetA { slot, .. }
        | Call::SetB { slot, .. }
        | Call::SetMode { slot, .. }
        | Call::SetMask { slot, .. }
        | Call::At { slot, .. }
        | Call::WritePixel { slot, .. }
        | Call::ReadPixel { slot, .. }
        | Call::Fill { slot, .. }
        | Call::DrawTo { slot, .. }
        | Call::Letters { slot, .. }
        | Call::SetRast { slot, .. }
        | Call::ScrollRaster { slot, .. }
        | Call::Put { slot, .. }
        | Call::Clip { slot, .. }
        | Call::Unclip { slot }
        | Call::BeginRefresh { slot }
        | Call::EndRefresh { slot, .. }
        | Call::Scroll { slot, .. }
        | Call::SetTitle { slot, .. }
        | Call::TakeMessage { slot } => CallClass::OnLayer(*slot),
        Call::Blit { source, slot, .. } => blit_class(*source, *slot),
    }
}

fn blit_class(source: u32, slot: u32) -> CallClass
    ensures { result ≡ (if source == slot then CallClass.OnLayer slot else CallClass.OnLayers source slot) }
{
    if source == slot {
        return CallClass::OnLayer(slot);
    }
    CallClass::OnLayers(source, slot)
}
