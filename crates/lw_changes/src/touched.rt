ghost use Rattle.std.specs.Prelude.{◌≡◌};
ghost use Rattle.lw_changes.specs.Touched.{touched_slot, frames_of};

use lw_calls::Call;

/// Windows whose frames a call may paint besides what it does to its own layer: none, the window that was active, or each
/// simple window with a frame that meets the bounds of the call's layer before or after it.
#[derive(Clone, Copy, Debug, PartialEq, Eq)]
pub enum Frames {
    Unpainted,
    OfTheActive,
    OfThoseMet,
}

/// The slot of the layer that a call draws on, scrolls, or arranges: of a blit the layer into which it goes. No other call
/// changes a pen that the screen shows. Besides that layer a call may paint frames of other windows: `frames_of` tells which.
pub fn touched_slot(call: &Call) -> Option<u32>
    ensures { result ≡ touched_slot call.now }
{
    match call {
        Call::Create { slot, .. }
        | Call::OpenWindow { slot, .. }
        | Call::Close { slot }
        | Call::ToFront { slot }
        | Call::ToBack { slot }
        | Call::InFrontOf { slot, .. }
        | Call::MoveBy { slot, .. }
        | Call::SizeBy { slot, .. }
        | Call::SetBox { slot, .. }
        | Call::Activate { slot }
        | Call::WritePixel { slot, .. }
        | Call::Fill { slot, .. }
        | Call::DrawTo { slot, .. }
        | Call::Letters { slot, .. }
        | Call::SetRast { slot, .. }
        | Call::ScrollRaster { slot, .. }
        | Call::Put { slot, .. }
        | Call::Blit { slot, .. }
        | Call::Scroll { slot, .. }
        | Call::SetTitle { slot, .. } => Some(*slot),
        _ => None,
    }
}

/// The other windows whose frames the call may paint: where a window becomes active, the one that was, and where a layer goes,
/// goes behind or changes its bounds, those of which more may be seen.
pub fn frames_of(call: &Call) -> Frames
    ensures { result ≡ frames_of call.now }
{
    match call {
        Call::Activate { .. } => Frames::OfTheActive,
        Call::Close { .. }
        | Call::ToBack { .. }
        | Call::InFrontOf { .. }
        | Call::MoveBy { .. }
        | Call::SizeBy { .. }
        | Call::SetBox { .. } => Frames::OfThoseMet,
        _ => Frames::Unpainted,
    }
}
