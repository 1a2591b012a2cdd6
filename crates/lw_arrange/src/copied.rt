ghost use Rattle.std.specs.Prelude.{◌≡◌, true, IfOk};
ghost use Rattle.lw_calls.specs.Touches.{is_arrangement};

use lw_calls::{Call, Text};
use std::alloc::{AllocError, Global};

/// A copy of a call that arranges layers.
pub(crate) fn copied(alloc: Global, call: &Call) -> Result<Call, AllocError>
    requires { is_arrangement call.now ≡ true }
    ensures { IfOk result (λ copy. copy ≡ call.now) }
{
    match *call {
        Call::Create { slot, make } => Ok(Call::Create { slot, make }),
        Call::OpenWindow {
            slot,
            make,
            framed,
            nocare,
            asks,
            ref title,
        } => Ok(Call::OpenWindow {
            slot,
            make,
            framed,
            nocare,
            asks,
            title: copied_text(alloc, title)?,
        }),
        Call::Close { slot } => Ok(Call::Close { slot }),
        Call::ToFront { slot } => Ok(Call::ToFront { slot }),
        Call::ToBack { slot } => Ok(Call::ToBack { slot }),
        Call::InFrontOf { slot, other } => Ok(Call::InFrontOf { slot, other }),
        Call::MoveBy { slot, dx, dy } => Ok(Call::MoveBy { slot, dx, dy }),
        Call::SizeBy { slot, dw, dh } => Ok(Call::SizeBy { slot, dw, dh }),
        Call::SetBox { slot, x, y, w, h } => Ok(Call::SetBox { slot, x, y, w, h }),
        Call::Activate { slot } => Ok(Call::Activate { slot }),
        // No other call arranges layers.
        _ => unreachable!(),
    }
}

/// A copy of a text.
pub(crate) fn copied_text(alloc: Global, text: &Text) -> Result<Text, AllocError>
    ensures { IfOk result (λ copy. copy ≡ text.now) }
{
    Ok(Text::new(Vec::from_slice(alloc, text.bytes())?))
}
