// What C reads of a desk's layers. Each call leaves the desk as it is.

ghost use Rattle.std.specs.Prelude.{◌≡◌};
ghost use Rattle.lw_program_desk.specs.Read.{visible_in, damage_in, messages_in};
ghost use Rattle.lw_c_rectangles.specs.Bounds.{bounds_of};
ghost use Rattle.lw_c_calls.specs.Told.{message_number};
ghost use Rattle.lw_c_desk.specs.Answered.{no_layer};
ghost use Rattle.lw_c_desk.specs.Read.{IsRead, OfEachDesk, OfSlot, AreSame, IsListed, IsListedIfAny, AreBoundsTold, no_messages};

use crate::answers::{CLOSED, DONE, NO_LAYER, NO_WINDOW, UNFIT};
use crate::handle::Handle;
use crate::writing::{write_messages, write_rects, write_slots};
use lw_c_rectangles::{Bounds, bounds_of};
use lw_program_desk::ProgramDesk;

/// Writes the slots of the layers, from the front to the back.
#[unsafe(no_mangle)]
pub extern "C" fn lw_desk_layers(desk: &mut Handle, out: &mut [u32], count: &mut usize) -> i32
    ensures { IsRead (OfEachDesk (λ d. IsListed (λ s. s) d.front_to_back out.old out.new count.new result))
        (AreSame out.old out.new count.old count.new) desk.old.held.state desk.new.held.state result }
{
    if !desk.is_open {
        return CLOSED;
    }
    layers(desk.held.state(), out, count)
}

fn layers(desk: &ProgramDesk, out: &mut [u32], count: &mut usize) -> i32
    ensures { OfEachDesk (λ d. IsListed (λ s. s) d.front_to_back out.old out.new count.new result) desk.now }
{
    write_slots(desk.layers(), out, count)
}

/// Tells the bounds of a slot's layer in screen coordinates; they may lie off the screen.
#[unsafe(no_mangle)]
pub extern "C" fn lw_desk_bounds(desk: &mut Handle, slot: u32, out: &mut Bounds) -> i32
    ensures { IsRead (OfSlot slot result (out.new ≡ out.old) (λ d. AreBoundsTold (d.bounds slot) out.old out.new result))
        (out.new ≡ out.old) desk.old.held.state desk.new.held.state result }
{
    if !desk.is_open {
        return CLOSED;
    }
    bounds(desk.held.state(), slot, out)
}

fn bounds(desk: &ProgramDesk, slot: u32, out: &mut Bounds) -> i32
    ensures { OfSlot slot result (out.new ≡ out.old)
        (λ d. AreBoundsTold (d.bounds slot) out.old out.new result) desk.now }
{
    if desk.sizes().slots <= slot {
        return UNFIT;
    }
    let Some(rect) = desk.bounds(slot) else {
        return NO_LAYER;
    };
    *out = bounds_of(&rect);
    DONE
}

/// Writes where on the screen a slot's layer is shown.
#[unsafe(no_mangle)]
pub extern "C" fn lw_desk_visible(
    desk: &mut Handle,
    slot: u32,
    out: &mut [Bounds],
    count: &mut usize,
) -> i32
    ensures { IsRead (OfSlot slot result (AreSame out.old out.new count.old count.new) (λ d.
        IsListedIfAny no_layer bounds_of (visible_in d slot) out.old out.new count.old count.new result))
        (AreSame out.old out.new count.old count.new) desk.old.held.state desk.new.held.state result }
{
    if !desk.is_open {
        return CLOSED;
    }
    visible(desk.held.state(), slot, out, count)
}

fn visible(desk: &ProgramDesk, slot: u32, out: &mut [Bounds], count: &mut usize) -> i32
    ensures { OfSlot slot result (AreSame out.old out.new count.old count.new) (λ d.
        IsListedIfAny no_layer bounds_of (visible_in d slot) out.old out.new count.old count.new result) desk.now }
{
    if desk.sizes().slots <= slot {
        return UNFIT;
    }
    match desk.visible(slot) {
        Some(rects) => write_rects(rects, out, count),
        None => NO_LAYER,
    }
}

/// Writes the damage of a slot's layer, in layer coordinates.
#[unsafe(no_mangle)]
pub extern "C" fn lw_desk_damage(
    desk: &mut Handle,
    slot: u32,
    out: &mut [Bounds],
    count: &mut usize,
) -> i32
    ensures { IsRead (OfSlot slot result (AreSame out.old out.new count.old count.new) (λ d.
        IsListedIfAny no_layer bounds_of (damage_in d slot) out.old out.new count.old count.new result))
        (AreSame out.old out.new count.old count.new) desk.old.held.state desk.new.held.state result }
{
    if !desk.is_open {
        return CLOSED;
    }
    damage(desk.held.state(), slot, out, count)
}

fn damage(desk: &ProgramDesk, slot: u32, out: &mut [Bounds], count: &mut usize) -> i32
    ensures { OfSlot slot result (AreSame out.old out.new count.old count.new) (λ d.
        IsListedIfAny no_layer bounds_of (damage_in d slot) out.old out.new count.old count.new result) desk.now }
{
    if desk.sizes().slots <= slot {
        return UNFIT;
    }
    match desk.damage(slot) {
        Some(rects) => write_rects(rects, out, count),
        None => NO_LAYER,
    }
}

/// Writes the messages that a slot's window has, from the oldest, a byte each. All of them stay there.
#[unsafe(no_mangle)]
pub extern "C" fn lw_desk_messages(
    desk: &mut Handle,
    slot: u32,
    out: &mut [u8],
    count: &mut usize,
) -> i32
    ensures { IsRead (OfSlot slot result (AreSame out.old out.new count.old count.new) (λ d. IsListedIfAny
        (no_messages (d.bounds slot)) message_number (messages_in d slot) out.old out.new count.old count.new result))
        (AreSame out.old out.new count.old count.new) desk.old.held.state desk.new.held.state result }
{
    if !desk.is_open {
        return CLOSED;
    }
    messages(desk.held.state(), slot, out, count)
}

fn messages(desk: &ProgramDesk, slot: u32, out: &mut [u8], count: &mut usize) -> i32
    ensures { OfSlot slot result (AreSame out.old out.new count.old count.new) (λ d. IsListedIfAny
        (no_messages (d.bounds slot)) message_number (messages_in d slot) out.old out.new count.old count.new result) desk.now }
{
    if desk.sizes().slots <= slot {
        return UNFIT;
    }
    match desk.messages(slot) {
        Some(list) => write_messages(list, out, count),
        None => without_messages(desk, slot),
    }
}

// What is answered of a slot without a window.
fn without_messages(desk: &ProgramDesk, slot: u32) -> i32
    ensures { OfEachDesk (λ d. result ≡ no_messages (d.bounds slot)) desk.now }
{
    match desk.bounds(slot) {
        Some(_) => NO_WINDOW,
        None => NO_LAYER,
    }
}
