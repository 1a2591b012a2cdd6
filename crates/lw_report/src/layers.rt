//! The report's parts on layers: where each is shown, its damage, and the messages of its port.

ghost use Rattle.std.specs.Prelude.{◌≡◌, ◌++◌, OnOk};
ghost use Rattle.std.specs.List.{flat_map};
ghost use Rattle.lw_calls.specs.Written.{line_of};
ghost use Rattle.lw_machine.specs.Report.{of_seen, of_slots, message_text, message_lines, port_text};
ghost use Rattle.lw_report.specs.Words.{part_text};

use crate::rects::push_rectangles;
use crate::replies::message_word;
use lw_calls::{Message, Messages, Seen, Text};
use lw_text_output::{name_of, push_line, push_numbered_line};
use std::alloc::{AllocError, Global};

/// A part of the report that has a piece for each layer.
#[derive(Clone, Copy)]
pub enum Part {
    Visible,
    Damage,
    Messages,
}

/// Writes the piece of each layer, in rising number of its slot. `names` has the layers' names by slot.
#[tactic(auto, unfolding(lw_machine::specs::Report::of_slots))]
pub fn push_part(
    alloc: Global,
    out: &mut Vec<u8>,
    part: Part,
    names: &[Text],
    slots: &[Option<Seen>],
) -> Result<(), AllocError>
    ensures { OnOk result (out.new.items ≡ out.old.items ++ of_slots (part_text part) names.now slots.now) }
{
    for slot in 0..slots.len() {
        push_slot(alloc, out, part, name_of(names, slot), &slots[slot])?;
    }
    Ok(())
}

/// Writes the piece of what is seen of a slot, and nothing for a slot without a layer.
fn push_slot(
    alloc: Global,
    out: &mut Vec<u8>,
    part: Part,
    name: &[u8],
    slot: &Option<Seen>,
) -> Result<(), AllocError>
    ensures { OnOk result (out.new.items ≡ out.old.items ++ of_seen (part_text part name.now) slot.now) }
{
    match slot {
        Some(seen) => push_piece(alloc, out, part, name, seen),
        None => Ok(()),
    }
}

/// Writes the piece of a layer.
fn push_piece(
    alloc: Global,
    out: &mut Vec<u8>,
    part: Part,
    name: &[u8],
    seen: &Seen,
) -> Result<(), AllocError>
    ensures { OnOk result (out.new.items ≡ out.old.items ++ part_text part name.now seen.now) }
{
    match part {
        Part::Visible => push_rectangles(alloc, out, b"visible ", name, seen.visible.rects()),
        Part::Damage => push_rectangles(alloc, out, b"damage ", name, seen.damage.rects()),
        Part::Messages => push_port(alloc, out, name, &seen.messages),
    }
}

/// Writes the messages of a window's port, and nothing for a layer that isn't a window.
fn push_port(
    alloc: Global,
    out: &mut Vec<u8>,
    name: &[u8],
    port: &Option<Messages>,
) -> Result<(), AllocError>
    ensures { OnOk result (out.new.items ≡ out.old.items ++ port_text name.now port.now) }
{
    match port {
        Some(messages) => push_messages(alloc, out, name, messages.list()),
        None => Ok(()),
    }
}

/// Writes how many messages there are, and each on a line.
fn push_messages(
    alloc: Global,
    out: &mut Vec<u8>,
    name: &[u8],
    messages: &[Message],
) -> Result<(), AllocError>
    ensures { OnOk result (out.new.items ≡ out.old.items ++ message_lines name.now messages.now) }
{
    out.extend_from_slice(b"messages ")?;
    push_numbered_line(alloc, out, name, messages.len())?;
    push_each_message(out, messages)
}

/// Writes each message on a line.
fn push_each_message(out: &mut Vec<u8>, messages: &[Message]) -> Result<(), AllocError>
    ensures { OnOk result (out.new.items ≡ out.old.items ++ flat_map (λ m. line_of (message_text m)) messages.now) }
{
    for message in messages {
        push_line(out, message_word(*message).as_bytes())?;
    }
    Ok(())
}
