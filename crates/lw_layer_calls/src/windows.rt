// The calls on a window (the manual's Intuition Windows chapter: SetWindowTitles and GetMsg; that a window belongs to the task
// that opened it is this project's own).

ghost use Rattle.std.specs.Prelude.{◌≡◌, ℕ, ◌≤◌, length, if◌then◌else◌, List, take, IfOk, OnErr};
ghost use Rattle.lw_region.specs.Rectangle.{Rectangle};
ghost use Rattle.lw_calls.specs.declared.call.Call.TheVariants.{SetTitle, TakeMessage};
ghost use Rattle.lw_frames.specs.Framing.{framed};
ghost use Rattle.lw_layer.specs.Looks.{IsLook};
ghost use Rattle.lw_layer.specs.StandsFor.{IsSound};
ghost use Rattle.lw_layer_calls.specs.Open.{IsTaskStep, IsLentStep};
ghost use Rattle.lw_layer_calls.specs.Windows.{is_other, got};

use lw_calls::{Assets, Message, Reply, Text};
use lw_frames::paint_frame;
use lw_layer::{Layer, Look};
use std::alloc::{AllocError, Global};

// How many characters of a title can be seen: a layer is at most 2048 columns wide.
const MOST: usize = 256;

// Gives a window a title, and paints its frame if it has one. The layer takes a copy of the title.
pub(crate) fn title(
    alloc: Global,
    layer: &mut Layer,
    assets: &Assets,
    task: u32,
    text: &Text,
) -> Result<Reply, AllocError>
    ensures step { IfOk result (λ r. (slot : ℕ) (regs : List (List Rectangle)) →
        IsLentStep task slot layer.old regs assets.now (SetTitle slot text.now) r layer.new) }
    ensures unchanged { OnErr result (layer.new ≡ layer.old) }
{
    let look = layer.look();
    let Some(owner) = look.owner else {
        return Ok(Reply::NotWindow);
    };
    if owner != task {
        return Ok(Reply::NotOwner);
    }
    let copy = copy_of(alloc, text.bytes())?;
    let shown = copy_of(alloc, beginning(text.bytes()))?;
    repaint(layer, assets, &shown, &look);
    let _ = layer.set_title(copy);
    Ok(Reply::Done)
}

// The first characters of a text, as many as can be seen.
fn beginning(bytes: &[u8]) -> &[u8]
    ensures { result.now ≡ take 256 bytes.now }
{
    if bytes.len() <= MOST {
        bytes
    } else {
        &bytes[..MOST]
    }
}

fn copy_of(alloc: Global, bytes: &[u8]) -> Result<Text, AllocError>
    ensures { IfOk result (λ copy. copy ≡ bytes.now) }
{
    Ok(Text::new(Vec::from_slice(alloc, bytes)?))
}

// Paints the frame of a window with this title, if it has a frame.
fn repaint(layer: &mut Layer, assets: &Assets, title: &Text, look: &Look)
    requires sound { IsSound layer.old }
    requires look { IsLook layer.old look.now }
    requires few { length title.now ≤ 256 }
    ensures { layer.new ≡ (if look.now.framed then framed assets.now.glyphs title.now look.now.active layer.old else layer.old) }
{
    if look.framed {
        paint_frame(layer, assets, title, look.active);
    }
}

// Takes the oldest message of the window's port.
pub(crate) fn take_message(layer: &mut Layer, task: u32) -> Reply
    ensures { (slot : ℕ) → IsTaskStep task slot layer.old (TakeMessage slot) result layer.new }
{
    let look = layer.look();
    let Some(owner) = look.owner else {
        return Reply::NotWindow;
    };
    if owner != task {
        return Reply::NotOwner;
    }
    answer(layer.take_message())
}

// The answer that gives a message away.
fn answer(message: Option<Message>) -> Reply
    ensures { result ≡ got message }
{
    match message {
        None => Reply::Nothing,
        Some(message) => Reply::Got(message),
    }
}

// The owner of a window, if there is a window, is another task.
pub(crate) fn is_other(owner: Option<u32>, task: u32) -> bool
    ensures { result ≡ is_other task owner }
{
    match owner {
        None => false,
        Some(owner) => owner != task,
    }
}
