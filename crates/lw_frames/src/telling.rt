// Putting the messages that a layer's window is due into its port.

ghost use Rattle.std.specs.Prelude.{◌≡◌, ◌≤◌, true, MatchOption, None};
ghost use Rattle.lw_machine.specs.Layer.{is_window};
ghost use Rattle.lw_machine.specs.Reveal.{Across, is_damaged};
ghost use Rattle.lw_ports.specs.Sets.{classes_of, has_class};
ghost use Rattle.lw_windows.specs.Messages.{one_if};
ghost use Rattle.lw_frames.specs.Telling.{IsDone, IsDueOf, with_window_told, told_all, with_put};

use lw_calls::Message;
use lw_layer::{Layer, WindowDraft};
use lw_windows::{Change, Classes, due};

/// Puts the messages that the window is due that the layer is, if it is one, in the order of the machine (newsize, change,
/// inactive, active, refresh), after an arrangement that changed it so; whether it has some damage is looked up. The port needs
/// room for five messages. No memory is taken.
pub fn tell(layer: &mut Layer, change: &Change)
    requires room { is_window layer.old.layer.window ≡ true → 5 ≤ layer.old.room }
    ensures { (c : Across) → IsDone c change.now → layer.new ≡ with_window_told c layer.old }
{
    if let Some(classes) = messages_due(layer, change) {
        put_all(layer, &classes);
    }
}

// The messages that the layer's window is due; `None` exactly where it isn't a window.
fn messages_due(layer: &Layer, change: &Change) -> Option<Classes>
    ensures { MatchOption result
        (layer.now.layer.window ≡ None)
        (λ due. (is_window layer.now.layer.window ≡ true)
        × ((c : Across) → IsDone c change.now → IsDueOf c layer.now.layer layer.now.layer.window due)) }
{
    let window = layer.window()?;
    let change = Change {
        damaged: is_damaged(layer),
        ..*change
    };
    Some(due(&classes_asked(window), window.nocare, window.asked, &change))
}

// Whether the layer has some damage.
fn is_damaged(layer: &Layer) -> bool
    ensures { result ≡ is_damaged layer.now.layer }
{
    !layer.damage().region().rects().is_empty()
}

// The classes of messages for which a window asks.
fn classes_asked(window: &WindowDraft) -> Classes
    ensures newsize { result.newsize ≡ has_class (classes_of window.now.set) Message.NewSize }
    ensures change { result.change ≡ has_class (classes_of window.now.set) Message.Change }
    ensures inactive { result.inactive ≡ has_class (classes_of window.now.set) Message.Inactive }
    ensures active { result.active ≡ has_class (classes_of window.now.set) Message.Active }
    ensures refresh { result.refresh ≡ has_class (classes_of window.now.set) Message.Refresh }
{
    Classes {
        newsize: window.set.has(Message::NewSize),
        change: window.set.has(Message::Change),
        inactive: window.set.has(Message::Inactive),
        active: window.set.has(Message::Active),
        refresh: window.set.has(Message::Refresh),
    }
}

// Puts these messages, in their order, and notes that the window was asked to refresh where that is one of them.
fn put_all(layer: &mut Layer, due: &Classes)
    requires window { is_window layer.old.layer.window ≡ true }
    requires room { 5 ≤ layer.old.room }
    ensures { layer.new ≡ told_all due.now layer.old }
{
    put_if(layer, due.newsize, Message::NewSize);
    put_if(layer, due.change, Message::Change);
    put_if(layer, due.inactive, Message::Inactive);
    put_if(layer, due.active, Message::Active);
    put_if(layer, due.refresh, Message::Refresh);
    if due.refresh {
        layer.ask_refresh();
    }
}

// Puts a message, if it is due.
fn put_if(layer: &mut Layer, is_due: bool, message: Message)
    requires window { is_window layer.old.layer.window ≡ true }
    requires room { 1 ≤ layer.old.room }
    ensures { layer.new ≡ with_put (one_if is_due message) layer.old }
{
    if is_due {
        layer.put_message(message);
    }
}
