// What makes a layer a window, and whether it is the active one.

ghost use Rattle.std.specs.Prelude.{◌≡◌, ◌++◌, ◌∷◌, [], ◌-◌, ◌≤◌, true, false, None, MatchOption, OnOk, OnErr};
ghost use Rattle.lw_machine.specs.Layer.{is_window, is_framed, change_window, changed_window};
ghost use Rattle.lw_machine.specs.Step.{after_first, get_msg};
ghost use Rattle.lw_layer.specs.View.{with_layer};
ghost use Rattle.lw_layer.specs.Drafts.{window_of, room_of};
ghost use Rattle.lw_layer.specs.Windows.{title_of, oldest_of, roomless};

use crate::layer::Layer;
use lw_calls::{Message, Text};
use lw_ports::{MessageSet, Port};
use std::alloc::{AllocError, Global};
use std::mem;

/// What makes a layer a window (the manual's Intuition Windows chapter; that it belongs to a task is this project's own).
#[derive(Debug, Drop)]
pub struct WindowDraft {
    /// The task that opened it.
    pub owner: u32,
    /// It has a frame.
    pub framed: bool,
    pub title: Text,
    /// It wants no refresh messages at all.
    pub nocare: bool,
    /// The classes of messages for which it asks.
    pub set: MessageSet,
    pub port: Port,
    /// It was asked to refresh since its last full refresh.
    pub asked: bool,
}

impl Layer {
    /// The window that the layer is; `None` exactly where it isn't one.
    pub fn window(&self) -> Option<&WindowDraft>
        ensures { MatchOption result
            (self.now.layer.window ≡ None)
            (λ w. self.now.layer.window ≡ window_of (Some w.now)) }
    {
        self.draft.window.as_ref()
    }

    /// Makes the layer the active window, or no longer.
    pub fn set_active(&mut self, active: bool)
        ensures { self.new ≡ record self.old { active = active } }
    {
        self.draft.active = active;
    }

    /// Gives the window another title, and hands back the former one. The frame is not painted.
    pub fn set_title(&mut self, title: Text) -> Text
        requires { is_window self.old.layer.window ≡ true }
        ensures layer { self.new ≡ with_layer (λ l. change_window (λ w. record w { title = title }) l) self.old }
        ensures former { result ≡ title_of self.old.layer.window }
    {
        replace_title(&mut self.draft.window, title)
    }

    /// Takes the oldest message from the window's port; `None` exactly where there is none (GetMsg).
    pub fn take_message(&mut self) -> Option<Message>
        requires { is_window self.old.layer.window ≡ true }
        ensures layer { self.new ≡ record self.old { room = self.new.room; layer = get_msg self.old.layer } }
        ensures oldest { result ≡ oldest_of self.old.layer.window }
    {
        take_oldest(&mut self.draft.window)
    }

    /// Reserves room for `count` messages at least in the port of a window. It changes nothing else, and nothing of a layer that
    /// isn't a window.
    pub fn reserve(&mut self, alloc: Global, count: usize) -> Result<(), AllocError>
        ensures layer { roomless self.new ≡ roomless self.old }
        ensures room { OnOk result (is_window self.new.layer.window ≡ true → count ≤ self.new.room) }
        ensures err { OnErr result (self.new ≡ self.old) }
    {
        reserve_room(alloc, &mut self.draft.window, count)
    }

    /// Puts a message at the end of the window's port. There has to be room for it.
    pub fn put_message(&mut self, message: Message)
        requires window { is_window self.old.layer.window ≡ true }
        requires room { 1 ≤ self.old.room }
        ensures { self.new ≡ record self.old {
          room = self.old.room - 1;
          layer = change_window (λ w. record w { port = w.port ++ message ∷ [] }) self.old.layer;
        } }
    {
        put_last(&mut self.draft.window, message);
    }

    /// Notes that the window was asked to refresh.
    pub fn ask_refresh(&mut self)
        requires { is_window self.old.layer.window ≡ true }
        ensures { self.new ≡ with_layer (λ l. change_window (λ w. record w { asked = true }) l) self.old }
    {
        set_asked(&mut self.draft.window, true);
    }
}

// Whether there is a window, and it has a frame.
pub(crate) fn is_framed(window: &Option<WindowDraft>) -> bool
    ensures { result ≡ is_framed (window_of window.now) }
{
    match window {
        None => false,
        Some(window) => window.framed,
    }
}

// Notes whether the window, if there is one, was asked to refresh.
pub(crate) fn set_asked(window: &mut Option<WindowDraft>, asked: bool)
    ensures window { window_of window.new ≡ changed_window (λ w. record w { asked = asked }) (window_of window.old) }
    ensures room { room_of window.new ≡ room_of window.old }
{
    if let Some(window) = window {
        window.asked = asked;
    }
}

fn replace_title(window: &mut Option<WindowDraft>, title: Text) -> Text
    requires { is_window (window_of window.old) ≡ true }
    ensures window { window_of window.new ≡ changed_window (λ w. record w { title = title }) (window_of window.old) }
    ensures room { room_of window.new ≡ room_of window.old }
    ensures former { result ≡ title_of (window_of window.old) }
{
    match window {
        Some(window) => mem::replace(&mut window.title, title),
        None => unreachable!(),
    }
}

fn take_oldest(window: &mut Option<WindowDraft>) -> Option<Message>
    requires { is_window (window_of window.old) ≡ true }
    ensures window { window_of window.new ≡ changed_window (λ w. record w { port = after_first w.port }) (window_of window.old) }
    ensures oldest { result ≡ oldest_of (window_of window.old) }
{
    match window {
        Some(window) => window.port.get(),
        None => unreachable!(),
    }
}

fn reserve_room(
    alloc: Global,
    window: &mut Option<WindowDraft>,
    count: usize,
) -> Result<(), AllocError>
    ensures window { window_of window.new ≡ window_of window.old }
    ensures room { OnOk result (is_window (window_of window.new) ≡ true → count ≤ room_of window.new) }
    ensures err { OnErr result (window.new ≡ window.old) }
{
    match window {
        Some(window) => window.port.reserve(alloc, count),
        None => Ok(()),
    }
}

fn put_last(window: &mut Option<WindowDraft>, message: Message)
    requires window { is_window (window_of window.old) ≡ true }
    requires room { 1 ≤ room_of window.old }
    ensures window { window_of window.new
        ≡ changed_window (λ w. record w { port = w.port ++ message ∷ [] }) (window_of window.old) }
    ensures room { room_of window.new ≡ room_of window.old - 1 }
{
    match window {
        Some(window) => window.port.put(message),
        None => unreachable!(),
    }
}
