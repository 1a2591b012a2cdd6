ghost use Rattle.std.specs.Prelude.{◌≡◌, ◌++◌, ◌∷◌, [], ◌+◌, ◌-◌, ◌≤◌, drop, IfOk, OnOk, OnErr, IsOk};
ghost use Rattle.std.specs.Vec.{vec_len, vec_capacity};
ghost use Rattle.lw_machine.specs.Step.{after_first};
ghost use Rattle.lw_ports.specs.Ports.{PortView, oldest};

use crate::MessageSet;
use lw_calls::Message;
use std::alloc::{AllocError, Global};
use std::marker::Model;

/// A window's port. Contracts see its messages from the oldest, and how many more may be put before room is reserved again.
#[derive(Debug, Drop)]
pub struct Port {
    // The messages that were taken, which lie here until room is needed, and then those of the port.
    kept: Vec<Message>,
    taken: usize,
}

impl Model for Port {
    ghost use Rattle.std.specs.Prelude.{◌-◌, ◌≤◌, drop};
    ghost use Rattle.std.specs.Vec.{vec_len, vec_capacity};
    ghost use Rattle.lw_ports.specs.Ports.{PortView};

    ghost Value = { PortView };

    ghost view = { λ p. record { messages = drop p.taken p.kept.items; spare = vec_capacity p.kept - vec_len p.kept } };

    ghost invariant = { λ p. p.taken ≤ vec_len p.kept };
}

impl Port {
    /// A port with no message and no room. It takes no memory.
    pub fn new(alloc: Global) -> Port
        ensures { result ≡ record { messages = []; spare = 0 } }
    {
        Port {
            kept: Vec::new(alloc),
            taken: 0,
        }
    }

    /// The messages, from the oldest.
    pub fn messages(&self) -> &[Message]
        ensures { result.now ≡ self.now.messages }
    {
        &self.kept.as_slice()[self.taken..]
    }

    /// How many messages may be put before room has to be reserved again.
    pub fn spare(&self) -> usize
        ensures { result ≡ self.now.spare }
    {
        self.kept.capacity() - self.kept.len()
    }

    /// Reserves room for `count` messages at least. After an error the port is as before.
    ///
    /// Messages move to the front only where as many were taken before them, and else to twice as many places: so over a run
    /// each of them moves a few times, however many wait.
    pub fn reserve(&mut self, alloc: Global, count: usize) -> Result<(), AllocError>
        ensures messages { self.new.messages ≡ self.old.messages }
        ensures room { OnOk result (count ≤ self.new.spare) }
        ensures spare { self.old.spare ≤ self.new.spare }
        ensures enough { count ≤ self.old.spare → IsOk result }
        ensures err { OnErr result (self.new ≡ self.old) }
    {
        if count <= self.spare() {
            return Ok(());
        }
        let left = self.kept.len() - self.taken;
        if left <= self.taken && count <= self.kept.capacity() - left {
            remove_front(&mut self.kept, self.taken);
        } else {
            self.kept = copy_with_room(alloc, self.messages(), count)?;
        }
        self.taken = 0;
        Ok(())
    }

    /// Puts a message after all others. There has to be room for it, which the caller has reserved.
    pub fn put(&mut self, message: Message)
        requires { 1 ≤ self.old.spare }
        ensures { self.new ≡ record {
          messages = self.old.messages ++ message ∷ [];
          spare = self.old.spare - 1;
        } }
    {
        self.kept.push_reserved(message);
    }

    /// Takes the oldest message, if there is one.
    pub fn get(&mut self) -> Option<Message>
        ensures oldest { result ≡ oldest self.old.messages }
        ensures rest { self.new.messages ≡ after_first self.old.messages }
        ensures spare { self.old.spare ≤ self.new.spare }
    {
        let message = *self.kept.get(self.taken)?;
        self.taken += 1;
        Some(message)
    }
}

// Removes the first `count` messages. The others move to the front.
fn remove_front(messages: &mut Vec<Message>, count: usize)
    requires { count ≤ vec_len messages.old }
    ensures items { messages.new.items ≡ drop count messages.old.items }
    ensures len { vec_len messages.new ≡ vec_len messages.old - count }
    ensures capacity { vec_capacity messages.new ≡ vec_capacity messages.old }
{
    let left = messages.len() - count;
    messages.copy_within(count.., 0);
    messages.truncate(left);
}

// The messages, with room for `count` more, and for as many as there are.
fn copy_with_room(
    alloc: Global,
    messages: &[Message],
    count: usize,
) -> Result<Vec<Message>, AllocError>
    ensures items { IfOk result (λ copy. copy.items ≡ messages.now) }
    ensures room { IfOk result (λ copy. vec_len copy + count ≤ vec_capacity copy) }
{
    let room = messages.len().max(count);
    let mut copy = Vec::with_capacity(alloc, messages.len().saturating_add(room))?;
    copy.extend_from_slice(messages)?;
    Ok(copy)
}

// Ports and sets may go to another thread, and threads may share them: the bounds ask for the proofs.
fn cross_threads() {
    crosses::<Port>();
    is_shared::<Port>();
    crosses::<MessageSet>();
    is_shared::<MessageSet>();
}

fn crosses<T: Send>() {}

fn is_shared<T: Sync>() {}
