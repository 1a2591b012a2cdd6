ghost use Rattle.std.specs.Prelude.{◌≡◌, ◌<◌, ◌≤◌, ◌-◌, ◌↔◌, ◌⊎◌, [], ◌++◌, Some, length, min, take, IfOk, OnErr, IsErr};
ghost use Rattle.lw_io.specs.Memory.{IsListed, IsFull, next_call, one_more_fault};

use crate::faults::{call_after, is_listed, raised};
use crate::{Failed, Sink};
use std::alloc::{AllocError, Global};
use std::marker::Model;

/// A sink into memory, with room for so many bytes and faults at chosen calls: for tests of what
/// writes.
#[derive(Drop)]
pub struct MemSink {
    bytes: Vec<u8>,
    room: usize,
    step: usize,
    fails: Vec<u32>,
    call: u32,
    faults: u64,
}

impl Model for MemSink {
    ghost use Rattle.std.specs.Prelude.{◌<◌, ◌≤◌, vec_len, vec_capacity};
    ghost use Rattle.lw_io.specs.Memory.{SinkState};

    ghost Value = { SinkState };

    ghost view = { λ s. record {
      written = s.bytes.items;
      room = s.room;
      step = s.step;
      fails = s.fails.items;
      call = s.call;
      faults = s.faults;
    } };

    ghost invariant = { λ s.
        (vec_len s.bytes ≤ s.room) × (s.room ≤ vec_capacity s.bytes) × (0 < s.step) };
}

impl MemSink {
    /// A sink with room for `room` bytes, whose memory it takes here. A call moves at most `step`
    /// bytes. The calls numbered in `fails`, from 0, fail, and so does one with bytes to write where
    /// the room is used up. The number of calls stands still at 4294967295, and no call from there
    /// on fails by the list.
    pub fn new(
        alloc: Global,
        room: usize,
        step: usize,
        fails: Vec<u32>,
    ) -> Result<MemSink, AllocError>
        requires { 0 < step }
        ensures { IfOk result (λ sink. sink ≡ record {
          written = [];
          room = room;
          step = step;
          fails = fails.items;
          call = 0;
          faults = 0;
        }) }
    {
        Ok(MemSink {
            bytes: Vec::with_capacity(alloc, room)?,
            room,
            step,
            fails,
            call: 0,
            faults: 0,
        })
    }

    /// The bytes that were written.
    pub fn bytes(&self) -> &[u8]
        ensures written { result.now ≡ self.now.written }
        ensures within { length self.now.written ≤ self.now.room }
    {
        &self.bytes
    }
}

impl Sink for MemSink {
    ghost written = { λ sink. Some sink.written };

    ghost faults = { λ sink. sink.faults };

    fn write(&mut self, piece: &[u8]) -> Result<usize, Failed>
        // Exactly the calls of the list fail, and those with bytes to write and no room for any.
        // Such a call changes its number and the count alone.
        ensures fails { IsErr result
            ↔ (IsListed self.old.fails self.old.call ⊎ IsFull self.old piece.now) }
        ensures after_failed { OnErr result (self.new ≡ record self.old {
          call = next_call self.old.call;
          faults = one_more_fault self.old.faults;
        }) }

        // Any other call moves as many bytes as the step, the piece and the room allow.
        ensures moved { IfOk result (λ n.
            n ≡ min self.old.step
            (min (length piece.now) (self.old.room - length self.old.written))) }
        ensures after_ok { IfOk result (λ n. self.new ≡ record self.old {
          written = self.old.written ++ take n piece.now;
          call = next_call self.old.call;
        }) }
        ensures some { IfOk result (λ n. 0 < length piece.now → 0 < n) }
        ensures count { self.old.faults ≤ self.new.faults }
    {
        let spare = self.room - self.bytes.len();
        let fails = is_listed(&self.fails, self.call) || (spare == 0 && !piece.is_empty());
        self.call = call_after(self.call);
        if fails {
            self.faults = raised(self.faults);
            return Err(Failed);
        }
        let count = self.step.min(piece.len().min(spare));
        self.bytes.extend_from_slice(&piece[..count]).unwrap();
        Ok(count)
    }
}
