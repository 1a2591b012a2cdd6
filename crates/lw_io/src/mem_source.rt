ghost use Rattle.std.specs.Prelude.{◌≡◌, ◌<◌, ◌≤◌, ◌↔◌, [], Some, length, min, take, drop, IfOk, OnErr, IsErr};
ghost use Rattle.lw_io.specs.Memory.{IsListed, next_call, one_more_fault};

use crate::faults::{call_after, is_listed, raised};
use crate::{Failed, Source};
use std::marker::Model;

/// A source over bytes in memory, with faults at chosen calls: for tests of what reads.
#[derive(Drop)]
pub struct MemSource {
    bytes: Vec<u8>,
    // How many of the bytes were read.
    taken: usize,
    step: usize,
    fails: Vec<u32>,
    call: u32,
    faults: u64,
}

impl Model for MemSource {
    ghost use Rattle.std.specs.Prelude.{◌<◌, ◌≤◌, drop, vec_len};
    ghost use Rattle.lw_io.specs.Memory.{SourceState};

    ghost Value = { SourceState };

    ghost view = { λ s. record {
      left = drop s.taken s.bytes.items;
      step = s.step;
      fails = s.fails.items;
      call = s.call;
      faults = s.faults;
    } };

    ghost invariant = { λ s. (s.taken ≤ vec_len s.bytes) × (0 < s.step) };
}

impl MemSource {
    /// A source of `bytes`. A call moves at most `step` of them, and the calls numbered in `fails`,
    /// from 0, fail. The number of calls stands still at 4294967295, and no call from there on fails.
    pub fn new(bytes: Vec<u8>, step: usize, fails: Vec<u32>) -> MemSource
        requires { 0 < step }
        ensures { result ≡ record {
          left = bytes.items;
          step = step;
          fails = fails.items;
          call = 0;
          faults = 0;
        } }
    {
        MemSource {
            bytes,
            taken: 0,
            step,
            fails,
            call: 0,
            faults: 0,
        }
    }
}

impl Source for MemSource {
    ghost left = { λ source. Some source.left };

    ghost faults = { λ source. source.faults };

    fn read(&mut self, piece: &mut [u8]) -> Result<usize, Failed>
        // Exactly the calls of the list fail. Such a call changes its number and the count alone.
        ensures fails { IsErr result ↔ IsListed self.old.fails self.old.call }
        ensures after_failed { OnErr result (self.new ≡ record self.old {
          call = next_call self.old.call;
          faults = one_more_fault self.old.faults;
        }) }

        // Any other call moves as many bytes as the step, the piece and what is left allow.
        ensures moved { IfOk result (λ n.
            n ≡ min self.old.step (min (length piece.new) (length self.old.left))) }
        ensures given { IfOk result (λ n. take n piece.new ≡ take n self.old.left) }
        ensures after_ok { IfOk result (λ n. self.new ≡ record self.old {
          left = drop n self.old.left;
          call = next_call self.old.call;
        }) }
        ensures end { IfOk result (λ n. n ≡ 0 → 0 < length piece.new → self.new.left ≡ []) }
        ensures count { self.old.faults ≤ self.new.faults }
    {
        let fails = is_listed(&self.fails, self.call);
        self.call = call_after(self.call);
        if fails {
            self.faults = raised(self.faults);
            return Err(Failed);
        }
        let count = copy_front(&self.bytes[self.taken..], piece, self.step);
        self.taken += count;
        Ok(count)
    }
}

// Copies the front of `from` to the front of `to`, at most `step` bytes, and says how many.
fn copy_front(from: &[u8], to: &mut [u8], step: usize) -> usize
    ensures count { result ≡ min step (min (length to.new) (length from.now)) }
    ensures copied { take result to.new ≡ take result from.now }
{
    let count = step.min(to.len().min(from.len()));
    to[..count].copy_from_slice(&from[..count]);
    count
}
