ghost use Rattle.std.specs.Prelude.{◌≡◌, ℕ, ◌<◌, ◌≤◌, List, length, take, IfOk, OnOk, OnErr, Option};
ghost use Rattle.lw_io.specs.Streams.{Rose, bytes_before, NoneLeft};

use crate::Failed;

/// A stream of bytes to read, in pieces.
pub trait Source {
    // The bytes that are left, where the source exposes them.
    ghost left: { Self → Option (List ℕ) };

    // The count of faults. It stands still at the last value of a u64.
    ghost faults: { Self → ℕ };

    /// Reads some bytes into the front of `piece`, and answers how many.
    ///
    /// An answer of 0 for a piece that is not empty is the end of the source. What `piece` holds
    /// after the bytes that were read, and after `Failed`, is not said. A source that exposes what
    /// is left goes on doing so, and one that doesn't never does.
    fn read(&mut self, piece: &mut [u8]) -> Result<usize, Failed>
        ensures bound { IfOk result (λ n. n ≤ length piece.new) }
        ensures bytes { IfOk result (λ n.
            left self.old ≡ bytes_before (take n piece.new) (left self.new)) }
        ensures end { IfOk result (λ n.
            n ≡ 0 → 0 < length piece.new → NoneLeft (left self.new)) }
        ensures kept { OnErr result (left self.new ≡ left self.old) }
        ensures failed { OnErr result (Rose (faults self.old) (faults self.new)) }
        ensures not_failed { OnOk result (faults self.new ≡ faults self.old) }
        ensures count { faults self.old ≤ faults self.new };
}
