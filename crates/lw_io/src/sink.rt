ghost use Rattle.std.specs.Prelude.{◌≡◌, ℕ, ◌<◌, ◌≤◌, List, length, take, IfOk, OnOk, OnErr, Option};
ghost use Rattle.lw_io.specs.Streams.{Rose, bytes_after};

use crate::Failed;

/// A stream to write bytes to, in pieces.
pub trait Sink {
    // The bytes that were written, where the sink exposes them.
    ghost written: { Self → Option (List ℕ) };

    // The count of faults. It stands still at the last value of a u64.
    ghost faults: { Self → ℕ };

    /// Writes some bytes from the front of `piece`, and answers how many: at least one, if `piece`
    /// is not empty.
    ///
    /// A sink that exposes what was written goes on doing so, and one that doesn't never does.
    /// Where the stream behind it takes nothing, it raises its count and answers `Failed`.
    fn write(&mut self, piece: &[u8]) -> Result<usize, Failed>
        ensures bound { IfOk result (λ n. n ≤ length piece.now) }
        ensures some { IfOk result (λ n. 0 < length piece.now → 0 < n) }
        ensures bytes { IfOk result (λ n.
            written self.new ≡ bytes_after (written self.old) (take n piece.now)) }
        ensures kept { OnErr result (written self.new ≡ written self.old) }
        ensures failed { OnErr result (Rose (faults self.old) (faults self.new)) }
        ensures not_failed { OnOk result (faults self.new ≡ faults self.old) }
        ensures count { faults self.old ≤ faults self.new };
}
