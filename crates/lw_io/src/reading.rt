ghost use Rattle.std.specs.Prelude.{◌≡◌, ◌<◌, ◌≤◌, ◌+◌, length, vec_len, OnOk, IfOk, IfSome, IsErrOf, ◌-◌, IsTrue, false};
ghost use Rattle.lw_io.specs.Streams.{Rose, bytes_before, NoneLeft, TakesAtMost, TakesJust, Moves};

use crate::Source;
use std::alloc::Global;
use thiserror::Error;

// How many bytes a call asks for at most.
const PIECE: usize = 4096;

/// Why a source was not read to its end.
#[derive(Clone, Copy, Debug, PartialEq, Eq, Error)]
pub enum ReadStop {
    /// A read failed, and the source counted it.
    #[error("a read failed")]
    Fault,
    /// More bytes came than the limit.
    #[error("too many bytes")]
    TooLong,
    /// There was no memory for the bytes.
    #[error("out of memory")]
    Memory,
}

/// Reads all that `source` has left, to its end: at most `limit` bytes.
///
/// More than `limit` bytes are `TooLong`, and `limit + 1` of them are taken then. At most
/// `limit + 1` bytes are taken, whatever the answer.
pub fn read_all<S: Source>(alloc: Global, source: &mut S, limit: usize) -> Result<Vec<u8>, ReadStop>
    requires { limit < usize.MAX }

    // What was left came whole, where the source exposes it, and nothing is left.
    ensures whole { IfOk result (λ v. IfSome (S.left source.old) (λ left. v.items ≡ left)) }
    ensures bytes { IfOk result (λ v.
        S.left source.old ≡ bytes_before v.items (S.left source.new)) }
    ensures end { OnOk result (NoneLeft (S.left source.new)) }
    ensures within { IfOk result (λ v. vec_len v ≤ limit) }

    // Why it stopped before the end. By `whole` and `within` more than the limit is never `Ok`.
    ensures too_long { IsErrOf result ReadStop.TooLong
        → TakesJust (limit + 1) (S.left source.old) (S.left source.new) }
    ensures fault { IsErrOf result ReadStop.Fault
        → Rose (S.faults source.old) (S.faults source.new) }
    // Any other answer, `Ok` too, comes only where no read failed.
    ensures no_fault { ¬ IsErrOf result ReadStop.Fault
        → S.faults source.new ≡ S.faults source.old }

    // After each answer.
    ensures taken { TakesAtMost (limit + 1) (S.left source.old) (S.left source.new) }
    ensures count { S.faults source.old ≤ S.faults source.new }
{
    let mut bytes = Vec::new(alloc);
    let mut piece = [0; PIECE];
    while read_piece(source, &mut piece, &mut bytes, limit)? {}
    Ok(bytes)
}

// Reads one piece and puts it at the end of `bytes`. It answers whether there was one: if not, the
// source is at its end.
fn read_piece<S: Source>(
    source: &mut S,
    piece: &mut [u8],
    bytes: &mut Vec<u8>,
    limit: usize,
) -> Result<bool, ReadStop>
    requires room { vec_len bytes.old ≤ limit }
    requires no_wrap { limit < usize.MAX }
    requires some_piece { 0 < length piece.old }
    ensures count { S.faults source.old ≤ S.faults source.new }
    ensures appended { OnOk result
        (Moves bytes.old.items bytes.new.items (S.left source.old) (S.left source.new)) }
    ensures within { OnOk result (vec_len bytes.new ≤ limit) }
    ensures more { IfOk result (λ more. IsTrue more → vec_len bytes.old < vec_len bytes.new) }
    ensures end { IfOk result (λ more. more ≡ false → NoneLeft (S.left source.new)) }
    ensures fault { IsErrOf result ReadStop.Fault
        → Rose (S.faults source.old) (S.faults source.new) }
    ensures no_fault { ¬ IsErrOf result ReadStop.Fault
        → S.faults source.new ≡ S.faults source.old }
    ensures too_long { IsErrOf result ReadStop.TooLong
        → TakesJust (limit - vec_len bytes.old + 1) (S.left source.old) (S.left source.new) }
    ensures taken { TakesAtMost (limit - vec_len bytes.old + 1)
        (S.left source.old) (S.left source.new) }
{
    let most = piece.len().min(limit - bytes.len() + 1);
    let count = match source.read(&mut piece[..most]) {
        Ok(count) => count,
        Err(_) => return Err(ReadStop::Fault),
    };
    if count > limit - bytes.len() {
        return Err(ReadStop::TooLong);
    }
    match bytes.extend_from_slice(&piece[..count]) {
        Ok(()) => Ok(count > 0),
        Err(_) => Err(ReadStop::Memory),
    }
}
