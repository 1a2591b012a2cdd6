ghost use Rattle.std.specs.Prelude.{◌≡◌, ◌≤◌, OnOk, OnErr};
ghost use Rattle.lw_io.specs.Streams.{Rose, bytes_after, WritesPrefix};

use crate::{Failed, Sink};

/// Writes all of `bytes` to `sink`, piece by piece. It takes no memory.
///
/// After `Failed` a prefix of `bytes` was written in this call, which may be none of them or all.
pub fn write_all<K: Sink>(sink: &mut K, bytes: &[u8]) -> Result<(), Failed>
    ensures ok { OnOk result (K.written sink.new ≡ bytes_after (K.written sink.old) bytes.now) }
    ensures prefix { WritesPrefix bytes.now (K.written sink.old) (K.written sink.new) }
    ensures failed { OnErr result (Rose (K.faults sink.old) (K.faults sink.new)) }
    ensures not_failed { OnOk result (K.faults sink.new ≡ K.faults sink.old) }
    ensures count { K.faults sink.old ≤ K.faults sink.new }
{
    let mut at = 0;
    while at < bytes.len() {
        at += sink.write(&bytes[at..])?;
    }
    Ok(())
}
