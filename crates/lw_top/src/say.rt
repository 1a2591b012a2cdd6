//! What is written with an answer.

ghost use Rattle.std.specs.Prelude.{◌≡◌, ◌⊎◌, ◌≤◌};
ghost use Rattle.lw_io.specs.Streams.{change};
ghost use Rattle.lw_top.specs.Status.{Says, text_of};

use crate::status::Status;
use lw_io::{ReadStop, Sink, write_all};

/// Writes the text that is due with a status. Where the sink fails, the answer is `WriteFault`.
pub fn say<K: Sink>(sink: &mut K, text: &[u8], status: Status) -> Status
    ensures said { Says text.now status result
        (change K.written K.faults sink.old sink.new) }
    ensures count { K.faults sink.old ≤ K.faults sink.new }
{
    match write_all(sink, text) {
        Ok(()) => status,
        Err(_) => Status::WriteFault,
    }
}

/// Writes the text that is due where the input was not read to its end.
pub fn say_stop<K: Sink>(sink: &mut K, stop: ReadStop) -> Status
    ensures long { stop ≡ ReadStop.TooLong → Says (text_of Status.TooLong) Status.TooLong result
        (change K.written K.faults sink.old sink.new) }
    ensures fault { stop ≡ ReadStop.Fault → result ≡ Status.ReadFault }
    ensures memory { stop ≡ ReadStop.Memory → result ≡ Status.NoMemory }
    ensures untouched { (result ≡ Status.ReadFault) ⊎ (result ≡ Status.NoMemory)
        → sink.new ≡ sink.old }
    ensures count { K.faults sink.old ≤ K.faults sink.new }
{
    match stop {
        ReadStop::TooLong => say(sink, b"too long\n", Status::TooLong),
        ReadStop::Fault => Status::ReadFault,
        ReadStop::Memory => Status::NoMemory,
    }
}
