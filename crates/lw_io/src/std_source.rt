ghost use Rattle.std.specs.Prelude.{◌≡◌, ◌≤◌, None, length, OnOk, OnErr, IfOk};
ghost use Rattle.std.specs.Io.KnownBytes.{ReadConsumes};
ghost use Rattle.lw_io.specs.Memory.{one_more_fault};

use crate::faults::raised;
use crate::{Failed, Source};
use std::io::Read;
use std::marker::Model;

/// A source over std's reader, which counts the errors. As a source it exposes no bytes.
#[derive(Drop)]
pub struct StdSource<R: Read + Drop> {
    reader: R,
    faults: u64,
}

impl<R: Read + Drop> Model for StdSource<R> {
    ghost use Rattle.lw_io.specs.Streams.{Counted};

    ghost Value = { Counted R };

    ghost view = { λ s. record { stream = s.reader; faults = s.faults } };
}

impl<R: Read + Drop> StdSource<R> {
    /// A source over `reader`, with no fault yet.
    pub fn new(reader: R) -> StdSource<R>
        ensures { result ≡ record { stream = reader; faults = 0 } }
    {
        StdSource { reader, faults: 0 }
    }
}

impl<R: Read + Drop> Source for StdSource<R> {
    ghost left = { λ _. None };

    ghost faults = { λ source. source.faults };

    /// Reads by the reader's own `read`. Each error that it answers is a fault, also an
    /// interrupted read.
    fn read(&mut self, piece: &mut [u8]) -> Result<usize, Failed>
        ensures bound { IfOk result (λ n. n ≤ length piece.new) }
        ensures reader { ReadConsumes
            (R.remaining self.old.stream) (R.remaining self.new.stream) result piece.new }
        ensures ok { OnOk result (self.new.faults ≡ self.old.faults) }
        ensures err { OnErr result (self.new.faults ≡ one_more_fault self.old.faults) }
        ensures count { self.old.faults ≤ self.new.faults }
    {
        match self.reader.read(piece) {
            Ok(count) => Ok(count),
            Err(_) => {
                self.faults = raised(self.faults);
                Err(Failed)
            }
        }
    }
}
