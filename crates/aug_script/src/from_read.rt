//! A reader as a source of bytes.
ghost use Rattle.std.specs.Prelude.{◌≡◌, ◌+◌, ◌-◌, ◌^◌, ◌<◌, ◌≤◌, length, IfOk, is_ok, if◌then◌else◌};
ghost use Rattle.std.specs.Io.KnownBytes.{ReadConsumes};

use crate::{Fault, Source};
use std::io::Read;

/// A source that gives what a reader gives. Each call of the reader that fails is a fault, also one that was
/// interrupted.
#[derive(Debug, Drop)]
pub struct FromRead<R> {
    reader: R,
    faults: u64,
}

impl<R: Read> FromRead<R> {
    /// A source over `reader` that has had no fault.
    pub fn new(reader: R) -> FromRead<R>
        ensures bytes { ⟦<FromRead<R> as Source>⟧.remaining result ≡ R.remaining reader }
        ensures none { ⟦<FromRead<R> as Source>⟧.fault_count result ≡ 0 }
    {
        FromRead { reader, faults: 0 }
    }

    /// The reader, which goes on from where the source stopped.
    pub fn into_inner(self) -> R
        ensures { R.remaining result ≡ ⟦<FromRead<R> as Source>⟧.remaining self }
    {
        self.reader
    }
}

impl<R: Read> Source for FromRead<R> {
    ghost remaining = { λ s. R.remaining s.reader };

    ghost fault_count = { λ s. s.faults };

    fn read_some(&mut self, piece: &mut [u8]) -> Result<usize, Fault> {
        match self.reader.read(piece) {
            Ok(count) => Ok(count),
            Err(_) => {
                self.faults += 1;
                Err(Fault)
            }
        }
    }

    fn faults(&self) -> u64 {
        self.faults
    }
}
