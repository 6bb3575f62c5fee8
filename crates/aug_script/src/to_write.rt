//! A writer as a sink for bytes.
ghost use Rattle.std.specs.Prelude.{◌≡◌, ◌+◌, ◌-◌, ◌^◌, ◌<◌, ◌≤◌, length, IfOk, is_ok, if◌then◌else◌};
ghost use Rattle.std.specs.Io.KnownBytes.{Keeps, WriteAppends};

use crate::{Fault, Sink};
use aug_model::Calls;
use std::io::Write;

/// A sink that hands its bytes to a writer. Each call of the writer that fails is a fault, also one that was
/// interrupted, and so is a write that takes no byte of a piece that has some.
#[derive(Debug, Drop)]
pub struct ToWrite<W> {
    writer: W,
    faults: u64,
    finishes: Calls,
}

impl<W: Write> ToWrite<W> {
    /// A sink over `writer` that has had no fault.
    pub fn new(writer: W) -> ToWrite<W>
        ensures { ⟦<ToWrite<W> as Sink>⟧.state result ≡ record { bytes = W.contents writer; finishes = 0; faults = 0 } }
    {
        ToWrite {
            writer,
            faults: 0,
            finishes: Calls::new(),
        }
    }

    /// The writer, with all that it took.
    pub fn into_inner(self) -> W
        ensures { W.contents result ≡ (⟦<ToWrite<W> as Sink>⟧.state self).bytes }
    {
        self.writer
    }

    // Counts a fault.
    fn fault(&mut self) -> Fault
        requires { self.old.faults < 2 ^ 64 - 1 }
        ensures { self.new ≡ record self.old { faults = self.old.faults + 1 } }
    {
        self.faults += 1;
        Fault
    }
}

impl<W: Write> Sink for ToWrite<W> {
    ghost state = { λ s. record { bytes = W.contents s.writer; finishes = s.finishes.made; faults = s.faults } };

    fn write_some(&mut self, piece: &[u8]) -> Result<usize, Fault> {
        match self.writer.write(piece) {
            Ok(0) if !piece.is_empty() => Err(self.fault()),
            Ok(count) => Ok(count),
            Err(_) => Err(self.fault()),
        }
    }

    fn finish(&mut self) -> Result<(), Fault> {
        self.finishes = self.finishes.one_more();
        match self.writer.flush() {
            Ok(()) => Ok(()),
            Err(_) => Err(self.fault()),
        }
    }

    fn faults(&self) -> u64 {
        self.faults
    }
}
