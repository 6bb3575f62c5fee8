//! Where a script comes from and where reports go.
ghost use Rattle.std.specs.Prelude.{◌≡◌, ℕ, ◌+◌, ◌-◌, ◌^◌, ◌<◌, ◌≤◌, Option, None, List, length, IfOk, is_ok, if◌then◌else◌};
ghost use Rattle.std.specs.Io.KnownBytes.{Keeps, ReadConsumes, WriteAppends};
ghost use Rattle.aug_script.specs.Devices.{SinkState};

use thiserror::Error;

/// A device failed. What failed and why is the device's own matter.
#[derive(Clone, Copy, Debug, PartialEq, Eq, Error)]
#[error("a device failed")]
pub struct Fault;

/// Where bytes come from.
pub trait Source {
    // The bytes that are still to come, if they are known.
    ghost remaining: { Self → Option (List ℕ) } = { λ _. None };

    // How often a call answered `Fault` so far.
    ghost fault_count: { Self → ℕ };

    /// Reads some bytes to the front of `piece`, and answers how many. None for a piece that is not empty is the end.
    fn read_some(&mut self, piece: &mut [u8]) -> Result<usize, Fault>
        requires { fault_count self.old < 2 ^ 64 - 1 }
        ensures bound { IfOk result (λ n. n ≤ length piece.new) }
        ensures bytes { ReadConsumes (remaining self.old) (remaining self.new) result piece.new }
        ensures counted { fault_count self.new ≡ fault_count self.old + (if is_ok result then 0 else 1) };

    /// How often a call answered `Fault` so far.
    fn faults(&self) -> u64
        ensures { result ≡ fault_count self.now };
}

/// Where bytes go.
pub trait Sink {
    // What it did so far: what went out, the calls of `finish`, and the calls that answered `Fault`.
    ghost state: { Self → SinkState };

    /// Writes some bytes from the front of `piece`, and answers how many: at least one, if it has any.
    fn write_some(&mut self, piece: &[u8]) -> Result<usize, Fault>
        requires { (state self.old).faults < 2 ^ 64 - 1 }
        ensures bound { IfOk result (λ n. n ≤ length piece.now) }
        ensures some { IfOk result (λ n. 0 < length piece.now → 0 < n) }
        ensures bytes { WriteAppends (state self.old).bytes (state self.new).bytes result piece.now }
        ensures counted { (state self.new).faults ≡ (state self.old).faults + (if is_ok result then 0 else 1) }
        ensures unfinished { (state self.new).finishes ≡ (state self.old).finishes };

    /// Hands on what was written, as a flush does.
    fn finish(&mut self) -> Result<(), Fault>
        requires { (state self.old).faults < 2 ^ 64 - 1 }
        ensures bytes { Keeps (state self.old).bytes (state self.new).bytes }
        ensures counted { (state self.new).faults ≡ (state self.old).faults + (if is_ok result then 0 else 1) }
        ensures finished { (state self.new).finishes ≡ (state self.old).finishes + 1 };

    /// How often a call answered `Fault` so far.
    fn faults(&self) -> u64
        ensures { result ≡ (state self.now).faults };
}
