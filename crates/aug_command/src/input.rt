//! Where a script comes from.
ghost use Rattle.std.specs.Prelude.{◌≡◌, ℕ, ◌+◌, ◌-◌, ◌^◌, ◌<◌, Option, None, List, OnOk, is_ok, if◌then◌else◌};

use aug_script::{Fault, Source};

/// Standard input, or a file in its place once one was opened.
pub trait Input: Source {
    // The bytes of the file at a path, if they are known.
    ghost file_bytes: { Self → List ℕ → Option (List ℕ) } = { λ _ _. None };

    /// Opens the file at `path`. From now on reads come from it.
    fn open(&mut self, path: &str) -> Result<(), Fault>
        requires { Self.Source.fault_count self.old < 2 ^ 64 - 1 }
        ensures bytes { OnOk result (Self.Source.remaining self.new ≡ file_bytes self.old path.now) }
        ensures counted { Self.Source.fault_count self.new ≡ Self.Source.fault_count self.old + (if is_ok result then 0 else 1) };
}
