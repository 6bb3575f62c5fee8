ghost use Rattle.std.specs.Prelude.{◌≡◌, ◌^◌, ◌↔◌, IfOk, IsErrOf, IsOk};
ghost use Rattle.std.specs.Result.{is_ok};
ghost use Rattle.aug_core.specs.Layout.{IsRefused};
ghost use Rattle.aug_script.specs.Limits.{Bounds, IsBounds, bounds_at, is_bounds};

use aug_core::{Layout, LayoutError};
use std::marker::Model;

/// What a script may ask for: keys below `2^bits`, until a `grow` row gives them more bits, lanes below `workers`, and `updates`
/// updates for each lane in each round.
#[derive(Clone, Copy, Debug, PartialEq, Eq)]
pub struct Limits {
    bits: u32,
    workers: u32,
    updates: u32,
}

impl Model for Limits {
    ghost Value = { Bounds };

    ghost view = { λ l. record { bits = l.bits; workers = l.workers; updates = l.updates } };

    ghost invariant = { λ l. IsBounds (record { bits = l.bits; workers = l.workers; updates = l.updates }) };

    ghost inverse = { λ b. record { bits = b.bits; workers = b.workers; updates = b.updates } };
}

impl Limits {
    /// The limits of these numbers, or the refusal of the table of a round that opens with every key. No round of a
    /// script that keeps the limits is then too large.
    pub fn try_new(bits: u32, workers: u32, updates: u32) -> Result<Limits, LayoutError>
        ensures ok { IsOk result ↔ IsBounds (record { bits = bits; workers = workers; updates = updates }) }
        ensures limits { IfOk result (λ l. l ≡ record { bits = bits; workers = workers; updates = updates }) }

        // The same as a test, as the reading of a script makes it.
        ensures test { is_ok result ≡ is_bounds (record { bits = bits; workers = workers; updates = updates }) }

        // One cause each, and the first that is met.
        ensures bad_bits { IsErrOf result LayoutError.BadBits ↔ IsRefused LayoutError.BadBits bits workers updates (2 ^ bits) }
        ensures bad_workers { IsErrOf result LayoutError.BadWorkers ↔ IsRefused LayoutError.BadWorkers bits workers updates (2 ^ bits) }
        ensures bad_updates { IsErrOf result LayoutError.BadUpdates ↔ IsRefused LayoutError.BadUpdates bits workers updates (2 ^ bits) }
        ensures too_large { IsErrOf result LayoutError.TooLarge ↔ IsRefused LayoutError.TooLarge bits workers updates (2 ^ bits) }
    {
        let members = if bits <= 16 { 1 << bits } else { 0 };
        Layout::new(bits, workers, updates, members)?;
        Ok(Limits {
            bits,
            workers,
            updates,
        })
    }

    /// Keys are below `2^bits` until a `grow` row gives them more bits.
    pub fn bits(&self) -> u32
        ensures value { result ≡ self.now.bits }
        ensures known { IsBounds self.now }
    {
        self.bits
    }

    /// Lanes are below `workers`.
    pub fn workers(&self) -> u32
        ensures value { result ≡ self.now.workers }
        ensures known { IsBounds self.now }
    {
        self.workers
    }

    /// How many rows of a lane in a round may insert, put or remove.
    pub fn updates(&self) -> u32
        ensures value { result ≡ self.now.updates }
        ensures known { IsBounds self.now }
    {
        self.updates
    }

    /// Whether a round of `bits` bits that opens with every key has a table too, with these workers and updates.
    pub(crate) fn has_table(&self, bits: u32) -> bool
        ensures { result ≡ is_bounds (bounds_at self.now bits) }
    {
        Limits::try_new(bits, self.workers, self.updates).is_ok()
    }
}
