//! The least and the greatest of the keys, together.
ghost use Rattle.std.specs.Prelude.{◌≡◌, ◌↔◌, ◌≤◌, IsTrue, IfSome, None, Some, refl};
ghost use Rattle.aug_monoid.specs.Extent.{IsBoundsOrNone, extent_parts};
ghost use Rattle.aug_monoid.specs.inside.ExtentLaws.{one_key-is_bounds, spanned_by, spanned_by-is_bounds, spanned_by-assoc, bounds_of_word-is_bounds, word_of_bounds-fits, bounds_of_word-word_of_bounds};
ghost use Rattle.aug_monoid.specs.inside.JoinedLaws.{joined_by-is_proper, joined_by-none_right, joined_by-assoc};

use crate::Monoid;
use crate::key_word::NO_KEY;
use std::marker::Model;

/// How many numbers one half of a word can tell apart.
const HALF: u64 = 1 << 32;

/// The least and the greatest of the keys, or none if there are no keys.
#[derive(Clone, Copy, PartialEq, Eq, Debug)]
pub struct Extent {
    // Of no keys the greatest number and the least, which `join` passes over with no test.
    least: u32,
    greatest: u32,
}

impl Model for Extent {
    ghost use Rattle.std.specs.Prelude.{ℕ, Option};
    ghost use Rattle.aug_monoid.specs.Extent.{bounds_of};
    ghost use Rattle.aug_monoid.specs.inside.HeldBounds.{held_bounds, AreHeld};
    ghost use Rattle.aug_monoid.specs.inside.ExtentLaws.{held_bounds-bounds_of};

    ghost Value = { Option (ℕ × ℕ) };

    ghost view = { λ e. bounds_of e.least e.greatest };

    ghost invariant = { λ e. AreHeld e.least e.greatest };

    ghost inverse = { λ b. record { least = (held_bounds b).0; greatest = (held_bounds b).1 } };

    ghost inverse_ok = { λ e held. λ i. record { least = (held_bounds-bounds_of e.least e.greatest held i).0; greatest = (held_bounds-bounds_of e.least e.greatest held i).1 } };
}

impl Extent {
    /// The least key and the greatest, or none if there are no keys.
    pub fn bounds(self) -> Option<(u32, u32)>
        ensures same { result ≡ self }
        ensures ordered { IfSome result (λ b. b.0 ≤ b.1) }
    {
        (self.least <= self.greatest).then_some((self.least, self.greatest))
    }
}

impl Monoid for Extent {
    ghost parts = { extent_parts };

    fn unit() -> Extent {
        Extent {
            least: u32::MAX,
            greatest: 0,
        }
    }

    fn of_key(k: u32, _weight: u32) -> Extent {
        Extent {
            least: k,
            greatest: k,
        }
    }

    fn join(self, other: Extent) -> Extent {
        Extent {
            least: self.least.min(other.least),
            greatest: self.greatest.max(other.greatest),
        }
    }

    fn to_word(self) -> u64 {
        if self.least <= self.greatest {
            u64::from(self.least) * HALF + u64::from(self.greatest)
        } else {
            NO_KEY
        }
    }

    fn from_word(word: u64) -> Extent {
        let least = (word / HALF) as u32;
        let greatest = (word % HALF) as u32;
        if least <= greatest {
            Extent { least, greatest }
        } else {
            Extent::unit()
        }
    }

    fn proper(self) -> bool
        ensures always { IsTrue result }
        ensures proper { IsTrue result ↔ IsBoundsOrNone self }
    {
        self.least <= self.greatest || (self.least == u32::MAX && self.greatest == 0)
    }

    ghost unit_is_proper = { tt };

    ghost key_is_proper = { λ k _ is_key _. one_key-is_bounds k is_key };

    ghost join_is_proper = { joined_by-is_proper spanned_by IsBoundsOrNone spanned_by-is_bounds };

    ghost of_word_is_proper = { bounds_of_word-is_bounds };

    ghost associates = { λ x y z _ _ _. joined_by-assoc spanned_by spanned_by-assoc x y z };

    ghost unit_left = { λ _ _. refl };

    ghost unit_right = { λ x _. joined_by-none_right spanned_by x };

    ghost word_fits = { word_of_bounds-fits };

    ghost round_trip = { bounds_of_word-word_of_bounds };
}
