//! How many keys there are.
ghost use Rattle.std.specs.Prelude.{◌≡◌, ◌^◌, ◌<◌, ◌↔◌, IsTrue, refl};
ghost use Rattle.std.proofs.Common.{lit<};
ghost use Rattle.aug_monoid.specs.Count.{count_parts};
ghost use Rattle.aug_monoid.specs.inside.WrappingLaws.{wrapped_sum-fits, wrapped_sum-assoc, wrapped_sum-zero_left, wrapped_sum-zero_right};

use crate::Monoid;
use std::marker::Model;

/// How many keys there are, modulo 2^64.
#[derive(Clone, Copy, PartialEq, Eq, Debug)]
pub struct Count {
    keys: u64,
}

impl Model for Count {
    ghost use Rattle.std.specs.Prelude.{ℕ};

    ghost Value = { ℕ };

    ghost view = { λ c. c.keys };

    ghost inverse = { λ n. record { keys = n } };
}

impl Count {
    /// The number itself.
    pub fn value(self) -> u64
        ensures { result ≡ self }
    {
        self.keys
    }
}

impl Monoid for Count {
    ghost parts = { count_parts };

    fn unit() -> Count {
        Count { keys: 0 }
    }

    fn of_key(_k: u32, _weight: u32) -> Count {
        Count { keys: 1 }
    }

    fn join(self, other: Count) -> Count {
        Count {
            keys: self.keys.wrapping_add(other.keys),
        }
    }

    fn to_word(self) -> u64 {
        self.value()
    }

    fn from_word(word: u64) -> Count {
        Count { keys: word }
    }

    fn proper(self) -> bool
        ensures always { IsTrue result }
        ensures proper { IsTrue result ↔ (self < 2 ^ 64) }
    {
        // Every number that fits the field is a value.
        let _number = self.keys;
        true
    }

    ghost unit_is_proper = { lit< tt };

    ghost key_is_proper = { λ _ _ _ _. lit< tt };

    ghost join_is_proper = { λ x y _ _. wrapped_sum-fits x y };

    ghost of_word_is_proper = { λ _ fits. fits };

    ghost associates = { λ x y z _ _ _. wrapped_sum-assoc x y z };

    ghost unit_left = { wrapped_sum-zero_left };

    ghost unit_right = { wrapped_sum-zero_right };

    ghost word_fits = { λ _ fits. fits };

    ghost round_trip = { λ _ _. refl };
}
