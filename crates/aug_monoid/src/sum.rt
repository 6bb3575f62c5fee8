//! The sum of the weights.
ghost use Rattle.std.specs.Prelude.{◌≡◌, ◌^◌, ◌<◌, ◌↔◌, IsTrue, refl};
ghost use Rattle.std.proofs.Common.{lit<};
ghost use Rattle.aug_monoid.specs.Sum.{sum_parts};
ghost use Rattle.aug_monoid.specs.inside.WrappingLaws.{wrapped_sum-fits, wrapped_sum-assoc, wrapped_sum-zero_left, wrapped_sum-zero_right, weight_fits};

use crate::Monoid;
use std::marker::Model;

/// The sum of the keys' weights, modulo 2^64.
#[derive(Clone, Copy, PartialEq, Eq, Debug)]
pub struct Sum {
    sum: u64,
}

impl Model for Sum {
    ghost use Rattle.std.specs.Prelude.{ℕ};

    ghost Value = { ℕ };

    ghost view = { λ s. s.sum };

    ghost inverse = { λ n. record { sum = n } };
}

impl Sum {
    /// The sum itself.
    pub fn value(self) -> u64
        ensures { result ≡ self }
    {
        self.sum
    }
}

impl Monoid for Sum {
    ghost parts = { sum_parts };

    fn unit() -> Sum {
        Sum { sum: 0 }
    }

    fn of_key(_key: u32, weight: u32) -> Sum {
        Sum {
            sum: u64::from(weight),
        }
    }

    fn join(self, other: Sum) -> Sum {
        Sum {
            sum: self.sum.wrapping_add(other.sum),
        }
    }

    fn to_word(self) -> u64 {
        self.value()
    }

    fn from_word(word: u64) -> Sum {
        Sum { sum: word }
    }

    fn proper(self) -> bool
        ensures always { IsTrue result }
        ensures proper { IsTrue result ↔ (self < 2 ^ 64) }
    {
        // Every number that fits the field is a value.
        let _number = self.sum;
        true
    }

    ghost unit_is_proper = { lit< tt };

    ghost key_is_proper = { λ _ w _ fits. weight_fits w fits };

    ghost join_is_proper = { λ x y _ _. wrapped_sum-fits x y };

    ghost of_word_is_proper = { λ _ fits. fits };

    ghost associates = { λ x y z _ _ _. wrapped_sum-assoc x y z };

    ghost unit_left = { wrapped_sum-zero_left };

    ghost unit_right = { wrapped_sum-zero_right };

    ghost word_fits = { λ _ fits. fits };

    ghost round_trip = { λ _ _. refl };
}
