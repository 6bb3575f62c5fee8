//! No fold at all.
ghost use Rattle.std.specs.Prelude.{◌≡◌, ◌↔◌, IsTrue, refl};
ghost use Rattle.std.proofs.Common.{lit<};
ghost use Rattle.aug_monoid.specs.Nothing.{nothing_parts};

use crate::Monoid;

/// The monoid with one value, for a tree that adds nothing up.
#[derive(Clone, Copy, PartialEq, Eq, Debug)]
pub struct Nothing;

impl Monoid for Nothing {
    ghost parts = { nothing_parts };

    fn unit() -> Nothing {
        Nothing
    }

    fn of_key(_k: u32, _weight: u32) -> Nothing {
        Nothing
    }

    fn join(self, _other: Nothing) -> Nothing {
        Nothing
    }

    fn to_word(self) -> u64 {
        0
    }

    fn from_word(_word: u64) -> Nothing {
        Nothing
    }

    fn proper(self) -> bool
        ensures always { IsTrue result }
        ensures proper { IsTrue result ↔ Unit {0} }
    {
        true
    }

    ghost unit_is_proper = { tt };

    ghost key_is_proper = { λ _ _ _ _. tt };

    ghost join_is_proper = { λ _ _ _ _. tt };

    ghost of_word_is_proper = { λ _ _. tt };

    ghost associates = { λ _ _ _ _ _ _. refl };

    ghost unit_left = { λ _ _. refl };

    ghost unit_right = { λ _ _. refl };

    ghost word_fits = { λ _ _. lit< tt };

    ghost round_trip = { λ _ _. refl };
}
