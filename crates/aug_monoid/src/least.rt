//! The least of the keys.
ghost use Rattle.std.specs.Prelude.{◌≡◌, ◌↔◌, ◌^◌, ◌<◌, min, IsTrue, refl};
ghost use Rattle.aug_monoid.specs.KeyBound.{least_parts};
ghost use Rattle.aug_monoid.specs.KeyWord.{IsKeyOrNone};
ghost use Rattle.aug_monoid.specs.inside.JoinedLaws.{joined_by-is_proper, joined_by-none_right, joined_by-assoc, min-is_key, min-assoc};
ghost use Rattle.aug_monoid.specs.inside.KeyWordLaws.{key_of_word-is_key, word_of_key-fits, key_of_word-word_of_key};

use crate::Monoid;
use crate::key_word::{key_of, word_of};
use std::marker::Model;

/// The least of the keys, or none if there are no keys.
#[derive(Clone, Copy, PartialEq, Eq, Debug)]
pub struct Least {
    key: Option<u32>,
}

impl Model for Least {
    ghost use Rattle.std.specs.Prelude.{ℕ, Option};

    ghost Value = { Option ℕ };

    ghost view = { λ l. l.key };

    ghost inverse = { λ k. record { key = k } };
}

impl Least {
    /// The least key, or none if there are no keys.
    pub fn value(self) -> Option<u32>
        ensures { result ≡ self }
    {
        self.key
    }
}

impl Monoid for Least {
    ghost parts = { least_parts };

    fn unit() -> Least {
        Least { key: None }
    }

    fn of_key(k: u32, _weight: u32) -> Least {
        Least { key: Some(k) }
    }

    fn join(self, other: Least) -> Least {
        let key = match (self.key, other.key) {
            (Some(mine), Some(theirs)) => Some(mine.min(theirs)),
            (mine, theirs) => mine.or(theirs),
        };
        Least { key }
    }

    fn to_word(self) -> u64 {
        word_of(self.key)
    }

    fn from_word(word: u64) -> Least {
        Least { key: key_of(word) }
    }

    fn proper(self) -> bool
        ensures always { IsTrue result }
        ensures proper { IsTrue result ↔ IsKeyOrNone self }
    {
        // Every key that fits the field is a value, and so is none.
        let _key = self.key;
        true
    }

    ghost unit_is_proper = { tt };

    ghost key_is_proper = { λ _ _ is_key _. is_key };

    ghost join_is_proper = { joined_by-is_proper min IsKeyOrNone min-is_key };

    ghost of_word_is_proper = { λ w _. key_of_word-is_key w };

    ghost associates = { λ x y z _ _ _. joined_by-assoc min min-assoc x y z };

    ghost unit_left = { λ _ _. refl };

    ghost unit_right = { λ x _. joined_by-none_right min x };

    ghost word_fits = { word_of_key-fits };

    ghost round_trip = { key_of_word-word_of_key };
}
