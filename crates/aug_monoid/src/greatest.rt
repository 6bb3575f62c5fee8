//! The greatest of the keys.
ghost use Rattle.std.specs.Prelude.{◌≡◌, ◌↔◌, ◌^◌, ◌<◌, max, IsTrue, refl};
ghost use Rattle.aug_monoid.specs.KeyBound.{greatest_parts};
ghost use Rattle.aug_monoid.specs.KeyWord.{IsKeyOrNone};
ghost use Rattle.aug_monoid.specs.inside.JoinedLaws.{joined_by-is_proper, joined_by-none_right, joined_by-assoc, max-is_key, max-assoc};
ghost use Rattle.aug_monoid.specs.inside.KeyWordLaws.{key_of_word-is_key, word_of_key-fits, key_of_word-word_of_key};

use crate::Monoid;
use crate::key_word::{key_of, word_of};
use std::marker::Model;

/// The greatest of the keys, or none if there are no keys.
#[derive(Clone, Copy, PartialEq, Eq, Debug)]
pub struct Greatest {
    key: Option<u32>,
}

impl Model for Greatest {
    ghost use Rattle.std.specs.Prelude.{ℕ, Option};

    ghost Value = { Option ℕ };

    ghost view = { λ g. g.key };

    ghost inverse = { λ k. record { key = k } };
}

impl Greatest {
    /// The greatest key, or none if there are no keys.
    pub fn value(self) -> Option<u32>
        ensures { result ≡ self }
    {
        self.key
    }
}

impl Monoid for Greatest {
    ghost parts = { greatest_parts };

    fn unit() -> Greatest {
        Greatest { key: None }
    }

    fn of_key(k: u32, _weight: u32) -> Greatest {
        Greatest { key: Some(k) }
    }

    fn join(self, other: Greatest) -> Greatest {
        let key = match (self.key, other.key) {
            (Some(mine), Some(theirs)) => Some(mine.max(theirs)),
            (mine, theirs) => mine.or(theirs),
        };
        Greatest { key }
    }

    fn to_word(self) -> u64 {
        word_of(self.key)
    }

    fn from_word(word: u64) -> Greatest {
        Greatest { key: key_of(word) }
    }

    fn proper(self) -> bool
        ensures always { IsTrue result }
        ensures proper { IsTrue result ↔ IsKeyOrNone self }
    {
        // Every key that fits the field is a value, and so is none.
        let _key = self.key;
        true
    }

    ghost unit_is_proper = { tt };

    ghost key_is_proper = { λ _ _ is_key _. is_key };

    ghost join_is_proper = { joined_by-is_proper max IsKeyOrNone max-is_key };

    ghost of_word_is_proper = { λ w _. key_of_word-is_key w };

    ghost associates = { λ x y z _ _ _. joined_by-assoc max max-assoc x y z };

    ghost unit_left = { λ _ _. refl };

    ghost unit_right = { λ x _. joined_by-none_right max x };

    ghost word_fits = { word_of_key-fits };

    ghost round_trip = { key_of_word-word_of_key };
}
