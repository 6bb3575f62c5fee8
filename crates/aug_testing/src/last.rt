//! A monoid whose join is not commutative: the last of the keys.
ghost use Rattle.std.specs.Prelude.{◌≡◌, ◌↔◌, Option, IsTrue, None, Some, refl};
ghost use Rattle.std.specs.Option.{option_or};
ghost use Rattle.aug_monoid.specs.KeyWord.{IsKeyOrNone, word_of_key, key_of_word};
ghost use Rattle.aug_monoid.specs.inside.KeyWordLaws.{key_of_word-is_key, word_of_key-fits, key_of_word-word_of_key};

use aug_monoid::Monoid;
use std::marker::Model;

#[derive(Clone, Copy, PartialEq, Eq, Debug)]
pub struct Last {
    key: Option<u32>,
}

impl Model for Last {
    ghost use Rattle.std.specs.Prelude.{ℕ, Option};

    ghost Value = { Option ℕ };

    ghost view = { λ l. l.key };

    ghost inverse = { λ k. record { key = k } };
}

impl Last {
    /// The last key, if there is one.
    pub fn value(self) -> Option<u32>
        ensures { result ≡ self }
    {
        self.key
    }
}

impl Monoid for Last {
    ghost parts = { record {
      IsProper = IsKeyOrNone;
      unit = None;
      of_key = λ k w. Some k;
      join = λ x y. option_or y x;
      to_word = word_of_key;
      from_word = key_of_word;
    } };

    fn unit() -> Last {
        Last { key: None }
    }

    fn of_key(k: u32, _weight: u32) -> Last {
        Last { key: Some(k) }
    }

    fn join(self, other: Last) -> Last {
        Last {
            key: other.key.or(self.key),
        }
    }

    fn to_word(self) -> u64 {
        self.key.map_or(1 << 32, u64::from)
    }

    fn from_word(word: u64) -> Last {
        Last {
            key: u32::try_from(word).ok(),
        }
    }

    fn proper(self) -> bool {
        let _key = self.key;
        true
    }

    ghost unit_is_proper = { tt };

    ghost key_is_proper = { λ _ _ is_key _. is_key };

    ghost join_is_proper = { λ x y x_is_key y_is_key. elim y as (λ y'. IsKeyOrNone y' → IsKeyOrNone (option_or y' x)) [ None ↦ λ _. x_is_key | Some k ↦ λ is_key. is_key ] y_is_key };

    ghost of_word_is_proper = { λ w _. key_of_word-is_key w };

    ghost associates = { λ x y z _ _ _. elim z as (λ z'. option_or z' (option_or y x) ≡ option_or (option_or z' y) x) [ None ↦ refl | Some k ↦ refl ] };

    ghost unit_left = { λ x _. elim x as (λ x'. option_or x' None ≡ x') [ None ↦ refl | Some k ↦ refl ] };

    ghost unit_right = { λ _ _. refl };

    ghost word_fits = { word_of_key-fits };

    ghost round_trip = { key_of_word-word_of_key };
}
