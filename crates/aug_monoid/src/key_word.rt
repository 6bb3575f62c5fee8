//! How a key, or none, is stored in one word.
ghost use Rattle.std.specs.Prelude.{◌≡◌};
ghost use Rattle.aug_monoid.specs.KeyWord.{word_of_key, key_of_word};

/// The word of no key. No key has it, since keys have 32 bits.
pub(crate) const NO_KEY: u64 = 1 << 32;

/// The word that stands for `key`.
pub(crate) fn word_of(key: Option<u32>) -> u64
    ensures { result ≡ word_of_key key }
{
    key.map_or(NO_KEY, u64::from)
}

/// The key that `word` stands for. A word that is no key stands for none.
pub(crate) fn key_of(word: u64) -> Option<u32>
    ensures { result ≡ key_of_word word }
{
    u32::try_from(word).ok()
}
