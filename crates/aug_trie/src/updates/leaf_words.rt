//! The word of a leaf: its serial in the upper half, and in the lower one the weight of its key, which is 0 if the serial is even.
ghost use Rattle.std.specs.Prelude.{◌≡◌, ◌+◌, ◌*◌, ◌^◌, ◌<◌};
ghost use Rattle.aug_core.specs.Book.{word_of_leaf};
ghost use Rattle.aug_trie.specs.LeafWords.{serial_in_word, weight_in_word};

// The serial of a leaf with this word.
#[inline(always)]
pub(crate) fn leaf_serial(word: u64) -> u64
    ensures { result ≡ serial_in_word word }
{
    word >> 32
}

// The weight of its key.
#[inline(always)]
pub(crate) fn leaf_weight(word: u64) -> u32
    ensures { result ≡ weight_in_word word }
{
    (word % 0x1_0000_0000) as u32
}

// The word of a leaf with this serial, of which it has the last 32 bits, and whose key has this weight.
#[inline(always)]
pub(crate) fn leaf_word(serial: u64, weight: u32) -> u64
    ensures { result ≡ word_of_leaf serial weight }
{
    serial % 0x1_0000_0000 * 0x1_0000_0000 + u64::from(weight)
}
