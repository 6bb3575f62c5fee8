//! What an update tells of its key.
ghost use Rattle.std.specs.Prelude.{◌≡◌};
ghost use Rattle.aug_trie.specs.Requests.{weight_told};

use crate::updates::leaf_words::{leaf_serial, leaf_weight};
use aug_model::Outcome;

/// What an update came to, and the weights that it tells of its key. Nobody changed the key between the one and the other, so that the amounts which the
/// updates of a key took and added are those by which these differ.
#[derive(Clone, Copy, PartialEq, Eq, Debug)]
pub struct Told {
    /// What it came to.
    pub outcome: Outcome,
    /// What the key weighed when the update found it; `None` if it was no member. It was so at some moment of the call, and if something was stored, just
    /// before that.
    pub before: Option<u32>,
    /// What it weighs by this update, or `None` if it took the key out. The same as `before` if nothing was stored.
    pub now: Option<u32>,
}

// An update of a leaf: what it came to, the word that it found there, and the one that it left, which is the same if nothing was stored.
#[derive(Clone, Copy)]
pub(crate) struct LeafUpdate {
    pub(crate) outcome: Outcome,
    pub(crate) found: u64,
    pub(crate) left: u64,
}

// The weight of a key whose leaf has this word, if it is a member.
#[inline(always)]
pub(crate) fn weight_in(word: u64) -> Option<u32>
    ensures { result ≡ weight_told word }
{
    if leaf_serial(word) % 2 == 1 {
        Some(leaf_weight(word))
    } else {
        None
    }
}
