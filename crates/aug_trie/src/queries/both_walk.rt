//! Two snapshots as a comparison walks them at once, over the words of whoever has taken them.
ghost use Rattle.std.specs.Prelude.{◌≡◌, ℕ, ◌+◌, ◌*◌};
ghost use Rattle.aug_core.specs.Faces.{face};
ghost use Rattle.aug_model.specs.Queries.{weight_of};
ghost use Rattle.aug_trie.specs.inside.BothWalk.{IsBothWalk, top_of};
ghost use Rattle.aug_trie.specs.inside.Goes.{Looks, KnowsRecords};
ghost use Rattle.aug_trie.specs.inside.LeafPairs.{leaf_pairs};
ghost use Rattle.aug_trie.specs.inside.NodesUnder.{IsNodeUnder};

use crate::queries::record_words::RecordWords;
use crate::queries::snapshot::Snapshot;
use crate::updates::leaf_words::{leaf_serial, leaf_weight};
use aug_core::RecordField;
use aug_monoid::Monoid;
use aug_query::{Calls, DescendBoth};
use std::marker::{Model, PhantomData};

// The word of the left child, at this level, of the node at this place one level higher in a snapshot's tree. The node is given by its word; snapshot,
// level and place are for the contract alone.
#[inline(always)]
fn left_under<A: Monoid, B: Monoid, W: RecordWords>(
    words: &mut W,
    snapshot: Snapshot,
    level: u32,
    place: u32,
    word: u64,
) -> u64
    requires knows { KnowsRecords (face A.parts B.parts) (W.known words.old).view }
    requires plain { (word : ℕ) → W.number word ≡ word }
    requires node { IsNodeUnder (W.known words.old).view.shape (W.known words.old).view.seen (top_of (W.known words.old).view snapshot) (level + 1) place word }
    ensures table { (W.known words.new).table ≡ (W.known words.old).table }
    ensures looks { Looks 1 (W.known words.old).view (W.known words.new).view }
    ensures node { IsNodeUnder (W.known words.old).view.shape (W.known words.old).view.seen (top_of (W.known words.old).view snapshot) level (2 * place) result }
{
    let _ = (snapshot, level, place);
    words.load_word(word, RecordField::Left)
}

// The word of the right child.
#[inline(always)]
fn right_under<A: Monoid, B: Monoid, W: RecordWords>(
    words: &mut W,
    snapshot: Snapshot,
    level: u32,
    place: u32,
    word: u64,
) -> u64
    requires knows { KnowsRecords (face A.parts B.parts) (W.known words.old).view }
    requires plain { (word : ℕ) → W.number word ≡ word }
    requires node { IsNodeUnder (W.known words.old).view.shape (W.known words.old).view.seen (top_of (W.known words.old).view snapshot) (level + 1) place word }
    ensures table { (W.known words.new).table ≡ (W.known words.old).table }
    ensures looks { Looks 1 (W.known words.old).view (W.known words.new).view }
    ensures node { IsNodeUnder (W.known words.old).view.shape (W.known words.old).view.seen (top_of (W.known words.old).view snapshot) level (2 * place + 1) result }
{
    let _ = (snapshot, level, place);
    words.load_word(word, RecordField::Right)
}

// The weight of the key whose leaf has this word, if it is a member. The key is for the contract alone.
#[inline(always)]
fn weight_by_word(key: u32, word: u64) -> Option<u32>
    ensures { result ≡ weight_of (leaf_pairs key word) key }
{
    let _ = key;
    if leaf_serial(word) % 2 == 1 {
        return Some(leaf_weight(word));
    }
    None
}

/// Two snapshots of a pass or of a reader, while its words are taken out. The nodes of both at a level and a place are named by the words that their
/// parents' records have for them: where these are equal, all that is below is the same. A call for children loads one word of each tree.
#[derive(Drop)]
pub(crate) struct BothWalk<W: RecordWords, A: Monoid, B: Monoid> {
    words: W,
    earlier: Snapshot,
    later: Snapshot,
    bits: u32,
    loaded: Calls,
    monoids: PhantomData<(A, B)>,
}

impl<W: RecordWords, A: Monoid, B: Monoid> Model for BothWalk<W, A, B> {
    ghost use Rattle.aug_core.specs.Faces.{face};
    ghost use Rattle.aug_trie.specs.inside.BothWalk.{IsBothWalk, WalkingBoth};

    ghost Value = { WalkingBoth };

    ghost view = { λ w. record { words = W.known w.words; earlier = w.earlier; later = w.later; bits = w.bits; loaded = w.loaded } };

    ghost invariant = { λ w. IsBothWalk (face A.parts B.parts) W.number (W.known w.words).view w.earlier w.later w.bits };
}

impl<W: RecordWords, A: Monoid, B: Monoid> BothWalk<W, A, B> {
    // A walk over two snapshots of the pass or the reader that has these words.
    #[inline(always)]
    pub(crate) fn over(words: W, earlier: Snapshot, later: Snapshot, bits: u32) -> BothWalk<W, A, B>
        requires { IsBothWalk (face A.parts B.parts) W.number (W.known words).view earlier later bits }
        ensures words { result.words ≡ W.known words }
        ensures earlier { result.earlier ≡ earlier }
        ensures later { result.later ≡ later }
    {
        BothWalk {
            words,
            earlier,
            later,
            bits,
            loaded: Calls::new(),
            monoids: PhantomData,
        }
    }

    // The words again.
    #[inline(always)]
    pub(crate) fn into_words(self) -> W
        ensures { W.known result ≡ self.words }
    {
        let BothWalk { words, .. } = self;
        words
    }
}

impl<W: RecordWords, A: Monoid, B: Monoid> DescendBoth for BothWalk<W, A, B> {
    type Name = (u64, u64);

    ghost use Rattle.aug_trie.specs.inside.BothWalk.{both_seen, IsNamedInBoth, KeepsBoth};
    ghost use Rattle.aug_trie.specs.inside.BothWalkLaws.{both_kept_so, both_kept_on, stand_in_both};
    ghost use Rattle.aug_core.specs.Faces.{face};

    ghost both_of = { λ w. both_seen w.words.view w.earlier w.later };

    ghost loads_of = { λ w. w.loaded.made };

    ghost Names = { λ w level place words. IsNamedInBoth (face A.parts B.parts) w.words.view w.earlier w.later level place words };

    ghost KeepsRest = { λ first w. KeepsBoth first w };

    ghost keeps_so = { λ w. both_kept_so w };

    ghost keeps_on = { λ first w last a b. both_kept_on first w last a b };

    ghost name_stands = { λ w level place words named. stand_in_both (face A.parts B.parts) w.words.view w.earlier w.later level place words named };

    #[inline(always)]
    fn bits(&self) -> u32 {
        self.bits
    }

    #[inline(always)]
    fn tops(&self) -> (u64, u64) {
        (self.earlier.number, self.later.number)
    }

    #[inline(always)]
    fn lefts(&mut self, level: u32, place: u32, nodes: &(u64, u64)) -> (u64, u64) {
        self.loaded = self.loaded.one_more();
        let earlier = left_under::<A, B, W>(&mut self.words, self.earlier, level, place, nodes.0);
        let later = left_under::<A, B, W>(&mut self.words, self.later, level, place, nodes.1);
        (earlier, later)
    }

    #[inline(always)]
    fn rights(&mut self, level: u32, place: u32, nodes: &(u64, u64)) -> (u64, u64) {
        self.loaded = self.loaded.one_more();
        let earlier = right_under::<A, B, W>(&mut self.words, self.earlier, level, place, nodes.0);
        let later = right_under::<A, B, W>(&mut self.words, self.later, level, place, nodes.1);
        (earlier, later)
    }

    #[inline(always)]
    fn same(&self, _level: u32, _place: u32, nodes: &(u64, u64)) -> bool {
        nodes.0 == nodes.1
    }

    #[inline(always)]
    fn weights(&self, place: u32, nodes: &(u64, u64)) -> (Option<u32>, Option<u32>) {
        (
            weight_by_word(place, nodes.0),
            weight_by_word(place, nodes.1),
        )
    }
}
