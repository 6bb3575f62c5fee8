//! A snapshot as a descent walks it, over the words of its pass, of its crew or of a reader.
ghost use Rattle.std.specs.Prelude.{◌≡◌, Some};
ghost use Rattle.aug_core.specs.Faces.{face};
ghost use Rattle.aug_words.specs.Seats.{AreTogether, NamesRoot};
ghost use Rattle.aug_words.specs.Stocks.{number_in_word};
ghost use Rattle.aug_trie.specs.inside.SnapshotWalk.{HasWalk, IsWalk};
ghost use Rattle.aug_trie.specs.inside.Goes.{KnowsRecords};

use crate::queries::nodes::summary_at;
use crate::queries::record_words::{
    CrewWords, HeldWords, ReaderWords, RecordWords, count_at, left_word, right_word,
};
use crate::queries::snapshot::Snapshot;
use crate::updates::leaf_words::leaf_weight;
use aug_model::Summary;
use aug_monoid::Monoid;
use aug_query::{Descend, Loaded};
use aug_words::{Lead, WordPass, WordReader, Words};
use std::marker::{Model, PhantomData};

/// A snapshot of a pass, a crew or a reader, while its words are taken out: what names a node is the word that its parent's record has of it. So the
/// words stay in registers, and each call loads one word, and `summary`, `past_left`, `past_right` and `child_past` three.
#[derive(Drop)]
pub(crate) struct SnapshotWalk<W: RecordWords, A: Monoid, B: Monoid> {
    words: W,
    snapshot: Snapshot,
    bits: u32,
    loaded: Loaded,
    monoids: PhantomData<(A, B)>,
}

impl<W: RecordWords, A: Monoid, B: Monoid> Model for SnapshotWalk<W, A, B> {
    ghost use Rattle.aug_core.specs.Faces.{face};
    ghost use Rattle.aug_trie.specs.inside.SnapshotWalk.{IsWalk, Walking};

    ghost Value = { Walking };

    ghost view = { λ w. record { words = W.known w.words; snapshot = w.snapshot; bits = w.bits; loaded = w.loaded } };

    ghost invariant = { λ w. IsWalk (face A.parts B.parts) W.number (W.known w.words).view w.snapshot w.bits };
}

impl<W: RecordWords, A: Monoid, B: Monoid> SnapshotWalk<W, A, B> {
    // A walk over a snapshot of who has these words.
    #[inline(always)]
    pub(crate) fn over(words: W, snapshot: Snapshot, bits: u32) -> SnapshotWalk<W, A, B>
        requires { IsWalk (face A.parts B.parts) W.number (W.known words).view snapshot bits }
        ensures words { result.words ≡ W.known words }
        ensures snapshot { result.snapshot ≡ snapshot }
    {
        SnapshotWalk {
            words,
            snapshot,
            bits,
            loaded: Loaded::nothing(),
            monoids: PhantomData,
        }
    }

    // The words again.
    #[inline(always)]
    pub(crate) fn into_words(self) -> W
        ensures { W.known result ≡ self.words }
    {
        let SnapshotWalk { words, .. } = self;
        words
    }
}

impl<'r, A: Monoid, B: Monoid> SnapshotWalk<WordPass<'r, A, B>, A, B> {
    // A walk over a snapshot of the pass whose words these are.
    #[inline(always)]
    pub(crate) fn of_pass(
        words: Option<WordPass<'r, A, B>>,
        snapshot: Snapshot,
        bits: u32,
    ) -> SnapshotWalk<WordPass<'r, A, B>, A, B>
        requires { HasWalk (face A.parts B.parts) (λ w. w) words snapshot bits }
        ensures words { words.entry ≡ Some result.words }
        ensures snapshot { result.snapshot ≡ snapshot }
    {
        let Some(words) = words else { unreachable!() };
        SnapshotWalk::over(words, snapshot, bits)
    }
}

impl<'r, A: Monoid, B: Monoid> SnapshotWalk<CrewWords<'r, A, B>, A, B> {
    // A walk over the last cut that the crew with this lead knows.
    #[inline(always)]
    pub(crate) fn of_crew(
        lead: Lead<A, B>,
        words: &'r Words<A, B>,
        bits: u32,
    ) -> SnapshotWalk<CrewWords<'r, A, B>, A, B>
        requires together { AreTogether words.now lead }
        requires bits { bits ≡ lead.view.shape.bits }
        requires knows { KnowsRecords (face A.parts B.parts) lead.view }
        ensures words { result.words ≡ lead }
        ensures newest { NamesRoot lead.view result.snapshot.number }
    {
        let number = lead.root();
        SnapshotWalk::over(CrewWords { lead, words }, Snapshot { number }, bits)
    }

    // The lead again.
    #[inline(always)]
    pub(crate) fn into_lead(self) -> Lead<A, B>
        ensures { result ≡ self.entry.words }
    {
        let CrewWords { lead, .. } = self.into_words();
        lead
    }
}

impl<'r, A: Monoid, B: Monoid> SnapshotWalk<ReaderWords<'r, A, B>, A, B> {
    // A walk over a snapshot of the reader with this seat.
    #[inline(always)]
    pub(crate) fn of_reader(
        reader: WordReader<A, B>,
        words: &'r Words<A, B>,
        snapshot: Snapshot,
        bits: u32,
    ) -> SnapshotWalk<ReaderWords<'r, A, B>, A, B>
        requires together { AreTogether words.now reader }
        requires walk { IsWalk (face A.parts B.parts) (λ w. w) reader.view snapshot bits }
        ensures words { result.words ≡ reader }
        ensures snapshot { result.snapshot ≡ snapshot }
    {
        SnapshotWalk::over(ReaderWords { reader, words }, snapshot, bits)
    }

    // The seat again.
    #[inline(always)]
    pub(crate) fn into_reader(self) -> WordReader<A, B>
        ensures { result ≡ self.entry.words }
    {
        let ReaderWords { reader, .. } = self.into_words();
        reader
    }
}

impl<'r, A: Monoid, B: Monoid> SnapshotWalk<HeldWords<'r, A, B>, A, B> {
    // A walk over a snapshot that the pass with these words holds.
    #[inline(always)]
    pub(crate) fn of_held(
        pass: WordPass<'r, A, B>,
        snapshot: Snapshot,
        bits: u32,
    ) -> SnapshotWalk<HeldWords<'r, A, B>, A, B>
        requires { IsWalk (face A.parts B.parts) number_in_word pass.view snapshot bits }
        ensures words { pass.entry ≡ result.words }
        ensures snapshot { result.snapshot ≡ snapshot }
    {
        SnapshotWalk::over(HeldWords { pass }, snapshot, bits)
    }

    // The words again.
    #[inline(always)]
    pub(crate) fn into_pass(self) -> WordPass<'r, A, B>
        ensures { result ≡ self.entry.words }
    {
        let HeldWords { pass } = self.into_words();
        pass
    }
}

impl<W: RecordWords, A: Monoid, B: Monoid> Descend<A, B> for SnapshotWalk<W, A, B> {
    type Name = u64;

    ghost use Rattle.aug_trie.specs.inside.SnapshotWalk.{set_seen, IsNamed, KeepsWords};
    ghost use Rattle.aug_trie.specs.inside.SnapshotWalkLaws.{kept_so, kept_on, stands};
    ghost use Rattle.aug_core.specs.Faces.{face};
    ghost use Rattle.aug_model.specs.Folds.{summary_of};

    ghost set_of = { λ w. set_seen w.words.view w.snapshot };

    ghost loads_of = { λ w. w.loaded };

    ghost Names = { λ w level place word. IsNamed (face A.parts B.parts) W.number w.words.view w.snapshot level place word };

    ghost KeepsRest = { λ first w. KeepsWords first.words w.words first.snapshot w.snapshot first.loaded w.loaded };

    ghost keeps_so = { λ w. kept_so w.words w.snapshot w.loaded };

    ghost keeps_on = { λ first w last a b. kept_on first.words w.words last.words first.snapshot w.snapshot last.snapshot first.loaded w.loaded last.loaded a b };

    ghost name_stands = { λ w level place word named. stands (face A.parts B.parts) W.number (summary_of A.parts B.parts) w.words.view w.snapshot level place word named };

    #[inline(always)]
    fn bits(&self) -> u32 {
        self.bits
    }

    #[inline(always)]
    fn top(&mut self) -> u64 {
        self.loaded.one_node();
        self.snapshot.number
    }

    #[inline(always)]
    fn left(&mut self, level: u32, place: u32, node: &u64) -> u64 {
        self.loaded.one_node();
        left_word::<A, B, W>(&mut self.words, self.snapshot, level, place, *node)
    }

    #[inline(always)]
    fn right(&mut self, level: u32, place: u32, node: &u64) -> u64 {
        self.loaded.one_node();
        right_word::<A, B, W>(&mut self.words, self.snapshot, level, place, *node)
    }

    #[inline(always)]
    fn past_left(&mut self, level: u32, place: u32, node: &u64) -> (u64, u32) {
        self.loaded.one_past();
        let left = left_word::<A, B, W>(&mut self.words, self.snapshot, level, place, *node);
        let passed = count_at::<A, B, W>(&mut self.words, self.snapshot, level, 2 * place, left);
        let right = right_word::<A, B, W>(&mut self.words, self.snapshot, level, place, *node);
        (right, passed)
    }

    #[inline(always)]
    fn past_right(&mut self, level: u32, place: u32, node: &u64) -> (u64, u32) {
        self.loaded.one_past();
        let right = right_word::<A, B, W>(&mut self.words, self.snapshot, level, place, *node);
        let passed = count_at::<A, B, W>(
            &mut self.words,
            self.snapshot,
            level,
            2 * place + 1,
            right,
        );
        let left = left_word::<A, B, W>(&mut self.words, self.snapshot, level, place, *node);
        (left, passed)
    }

    // All three words are loaded on either side, and the side only chooses between them.
    #[inline(always)]
    fn child_past(&mut self, level: u32, place: u32, node: &u64, right: bool) -> (u64, u32) {
        self.loaded.one_past();
        let low = left_word::<A, B, W>(&mut self.words, self.snapshot, level, place, *node);
        let passed = count_at::<A, B, W>(&mut self.words, self.snapshot, level, 2 * place, low);
        let high = right_word::<A, B, W>(&mut self.words, self.snapshot, level, place, *node);
        if right { (high, passed) } else { (low, 0) }
    }

    #[inline(always)]
    fn count(&mut self, level: u32, place: u32, node: &u64) -> u32 {
        self.loaded.one_count();
        count_at::<A, B, W>(&mut self.words, self.snapshot, level, place, *node)
    }

    #[inline(always)]
    fn summary(&mut self, level: u32, place: u32, node: &u64) -> Summary<A, B> {
        self.loaded.one_summary();
        summary_at(&mut self.words, self.snapshot, level, place, *node)
    }

    #[inline(always)]
    fn weight(&self, _place: u32, node: &u64) -> u32 {
        leaf_weight(*node)
    }
}
