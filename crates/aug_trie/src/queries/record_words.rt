//! Loads of single words of a snapshot's tree, by whoever has seen it. A snapshot, a level and a place are for the contracts alone: they say of which
//! node the word is.
ghost use Rattle.std.specs.Prelude.{◌≡◌, ℕ, ◌+◌, ◌*◌, ◌^◌, ◌<◌, ◌≤◌, length};
ghost use Rattle.aug_core.specs.Cuts.{set_of_cut};
ghost use Rattle.aug_core.specs.Faces.{face};
ghost use Rattle.aug_core.specs.Effects.{GuardsRecord};
ghost use Rattle.aug_core.specs.Fields.{field_offset};
ghost use Rattle.aug_words.specs.Seats.{Known, LoadsRecordWord};
ghost use Rattle.aug_model.specs.NodeKeys.{keys_below};
ghost use Rattle.aug_trie.specs.inside.NodeWords.{HoldsNodeAt};
ghost use Rattle.aug_trie.specs.inside.Goes.{Looks, ReadsBelow};
ghost use Rattle.aug_trie.specs.inside.NamedCuts.{cut_named};

use crate::queries::snapshot::Snapshot;
use crate::updates::leaf_words::leaf_serial;
use aug_core::RecordField;
use aug_monoid::Monoid;
use aug_words::{Lead, WordPass, WordReader, Words};
use std::marker::Model;

// How many numbers of records there are beside their births in the words of nodes.
pub(crate) const NUMBERS: u64 = 1 << 24;

/// Who may load words of records: a pass, or a crew or a reader that has the words of its round at hand.
pub(crate) trait RecordWords {
    // What it knows of its table.
    ghost known: { Self → Known };

    // The number of a record, by the word that names it.
    ghost number: { ℕ → ℕ };

    // One of the five words of the record that a word names: one step.
    fn load_word(&mut self, word: u64, field: RecordField) -> u64
        requires { GuardsRecord (known self.old).view (number word) }
        ensures table { (known self.new).table ≡ (known self.old).table }
        ensures view { LoadsRecordWord (known self.old).view (number word) (field_offset field) result (known self.new).view };
}

impl<A: Monoid, B: Monoid> RecordWords for WordPass<'_, A, B> {
    ghost known = { λ p. p };

    ghost number = { λ w. w };

    #[inline(always)]
    fn load_word(&mut self, word: u64, field: RecordField) -> u64 {
        self.load_record_word(word, field)
    }
}

/// The words of a round, with the lead of its crew taken out.
#[derive(Drop)]
pub(crate) struct CrewWords<'r, A: Monoid, B: Monoid> {
    pub(crate) lead: Lead<A, B>,
    pub(crate) words: &'r Words<A, B>,
}

impl<'r, A: Monoid, B: Monoid> Model for CrewWords<'r, A, B> {
    ghost use Rattle.aug_words.specs.Seats.{AreTogether, Known};

    ghost Value = { Known };

    ghost view = { λ c. c.lead };

    ghost invariant = { λ c. AreTogether c.words.now c.lead };
}

impl<A: Monoid, B: Monoid> RecordWords for CrewWords<'_, A, B> {
    ghost known = { λ c. c };

    ghost number = { λ w. w };

    #[inline(always)]
    fn load_word(&mut self, word: u64, field: RecordField) -> u64 {
        self.lead.load_record_word(self.words, word, field)
    }
}

/// The words of a round, with the seat of one of its readers taken out.
#[derive(Drop)]
pub(crate) struct ReaderWords<'r, A: Monoid, B: Monoid> {
    pub(crate) reader: WordReader<A, B>,
    pub(crate) words: &'r Words<A, B>,
}

impl<'r, A: Monoid, B: Monoid> Model for ReaderWords<'r, A, B> {
    ghost use Rattle.aug_words.specs.Seats.{AreTogether, Known};

    ghost Value = { Known };

    ghost view = { λ r. r.reader };

    ghost invariant = { λ r. AreTogether r.words.now r.reader };
}

impl<A: Monoid, B: Monoid> RecordWords for ReaderWords<'_, A, B> {
    ghost known = { λ r. r };

    ghost number = { λ w. w };

    #[inline(always)]
    fn load_word(&mut self, word: u64, field: RecordField) -> u64 {
        self.reader.load_record_word(self.words, word, field)
    }
}

/// The words of a table that lasts, by a pass that holds a snapshot.
#[derive(Drop)]
pub(crate) struct HeldWords<'r, A: Monoid, B: Monoid> {
    pub(crate) pass: WordPass<'r, A, B>,
}

impl<'r, A: Monoid, B: Monoid> Model for HeldWords<'r, A, B> {
    ghost use Rattle.aug_words.specs.Seats.{Known};

    ghost Value = { Known };

    ghost view = { λ h. h.pass };
}

impl<A: Monoid, B: Monoid> RecordWords for HeldWords<'_, A, B> {
    ghost use Rattle.aug_words.specs.Stocks.{number_in_word};

    ghost known = { λ h. h };

    ghost number = { number_in_word };

    #[inline(always)]
    fn load_word(&mut self, word: u64, field: RecordField) -> u64 {
        self.pass.load_record_word(word % NUMBERS, field)
    }
}

// The word of the left child, at this level, of the node above it at this place, by that node's word.
#[inline(always)]
pub(crate) fn left_word<A: Monoid, B: Monoid, W: RecordWords>(
    words: &mut W,
    snapshot: Snapshot,
    level: u32,
    place: u32,
    word: u64,
) -> u64
    requires knows { ReadsBelow (face A.parts B.parts) W.number (W.known words.old).view }
    requires node { HoldsNodeAt (W.known words.old).view (cut_named (W.known words.old).view.shape (W.known words.old).view.seen snapshot) (level + 1) place word }
    ensures table { (W.known words.new).table ≡ (W.known words.old).table }
    ensures looks { Looks 1 (W.known words.old).view (W.known words.new).view }
    ensures node { HoldsNodeAt (W.known words.old).view (cut_named (W.known words.old).view.shape (W.known words.old).view.seen snapshot) level (2 * place) result }
{
    let _ = (snapshot, level, place);
    words.load_word(word, RecordField::Left)
}

// The word of the right child.
#[inline(always)]
pub(crate) fn right_word<A: Monoid, B: Monoid, W: RecordWords>(
    words: &mut W,
    snapshot: Snapshot,
    level: u32,
    place: u32,
    word: u64,
) -> u64
    requires knows { ReadsBelow (face A.parts B.parts) W.number (W.known words.old).view }
    requires node { HoldsNodeAt (W.known words.old).view (cut_named (W.known words.old).view.shape (W.known words.old).view.seen snapshot) (level + 1) place word }
    ensures table { (W.known words.new).table ≡ (W.known words.old).table }
    ensures looks { Looks 1 (W.known words.old).view (W.known words.new).view }
    ensures node { HoldsNodeAt (W.known words.old).view (cut_named (W.known words.old).view.shape (W.known words.old).view.seen snapshot) level (2 * place + 1) result }
{
    let _ = (snapshot, level, place);
    words.load_word(word, RecordField::Right)
}

// How many members the node at a level and a place covers, by its word: a leaf's word says it itself.
#[inline(always)]
pub(crate) fn count_at<A: Monoid, B: Monoid, W: RecordWords>(
    words: &mut W,
    snapshot: Snapshot,
    level: u32,
    place: u32,
    word: u64,
) -> u32
    requires knows { ReadsBelow (face A.parts B.parts) W.number (W.known words.old).view }
    requires node { HoldsNodeAt (W.known words.old).view (cut_named (W.known words.old).view.shape (W.known words.old).view.seen snapshot) level place word }
    ensures table { (W.known words.new).table ≡ (W.known words.old).table }
    ensures looks { Looks 1 (W.known words.old).view (W.known words.new).view }
    ensures value { result ≡ length (keys_below (set_of_cut (cut_named (W.known words.old).view.shape (W.known words.old).view.seen snapshot)) level place) }
{
    let _ = (snapshot, place);
    if level == 0 {
        return leaf_serial(word) as u32 % 2;
    }
    words.load_word(word, RecordField::Count) as u32
}
