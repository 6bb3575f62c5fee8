//! What one thread knows of a table, and its steps.
ghost use Rattle.std.specs.Prelude.{◌≡◌, ◌^◌, ◌<◌, ◌≤◌, ◌+◌, ◌*◌, ℕ, length};
ghost use Rattle.aug_core.specs.Places.{record_start, record_words};
ghost use Rattle.aug_core.specs.Faces.{face};
ghost use Rattle.aug_core.specs.Addresses.{IsInner};
ghost use Rattle.aug_core.specs.Fields.{field_offset};
ghost use Rattle.aug_core.specs.Effects.{HoldsOnly, MayStore, MayChange, KnowsBook, LoadsLeaf, BeginsAtLeaf, LoadsNode, storing};
ghost use Rattle.aug_core.specs.declared.view.Held.{Held};
ghost use Rattle.aug_core.specs.declared.view.LaneState.TheVariants.{Taken};
ghost use Rattle.aug_words.specs.Seats.{Known, MayLoad, LoadsRecordWord, MayAdvance, NamesOwn, StaysAt, TriedLeaf, TriedNode};

use atomic_table::Seat;
use aug_core::{
    BeginAtLeaf, LoadAnyLeaf, LoadAnyNode, LoadAnyRecord, RECORD_WORDS, RecordField, SeatView,
    SharedWords, StoreOwnRecord, TryAnyLeaf, TryAnyNode,
};
use aug_monoid::Monoid;
use std::marker::Model;

/// What one thread knows of a table, with a lane of its own. Each call is exactly one atomic step and takes no memory, but for those with notes.
#[derive(Drop)]
pub struct WordPass<'r, A: Monoid, B: Monoid> {
    pub(crate) seat: Seat<(), SeatView>,
    pub(crate) words: &'r SharedWords<A, B>,
    pub(crate) lane: u32,
    // The first word of the part of the table that it works in, the word of lane 0 there, and the first word of record 0.
    pub(crate) base: usize,
    pub(crate) lanes: usize,
    pub(crate) records: usize,
    // How many readers it lent that are out. The greatest number stands for that many and more.
    pub(crate) lent: u32,
}

impl<'r, A: Monoid, B: Monoid> Model for WordPass<'r, A, B> {
    ghost use Rattle.aug_core.specs.Faces.{face};
    ghost use Rattle.aug_words.specs.Seats.{Known};
    ghost use Rattle.aug_words.specs.inside.SeatState.{HasPassSeat};

    ghost Value = { Known };

    ghost view = { λ p. record { table = p.seat.table_id; view = p.seat.me.0 } };

    ghost invariant = { λ p. HasPassSeat (face A.parts B.parts) p.seat.table_id p.words.now.table_id p.base p.lanes p.records p.lane p.lent p.seat.me };
}

// The place of a word of a record.
#[inline(always)]
pub(crate) fn record_word(records: usize, number: u64, field: usize) -> usize
    requires { records + record_words * number + field < 2 ^ 60 }
    ensures { result ≡ records + record_words * number + field }
{
    records + RECORD_WORDS * number as usize + field
}

impl<'r, A: Monoid, B: Monoid> WordPass<'r, A, B> {
    /// The lane of the pass.
    pub fn lane(&self) -> u32
        ensures value { (held : Held) → HoldsOnly self.now.view held → held.lane ≡ result }
        ensures taken { (held : Held) → HoldsOnly self.now.view held → held.state ≡ Taken }
        ensures knows { KnowsBook (face A.parts B.parts) self.now.view }
    {
        self.lane
    }

    /// Loads a leaf's word, its serial and its weight. `leaf` is the word's place, which is the key.
    pub fn load_leaf(&mut self, leaf: usize) -> u64
        requires { leaf < 2 ^ self.old.view.shape.bits }
        ensures { StaysAt self.old self.new (LoadsLeaf (face A.parts B.parts) self.old.view leaf result self.new.view) }
    {
        self.words
            .load::<LoadAnyLeaf<A, B>>(&mut self.seat, self.base + leaf)
    }

    /// Loads a leaf's word as the first step of an update. From then on the view says in what state that update began.
    pub fn begin_at_leaf(&mut self, leaf: usize) -> u64
        requires { leaf < 2 ^ self.old.view.shape.bits }
        ensures { StaysAt self.old self.new (BeginsAtLeaf (face A.parts B.parts) self.old.view leaf result self.new.view) }
    {
        self.words
            .load::<BeginAtLeaf<A, B>>(&mut self.seat, self.base + leaf)
    }

    /// Replaces a leaf's word by a new one, if the leaf still has the word that it was known to have. True if it did: then the
    /// changes of it are accepted. The new word has the next serial, or the one after that if a member gets a new weight.
    pub fn try_leaf(&mut self, leaf: usize, old: u64, new: u64) -> bool
        requires leaf { leaf < 2 ^ self.old.view.shape.bits }
        requires advance { MayAdvance self.old.view leaf old new }
        requires change { MayChange self.old.view }
        ensures { StaysAt self.old self.new (TriedLeaf (face A.parts B.parts) self.old.view leaf old new result self.new.view) }
    {
        let place = self.base + leaf;
        let found = self
            .words
            .compare_exchange::<TryAnyLeaf<A, B>>(&mut self.seat, place, old, new);
        found == old
    }

    /// Loads a node's word, which names its newest record. `node` is the word's place, as `Layout::node` gives it.
    pub fn load_node(&mut self, node: usize) -> u64
        requires { IsInner self.old.view.shape node }
        ensures { StaysAt self.old self.new (LoadsNode (face A.parts B.parts) self.old.view node result self.new.view) }
    {
        self.words
            .load::<LoadAnyNode<A, B>>(&mut self.seat, self.base + node)
    }

    /// Replaces a node's word by one that names a record of the pass's own, if the node still has the word that is given. True if it did: then
    /// the pass's record is published. In a round the word is the record's number, and otherwise it has its birth above that.
    pub fn try_node(&mut self, node: usize, from: u64, to: u64) -> bool
        requires inner { IsInner self.old.view.shape node }
        requires own { NamesOwn (face A.parts B.parts) self.old.view node from to }
        ensures { StaysAt self.old self.new (TriedNode (face A.parts B.parts) self.old.view node from to result self.new.view) }
    {
        let place = self.base + node;
        let found = self
            .words
            .compare_exchange::<TryAnyNode<A, B>>(&mut self.seat, place, from, to);
        found == from
    }

    /// Loads one of the five words of a record.
    ///
    /// `number` is the number of the record, opening records first. A record that was published never changes.
    pub fn load_record_word(&mut self, number: u64, field: RecordField) -> u64
        requires { MayLoad self.old.view number }
        ensures { StaysAt self.old self.new (LoadsRecordWord self.old.view number (field_offset field) result self.new.view) }
    {
        let place = record_word(self.records, number, field.offset());
        self.words.load::<LoadAnyRecord>(&mut self.seat, place)
    }

    /// Stores one of the five words of a record of the own lane, which was not published.
    pub fn store_record_word(&mut self, number: u64, field: RecordField, value: u64)
        requires { MayStore self.old.view number }
        ensures { StaysAt self.old self.new (self.new.view ≡ storing self.old.view (record_start self.old.view.shape number + field_offset field) value) }
    {
        let place = record_word(self.records, number, field.offset());
        self.words
            .store::<StoreOwnRecord>(&mut self.seat, place, value);
    }
}
