//! The part of a table beside the one at work is laid out for the next opening by what its lead has seen: the words of leaves and nodes, and the
//! opening records of the nodes, each of which has its own.
ghost use Rattle.std.specs.Prelude.{◌≡◌, ℕ, ◌+◌, ◌-◌, ◌*◌, ◌^◌, ◌<◌, ◌≤◌, ◌∷◌, [], true, None, length, slice_index};
ghost use Rattle.aug_core.specs.Addresses.{IsInner, level_of, place_count, place_on};
ghost use Rattle.aug_core.specs.Effects.{GuardsRecord, Says};
ghost use Rattle.aug_core.specs.Faces.{face};
ghost use Rattle.aug_core.specs.Opening.{shared_words};
ghost use Rattle.aug_core.specs.Places.{record_start, record_words, word_count};
ghost use Rattle.aug_words.specs.inside.Builds.{WritesFive};
ghost use Rattle.aug_core.specs.inside.OwnNumbers.{own_number};
ghost use Rattle.aug_words.specs.inside.Laying.{Brings, ChangesPart, FreesLanes, IsLaidAs, NamesEntry, LaysNode, MayBring, MayLay, PutsWord, SharesRecords, ShownBelow, StepsBeside, next_record, next_word, renewed_word, words_in};

use crate::building::SERIAL;
use crate::draft::Draft;
use crate::pass::record_word;
use crate::words::Words;
use atomic_table::Seat;
use aug_core::{LANE_FREE, LoadAnyRecord, LoadAnyWord, RECORD_WORDS, SeatView, StoreAnyWord};
use aug_monoid::Monoid;

// The word with which a leaf opens, by one that names an entry of it.
fn renewed_word(word: u64) -> u64
    ensures { result ≡ renewed_word word }
{
    if word / SERIAL % 2 == 1 {
        SERIAL + word % SERIAL
    } else {
        0
    }
}

impl<A: Monoid, B: Monoid> Words<A, B> {
    // Gives a word of the part that begins at this one a value. It is stored only if the word has another.
    fn put_word(&self, seat: &mut Seat<(), SeatView>, base: usize, place: usize, value: u64)
        requires may { MayLay seat.old.table_id self.now.table base self.now.shape seat.old.me }
        requires place { place < word_count self.now.shape }
        ensures may { MayLay seat.new.table_id self.now.table base self.now.shape seat.new.me }
        ensures puts { PutsWord base self.now.shape place value seat.old.me.0 seat.new.me.0 }
    {
        let at = base + place;
        if self.table.shared.load::<LoadAnyWord>(seat, at) != value {
            self.table.shared.store::<StoreAnyWord>(seat, at, value);
        }
    }

    // Gives the five words of a record these values.
    fn put_five(
        &self,
        seat: &mut Seat<(), SeatView>,
        base: usize,
        start: usize,
        five: [u64; RECORD_WORDS],
    )
        requires may { MayLay seat.old.table_id self.now.table base self.now.shape seat.old.me }
        requires inside { start + record_words ≤ word_count self.now.shape }
        ensures may { MayLay seat.new.table_id self.now.table base self.now.shape seat.new.me }
        ensures changes { ChangesPart base self.now.shape seat.old.me.0 seat.new.me.0 }
        ensures writes { WritesFive (words_in base self.now.shape seat.old.me.0) (words_in base self.now.shape seat.new.me.0) start five }
    {
        self.put_word(seat, base, start, five[0]);
        self.put_word(seat, base, start + 1, five[1]);
        self.put_word(seat, base, start + 2, five[2]);
        self.put_word(seat, base, start + 3, five[3]);
        self.put_word(seat, base, start + 4, five[4]);
    }

    // The number of a node's own record.
    pub(crate) fn own_number(&self, node: usize) -> u64
        requires node { IsInner self.now.shape node }
        ensures { result ≡ own_number self.now.shape node }
    {
        let leaves = self.lanes / 2 + 1;
        u64::from(self.layout.bits()) + (node - leaves) as u64
    }

    // Where that begins.
    fn own_place(&self, node: usize) -> usize
        requires room { 2 ^ self.now.shape.bits ≤ self.now.shape.members }
        requires node { IsInner self.now.shape node }
        ensures at { result ≡ record_start self.now.shape (own_number self.now.shape node) }
        ensures inside { result + record_words ≤ word_count self.now.shape }
    {
        self.records + RECORD_WORDS * self.own_number(node) as usize
    }

    // The word with which a leaf or a node opens there, by one that names an entry of it.
    fn next_word(&self, node: usize, word: u64) -> u64
        requires node { node < place_count self.now.shape }
        ensures { result ≡ next_word self.now.shape node word }
    {
        if node < self.lanes / 2 + 1 {
            renewed_word(word)
        } else {
            self.own_number(node)
        }
    }

    // Loads a word of a record that the lead has seen.
    fn load_field(
        &self,
        seat: &mut Seat<(), SeatView>,
        base: usize,
        records: usize,
        number: u64,
        field: usize,
    ) -> u64
        requires may { MayBring (face A.parts B.parts) seat.old.table_id self.now.table records base self.now.shape seat.old.me }
        requires guards { GuardsRecord seat.old.me.0 number }
        requires field { field < record_words }
        ensures may { MayBring (face A.parts B.parts) seat.new.table_id self.now.table records base self.now.shape seat.new.me }
        ensures view { StepsBeside base self.now.shape seat.old.me.0 seat.new.me.0 }
        ensures same { seat.new.me.0.whole ≡ seat.old.me.0.whole }
        ensures says { Says seat.old.me.0 number field result }
    {
        let place = record_word(records, number, field);
        self.table.shared.load::<LoadAnyRecord>(seat, place)
    }

    // Loads a word of that part whose value is not needed yet, so that it comes while others do: each exchange waits for all loads before it.
    fn fetch(&self, seat: &mut Seat<(), SeatView>, base: usize, records: usize, place: usize)
        requires may { MayBring (face A.parts B.parts) seat.old.table_id self.now.table records base self.now.shape seat.old.me }
        requires place { place < word_count self.now.shape }
        ensures may { MayBring (face A.parts B.parts) seat.new.table_id self.now.table records base self.now.shape seat.new.me }
        ensures view { StepsBeside base self.now.shape seat.old.me.0 seat.new.me.0 }
        ensures same { seat.new.me.0.whole ≡ seat.old.me.0.whole }
    {
        self.table.shared.load::<LoadAnyWord>(seat, base + place);
    }

    // Loads the five words of such a record, as which this node is to be laid out. What else that takes comes meanwhile: both ends of the node's own
    // record, and its word.
    fn load_record(
        &self,
        seat: &mut Seat<(), SeatView>,
        base: usize,
        records: usize,
        number: u64,
        node: usize,
    ) -> [u64; RECORD_WORDS]
        requires may { MayBring (face A.parts B.parts) seat.old.table_id self.now.table records base self.now.shape seat.old.me }
        requires guards { GuardsRecord seat.old.me.0 number }
        requires node { IsInner self.now.shape node }
        ensures may { MayBring (face A.parts B.parts) seat.new.table_id self.now.table records base self.now.shape seat.new.me }
        ensures view { StepsBeside base self.now.shape seat.old.me.0 seat.new.me.0 }
        ensures same { seat.new.me.0.whole ≡ seat.old.me.0.whole }
        ensures says { (field : ℕ) → field < record_words → Says seat.old.me.0 number field (slice_index result field) }
    {
        let own = self.own_place(node);
        self.fetch(seat, base, records, own);
        self.fetch(seat, base, records, own + RECORD_WORDS - 1);
        self.fetch(seat, base, records, node);
        let left = self.load_field(seat, base, records, number, 0);
        let right = self.load_field(seat, base, records, number, 1);
        let count = self.load_field(seat, base, records, number, 2);
        let a = self.load_field(seat, base, records, number, 3);
        let b = self.load_field(seat, base, records, number, 4);
        [left, right, count, a, b]
    }

    // Fills a node's own record by the one as which it is laid out, and sets its word.
    fn lay_node(
        &self,
        seat: &mut Seat<(), SeatView>,
        base: usize,
        node: usize,
        five: [u64; RECORD_WORDS],
    )
        requires may { MayLay seat.old.table_id self.now.table base self.now.shape seat.old.me }
        requires room { 2 ^ self.now.shape.bits ≤ self.now.shape.members }
        requires node { IsInner self.now.shape node }
        ensures may { MayLay seat.new.table_id self.now.table base self.now.shape seat.new.me }
        ensures changes { ChangesPart base self.now.shape seat.old.me.0 seat.new.me.0 }
        ensures lays { LaysNode self.now.shape node (next_record self.now.shape node five) (words_in base self.now.shape seat.old.me.0) (words_in base self.now.shape seat.new.me.0) }
    {
        let child = 2 * (node - (self.lanes / 2 + 1));
        let next = [
            self.next_word(child, five[0]),
            self.next_word(child + 1, five[1]),
            five[2],
            five[3],
            five[4],
        ];
        self.put_five(seat, base, self.own_place(node), next);
        self.put_word(seat, base, node, self.own_number(node));
    }

    /// Lays out a leaf or a node with all that is below it as the entry that this word names, as far as it is not laid out so, and as far as this piece
    /// goes. So many keys are below it, from `first` on. True if all of it is laid out so.
    pub(crate) fn bring(
        &self,
        seat: &mut Seat<(), SeatView>,
        draft: &mut Draft,
        records: usize,
        node: usize,
        word: u64,
        first: usize,
        width: usize,
    ) -> bool
        requires may { MayBring (face A.parts B.parts) seat.old.table_id self.now.table records draft.old.base self.now.shape seat.old.me }
        requires node { node < place_count self.now.shape }
        requires named { NamesEntry seat.old.me.0.seen node word }
        requires noted { length draft.old.shown.items ≡ 2 ^ self.now.shape.bits }
        requires below { ShownBelow (face A.parts B.parts) self.now.shape seat.old.me.0.seen (words_in draft.old.base self.now.shape seat.old.me.0) draft.old.shown.items (level_of self.now.shape node) (place_on self.now.shape node) }
        ensures may { MayBring (face A.parts B.parts) seat.new.table_id self.now.table records draft.old.base self.now.shape seat.new.me }
        ensures base { draft.new.base ≡ draft.old.base }
        ensures view { StepsBeside draft.old.base self.now.shape seat.old.me.0 seat.new.me.0 }
        ensures brings { Brings (face A.parts B.parts) self.now.shape seat.old.me.0.seen (level_of self.now.shape node) (place_on self.now.shape node) (words_in draft.old.base self.now.shape seat.old.me.0) (words_in draft.old.base self.now.shape seat.new.me.0) draft.old.shown.items draft.new.shown.items }
        ensures done { result ≡ true → IsLaidAs (face A.parts B.parts) self.now.shape seat.old.me.0.seen node word (words_in draft.old.base self.now.shape seat.new.me.0) }
        ensures all { draft.old.left ≡ None → (result ≡ true) × (draft.new.left ≡ None) }
    {
        let leaves = self.lanes / 2 + 1;
        if node < leaves {
            self.put_word(seat, draft.base, node, renewed_word(word));
            return true;
        }
        let slot = node - leaves;
        if draft.shown[slot] == word + 1 {
            return true;
        }
        if draft.passes(first, width) {
            return false;
        }
        draft.shown[slot] = 0;
        let five = self.load_record(seat, draft.base, records, word, node);
        let (child, half) = (2 * slot, width / 2);
        let left = self.bring(seat, draft, records, child, five[0], first, half);
        let middle = first.wrapping_add(half);
        let right = self.bring(seat, draft, records, child + 1, five[1], middle, half);
        if left && right {
            self.lay_node(seat, draft.base, node, five);
            draft.shown[slot] = word + 1;
            true
        } else {
            false
        }
    }

    /// Fills the records that the nodes of a level share in other tables.
    pub(crate) fn lay_shared(&self, seat: &mut Seat<(), SeatView>, base: usize)
        requires may { MayLay seat.old.table_id self.now.table base self.now.shape seat.old.me }
        ensures may { MayLay seat.new.table_id self.now.table base self.now.shape seat.new.me }
        ensures changes { ChangesPart base self.now.shape seat.old.me.0 seat.new.me.0 }
        ensures shares { SharesRecords (face A.parts B.parts) self.now.shape self.now.shape.bits (words_in base self.now.shape seat.old.me.0) (words_in base self.now.shape seat.new.me.0) }
    {
        for level in 0..self.layout.bits() as usize {
            let below = level.saturating_sub(1) as u64;
            let five = [below, below, 0, A::unit().to_word(), B::unit().to_word()];
            self.put_five(seat, base, self.records + RECORD_WORDS * level, five);
        }
    }

    /// Frees all lanes of that part.
    pub(crate) fn free_lanes(&self, seat: &mut Seat<(), SeatView>, base: usize)
        requires may { MayLay seat.old.table_id self.now.table base self.now.shape seat.old.me }
        ensures may { MayLay seat.new.table_id self.now.table base self.now.shape seat.new.me }
        ensures changes { ChangesPart base self.now.shape seat.old.me.0 seat.new.me.0 }
        ensures frees { FreesLanes self.now.shape self.now.shape.workers (words_in base self.now.shape seat.old.me.0) (words_in base self.now.shape seat.new.me.0) }
    {
        for lane in 0..self.layout.workers() as usize {
            self.put_word(seat, base, self.lanes + lane, LANE_FREE);
        }
    }
}
