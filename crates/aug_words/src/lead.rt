//! The seat that hands lanes out and takes passes back.
ghost use Rattle.std.specs.Prelude.{◌≡◌, ◌↔◌, ◌+◌, ◌^◌, ◌<◌, ◌≤◌, ℕ, [], true, IsTrue};
ghost use Rattle.aug_core.specs.Faces.{face};
ghost use Rattle.aug_core.specs.Addresses.{root_place};
ghost use Rattle.aug_core.specs.Places.{lane_place, word_count};
ghost use Rattle.aug_core.specs.Fields.{field_offset};
ghost use Rattle.aug_core.specs.Effects.{GuardsRecord, KnowsBook, taking, finishing, own_lane_place};
ghost use Rattle.aug_core.specs.Renewals.{Surveys};
ghost use Rattle.aug_core.specs.inside.LaneStates.{MayTake, HasTakenLane};
ghost use Rattle.aug_words.specs.Leads.{HandsLaneOut, MayOpen, Prepares, TakesLaneBack, TakesReader};
ghost use Rattle.aug_words.specs.Seats.{AreTogether, IsOfLead, IsNextLane, LoadsRecordWord, NamesRoot, StaysAt};

use crate::draft::Draft;
use crate::half::WordHalf;
use crate::parts::Parts;
use crate::pass::{WordPass, record_word};
use crate::reader::WordReader;
use crate::words::Words;
use atomic_table::Seat;
use aug_core::{
    FinishOwnLane, HandOut, LANE_ENDED, LANE_FREE, LANE_TAKEN, LoadAnyRecord, RecordField,
    SeatView, SharedWords, Survey, TakeBack, TakeOwnLane, TakeReader,
};
use aug_monoid::Monoid;
use std::marker::{Model, PhantomData};

/// The seat that hands out the lanes of a table, 0 first, and takes passes back.
#[derive(Drop)]
pub struct Lead<A: Monoid, B: Monoid> {
    pub(crate) seat: Seat<(), SeatView>,
    // The first word of the part of the table that it works in.
    pub(crate) base: usize,
    // The lane that is handed out next.
    pub(crate) next: u32,
    // The root's word, as the lead last loaded it or as the table opened.
    pub(crate) root: u64,
    // What is laid out of the part in which the next era begins, if the table has room for all keys.
    pub(crate) draft: Draft,
    pub(crate) parts: Parts,
    pub(crate) sums: PhantomData<(A, B)>,
}

impl<A: Monoid, B: Monoid> Model for Lead<A, B> {
    ghost use Rattle.aug_core.specs.Faces.{face};
    ghost use Rattle.aug_words.specs.Seats.{Known};
    ghost use Rattle.aug_words.specs.inside.SeatState.{IsLead};

    ghost Value = { Known };

    ghost view = { λ p. record { table = p.seat.table_id; view = p.seat.me.0 } };

    ghost invariant = { λ p. IsLead (face A.parts B.parts) p.seat.table_id p.base p.next p.root p.draft.base p.draft.shown.items p.parts p.seat.me };
}

// Takes the lane of a seat that was just split off: a compare-exchange of its word from free to taken.
fn take_lane<A: Monoid, B: Monoid>(
    words: &SharedWords<A, B>,
    seat: &mut Seat<(), SeatView>,
    place: usize,
)
    requires table { seat.old.table_id ≡ words.now.table_id }
    requires inside { place < words.now.table_id.words }
    requires live { seat.old.me.0.live ≡ true }
    requires no_slot { seat.old.me.1 ≡ [] }
    requires free { MayTake seat.old.me.0 }
    requires exists { own_lane_place seat.old.me.0 < word_count seat.old.me.0.shape }
    requires own { place ≡ seat.old.me.0.base + own_lane_place seat.old.me.0 }
    ensures table { seat.new.table_id ≡ seat.old.table_id }
    ensures no_slot { seat.new.me.1 ≡ [] }
    ensures view { seat.new.me.0 ≡ taking seat.old.me.0 (own_lane_place seat.old.me.0) }
{
    words.compare_exchange::<TakeOwnLane>(seat, place, LANE_FREE, LANE_TAKEN);
}

// Ends the lane of a seat: a store of its word as ended.
fn finish_lane<A: Monoid, B: Monoid>(
    words: &SharedWords<A, B>,
    seat: &mut Seat<(), SeatView>,
    place: usize,
)
    requires table { seat.old.table_id ≡ words.now.table_id }
    requires inside { place < words.now.table_id.words }
    requires live { seat.old.me.0.live ≡ true }
    requires no_slot { seat.old.me.1 ≡ [] }
    requires taken { HasTakenLane seat.old.me.0 }
    requires exists { own_lane_place seat.old.me.0 < word_count seat.old.me.0.shape }
    requires own { place ≡ seat.old.me.0.base + own_lane_place seat.old.me.0 }
    ensures table { seat.new.table_id ≡ seat.old.table_id }
    ensures no_slot { seat.new.me.1 ≡ [] }
    ensures view { seat.new.me.0 ≡ finishing seat.old.me.0 (own_lane_place seat.old.me.0) }
{
    words.store::<FinishOwnLane>(seat, place, LANE_ENDED);
}

impl<A: Monoid, B: Monoid> Lead<A, B> {
    /// How many lanes were handed out.
    pub fn handed(&self) -> u32
        ensures { self.now.view.spare ≡ Some result }
    {
        self.next
    }

    /// The root's word that its last load of the root found, or with which the table opened: it names the newest record that it knows.
    pub fn root(&self) -> u64
        ensures value { NamesRoot self.now.view result }
        ensures knows { KnowsBook (face A.parts B.parts) self.now.view }
    {
        self.root
    }

    // The root's word in the part that the lead works in, by that of lane 0 in each part.
    pub(crate) fn root_word(&self, lanes: usize) -> usize
        requires { lanes ≡ lane_place self.now.view.shape 0 }
        ensures value { result ≡ self.now.view.base + root_place self.now.view.shape }
        ensures inside { result < self.now.table.words }
    {
        self.base + lanes - 1
    }

    // Loads the root's word: the lead then knows all that was published, and all that a pass or a note that it took in knew.
    fn load_root(&mut self, words: &SharedWords<A, B>, root: usize) -> u64
        requires table { self.old.table ≡ words.now.table_id }
        requires inside { root < words.now.table_id.words }
        requires root { root ≡ self.old.view.base + root_place self.old.view.shape }
        ensures { StaysAt self.old self.new (Surveys (face A.parts B.parts) self.old.view (root_place self.old.view.shape) result self.new.view) }
    {
        let found = words.load::<Survey<A, B>>(&mut self.seat, root);
        self.root = found;
        found
    }

    /// Loads the root's word, which names its newest record. The lead then knows all that was published, and with that the table met the rule. So once all
    /// passes are back, it knows all that they came to, while its table is still at work.
    pub fn survey(&mut self, words: &Words<A, B>) -> u64
        requires together { AreTogether words.now self.old }
        ensures { StaysAt self.old self.new (Surveys (face A.parts B.parts) self.old.view (root_place self.old.view.shape) result self.new.view) }
    {
        let root = self.root_word(words.lanes);
        self.load_root(&words.table.shared, root)
    }

    /// Loads the root, and then brings the part of the table in which the next era begins up to what the lead has seen, from where the call before
    /// stopped: it loads the records of about so many nodes that have changed since, and stores what differs. True if nothing is left to do, or if readers
    /// are out in each other part, where nothing is stored.
    pub fn prepare(&mut self, words: &Words<A, B>, nodes: u32) -> bool
        requires together { AreTogether words.now self.old }
        requires room { 2 ^ self.old.view.shape.bits ≤ self.old.view.shape.members }
        requires keeps { self.old.view.shape.reservations ≡ 0 }
        ensures { StaysAt self.old self.new (Prepares (face A.parts B.parts) self.old.view self.new.view) }
    {
        self.survey(words);
        let size = words.layout.words() as usize;
        if !self.draft.aim(&mut self.parts, size) {
            return true;
        }
        self.draft.begin(nodes.saturating_add(words.layout.bits()));
        let done = words.bring(
            &mut self.seat,
            &mut self.draft,
            self.base + words.records,
            words.lanes - 1,
            self.root,
            0,
            words.lanes / 2 + 1,
        );
        self.draft.end();
        done
    }

    /// Whether the next era can begin: whether there is a part of the table beside the one at work in which nobody reads for whom the lead answers. No
    /// word is loaded.
    pub fn may_open(&mut self, words: &Words<A, B>) -> bool
        requires together { AreTogether words.now self.old }
        requires room { 2 ^ self.old.view.shape.bits ≤ self.old.view.shape.members }
        ensures same { self.new ≡ self.old }
        ensures value { IsTrue result ↔ MayOpen self.old }
    {
        self.draft
            .aim(&mut self.parts, words.layout.words() as usize)
    }

    /// Takes a reader back for which the lead answers: one that a pass of this or an earlier era lent, and did not take back before the lead took the
    /// pass in. Any other reader comes back, and so does each while 2^32 - 1 and more are out in its part.
    pub fn take(
        &mut self,
        words: &Words<A, B>,
        reader: WordReader<A, B>,
    ) -> Result<(), WordReader<A, B>>
        requires together { AreTogether words.now self.old }
        requires reader { reader.table ≡ self.old.table }
        ensures { TakesReader self.old self.new reader result }
    {
        // What was lent began with a part: a reader elsewhere, as of another layout, is none of these.
        let size = words.layout.words() as usize;
        let part = reader.base / size;
        if part * size != reader.base || part >= self.parts.out.len() {
            return Err(reader);
        }
        if !self.parts.take(part) {
            return Err(reader);
        }
        let WordReader { seat, .. } = reader;
        words
            .table
            .shared
            .join_seat::<TakeReader>(&mut self.seat, seat);
        Ok(())
    }

    /// Loads one of the five words of a record that the lead has seen, as a pass does.
    #[inline(always)]
    pub fn load_record_word(&mut self, words: &Words<A, B>, number: u64, field: RecordField) -> u64
        requires together { AreTogether words.now self.old }
        requires guards { GuardsRecord self.old.view number }
        ensures { StaysAt self.old self.new (LoadsRecordWord self.old.view number (field_offset field) result self.new.view) }
    {
        let place = record_word(self.base + words.records, number, field.offset());
        words
            .table
            .shared
            .load::<LoadAnyRecord>(&mut self.seat, place)
    }

    /// Makes a pass with the next lane: loads the root, splits off a seat that knows what the lead knows after that load, and
    /// takes the lane. There is no refusal.
    pub fn split<'r>(&mut self, words: &'r Words<A, B>) -> WordPass<'r, A, B>
        requires together { AreTogether words.now self.old }
        requires room { (lane : ℕ) × IsNextLane self.old.view lane }
        ensures table { self.new.table ≡ self.old.table }
        ensures pass_table { result.table ≡ self.old.table }
        ensures hands_out { HandsLaneOut (face A.parts B.parts) self.old.view self.new.view result.view }
    {
        let root = self.root_word(words.lanes);
        self.load_root(&words.table.shared, root);
        let mut seat = words.table.shared.split_seat::<HandOut>(&mut self.seat);
        let lane = self.next;
        self.next += 1;
        let place = self.base + words.lanes + lane as usize;
        take_lane(&words.table.shared, &mut seat, place);
        words.pass(WordHalf {
            seat,
            lane,
            base: self.base,
            lent: 0,
            sums: PhantomData,
        })
    }

    /// Takes a pass of this lead back: ends its lane, takes in all that it knew, and loads the root. The lead then knows a
    /// history that continues its own and the pass's. One of these two was a prefix of the other.
    pub fn join<'r>(&mut self, pass: WordPass<'r, A, B>)
        requires { IsOfLead self.old pass }
        ensures { StaysAt self.old self.new (TakesLaneBack (face A.parts B.parts) self.old.view pass.entry.view self.new.view) }
    {
        let WordPass {
            mut seat,
            words,
            lane,
            base,
            lanes,
            records: _,
            lent,
        } = pass;
        let root = self.root_word(lanes - base);
        finish_lane(words, &mut seat, lanes + lane as usize);
        words.join_seat::<TakeBack>(&mut self.seat, seat);
        self.parts.lend(lent);
        self.load_root(words, root);
    }
}
