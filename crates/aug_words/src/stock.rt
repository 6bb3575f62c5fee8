//! The records of a lane in a table that uses records again, and the era that its pass reserves.
ghost use Rattle.std.specs.Prelude.{◌≡◌, ◌<◌, ◌≤◌, ◌+◌, ◌-◌, ◌^◌, ◌/◌, max, nat_le, ℕ, true, false, length, slice_index, slice_set, IfOk};
ghost use Rattle.std.specs.Bool.{OnTrue, OnFalse};
ghost use Rattle.aug_core.specs.Addresses.{IsInner};
ghost use Rattle.aug_core.specs.Effects.{IsFilled, KnowsBook, own_lane};
ghost use Rattle.aug_core.specs.Faces.{face};
ghost use Rattle.aug_core.specs.Lanes.{lane_records};
ghost use Rattle.aug_core.specs.Records.{first_era};
ghost use Rattle.aug_core.specs.Reclaiming.{releasing};
ghost use Rattle.aug_words.specs.Reservations.{HasReservations, MayRetire, Retires};
ghost use Rattle.aug_words.specs.Seats.{AreTogether, Known, StaysAt, TriedNode};
ghost use Rattle.aug_words.specs.Stocks.{IsHeld, IsLate, OpensStock, ReservesAnew, Scans, Stocks, birth_in_word, later_eras, naming, number_in_word, that_era};
ghost use Rattle.aug_words.specs.inside.Stocking.{HasLoaded, Sorts};

use crate::pass::WordPass;
use crate::words::Words;
use aug_monoid::Monoid;
use std::alloc::{AllocError, Global};
use std::marker::Model;

// How many reservations a table has at most.
const MAX_RESERVATIONS: usize = 64;

// With this bit a reservation is one of its era and of all later ones.
const LATER: u64 = 1 << 63;

// The first era for which the word that names a record has no room.
const ERAS: u64 = 1 << 40;

// The number and the birth of a record, by the word that names it.
fn number_in_word(word: u64) -> u64
    ensures { result ≡ number_in_word word }
{
    word % (1 << 24)
}

fn birth_in_word(word: u64) -> u64
    ensures { result ≡ birth_in_word word }
{
    word >> 24
}

// Whether one of these reservations holds a record. 0 is none.
fn is_held(eras: &[u64], birth: u64, death: u64) -> bool
    ensures held { result ≡ true → (slot : ℕ) × (slot < length eras.now) × IsHeld (slice_index eras.now slot) birth death }
    ensures free { result ≡ false → (slot : ℕ) → slot < length eras.now → IsHeld (slice_index eras.now slot) birth death → ⊥ }
{
    for era in eras {
        if 0 < *era && birth <= *era && *era % LATER <= death {
            return true;
        }
    }
    false
}

// The first era of all that these reservations hold: none of them holds a record that was retired before it. 0 is none.
fn lowest_era(eras: &[u64]) -> u64
    ensures { (slot : ℕ) → slot < length eras.now → 0 < slice_index eras.now slot → result ≤ first_era (slice_index eras.now slot) }
{
    let mut lowest = u64::MAX;
    for era in eras {
        if 0 < *era {
            lowest = lowest.min(*era % LATER);
        }
    }
    lowest
}

/// The records of a pass's lane, in a table that uses records again. A pass takes its next record from it, gives it the one that it replaced, and gets that back
/// once no reservation holds it. So it has the same number of records at all times, and none of its calls but the first takes memory.
///
/// Interval-based reclamation: Wen, Izraelevitz, Cai, Beadle and Scott 2018.
#[derive(Drop)]
pub struct Stock {
    // The words that name the records: first those that may be written, then those that were replaced and not retired yet, and then those that wait.
    words: Vec<u64>,
    // The era in which each that waits was retired.
    deaths: Vec<u64>,
    free: usize,
    replaced: usize,
    // What is reserved: an era, or with `LATER` that and all later ones, or 0.
    era: u64,
}

impl Model for Stock {
    ghost use Rattle.aug_words.specs.Stocks.{StockFacts};
    ghost use Rattle.aug_words.specs.inside.Stocking.{IsStock};

    ghost Value = { StockFacts };

    ghost view = { λ k. record { words = k.words.items; deaths = k.deaths.items; free = k.free; replaced = k.replaced; era = k.era } };

    ghost invariant = { λ k. IsStock k.words.items k.deaths.items k.free k.replaced k.era };
}

impl Stock {
    /// The stock of a lane, for the pass to which it is handed out: that may write all records of it.
    pub fn new<A: Monoid, B: Monoid>(
        alloc: Global,
        words: &Words<A, B>,
        lane: u32,
    ) -> Result<Stock, AllocError>
        requires lane { lane < words.now.shape.workers }
        ensures stocks { IfOk result (λ k. (p : Known) → AreTogether words.now p → HasReservations p.view → KnowsBook (face A.parts B.parts) p.view → OpensStock p.view → own_lane p.view.held ≡ lane → Stocks p.view k) }
        ensures free { IfOk result (λ k. k.free ≡ lane_records words.now.shape) }
        ensures all { IfOk result (λ k. length k.words ≡ lane_records words.now.shape) }
        ensures none { IfOk result (λ k. k.replaced ≡ 0) }
        ensures released { IfOk result (λ k. k.era ≡ 0) }
    {
        let layout = &words.layout;
        let first = layout.first_record(lane);
        let count = layout.updates() as usize * layout.bits() as usize;
        let mut numbers = Vec::from_elem(alloc, 0, count)?;
        for i in 0..count {
            numbers[i] = first + i as u64;
        }
        Ok(Stock {
            words: numbers,
            deaths: Vec::from_elem(alloc, 0, count)?,
            free: count,
            replaced: 0,
            era: 0,
        })
    }

    /// How many records may be written.
    pub fn free(&self) -> usize
        ensures { result ≡ self.now.free }
    {
        self.free
    }

    /// How many records there are in all.
    pub fn size(&self) -> usize
        ensures { result ≡ length self.now.words }
    {
        self.words.len()
    }

    // What is reserved, or 0.
    pub(crate) fn era(&self) -> u64
        ensures { result ≡ self.now.era }
    {
        self.era
    }

    /// Whether the record that a node's word names was born no later than what is reserved: what is later the pass must not read, and has to reserve anew.
    pub fn covers(&self, word: u64) -> bool
        ensures { result ≡ nat_le (birth_in_word word) self.now.era }
    {
        birth_in_word(word) <= self.era
    }

    /// The era in which a record is born that names those of two nodes' words, or leaves in place of 0: the first one that is reserved, or that of the
    /// younger of these two if it is later.
    pub fn birth_over(&self, left: u64, right: u64) -> u64
        ensures value { result ≡ max (max (first_era self.now.era) (birth_in_word left)) (birth_in_word right) }
        ensures fits { result < 2 ^ 40 }
    {
        (self.era % LATER)
            .max(birth_in_word(left))
            .max(birth_in_word(right))
    }

    /// The number of the record that is published next. It is the same until it was published.
    pub fn next(&self) -> u64
        requires { 0 < self.now.free }
        ensures { result ≡ number_in_word (slice_index self.now.words (self.now.free - 1)) }
    {
        number_in_word(self.words[self.free - 1])
    }

    // The word that names it, if it is born in this era.
    fn next_word(&self, birth: u64) -> u64
        requires some { 0 < self.now.free }
        requires birth { birth < 2 ^ 40 }
        ensures { result ≡ naming birth (number_in_word (slice_index self.now.words (self.now.free - 1))) }
    {
        (birth << 24) + self.next()
    }

    /// Replaces a node's word by one that names the next record, with its birth, if the node still has the word that is given. True if it did: then the record is
    /// published, and the one that it replaced comes to the stock.
    pub fn try_node<A: Monoid, B: Monoid>(
        &mut self,
        pass: &mut WordPass<A, B>,
        node: usize,
        from: u64,
        birth: u64,
    ) -> bool
        requires inner { IsInner pass.old.view.shape node }
        requires stocks { Stocks pass.old.view self.old }
        requires some { 0 < self.old.free }
        requires birth { birth < 2 ^ 40 }
        requires filled { IsFilled (face A.parts B.parts) pass.old.view node from birth (number_in_word (slice_index self.old.words (self.old.free - 1))) }
        ensures step { StaysAt pass.old pass.new (TriedNode (face A.parts B.parts) pass.old.view node from
            (naming birth (number_in_word (slice_index self.old.words (self.old.free - 1)))) result pass.new.view) }
        ensures shape { pass.new.view.shape ≡ pass.old.view.shape }
        ensures stocks { Stocks pass.new.view self.new }
        ensures published { OnTrue result (self.new ≡ record self.old {
          words = slice_set self.old.words (self.old.free - 1) from;
          free = self.old.free - 1;
          replaced = self.old.replaced + 1;
        }) }
        ensures kept { OnFalse result (self.new ≡ self.old) }
    {
        let to = self.next_word(birth);
        if !pass.try_node(node, from, to) {
            return false;
        }
        let last = self.free - 1;
        self.words[last] = from;
        self.free = last;
        self.replaced += 1;
        true
    }

    /// Retires what was replaced, once the pass has seen the root show later records: from then on these wait until no reservation holds them. Gives the era
    /// that it loads.
    pub fn retire<A: Monoid, B: Monoid>(
        &mut self,
        pass: &mut WordPass<A, B>,
        words: &Words<A, B>,
    ) -> u64
        requires together { AreTogether words.now pass.old }
        requires slots { HasReservations pass.old.view }
        requires stocks { Stocks pass.old.view self.old }
        requires later { MayRetire pass.old.view }
        ensures step { StaysAt pass.old pass.new (Retires pass.old.view result pass.new.view) }
        ensures stocks { Stocks pass.new.view self.new }
        ensures waits { self.new ≡ record self.old { deaths = self.new.deaths; replaced = 0 } }
    {
        let era = pass.retire_replaced(words);
        for i in self.free..self.free + self.replaced {
            self.deaths[i] = era;
        }
        self.replaced = 0;
        era
    }

    /// Loads all reservations. Of the records that wait, those that none of these holds may be written.
    pub fn scan<A: Monoid, B: Monoid>(&mut self, pass: &mut WordPass<A, B>, words: &Words<A, B>)
        requires together { AreTogether words.now pass.old }
        requires slots { HasReservations pass.old.view }
        requires stocks { Stocks pass.old.view self.old }
        requires retired { self.old.replaced ≡ 0 }
        ensures table { pass.new.table ≡ pass.old.table }
        ensures scans { Scans pass.old.view self.old pass.new.view self.new }
        ensures stocks { Stocks pass.new.view self.new }
    {
        let eras = load_reservations(pass, words);
        self.sort(&eras[..words.layout.reservations() as usize]);
    }

    // Of the records that wait, puts those that no reservation of these eras holds before the others.
    fn sort(&mut self, eras: &[u64])
        requires { self.old.replaced ≡ 0 }
        ensures { Sorts eras.now self.old self.new (length self.old.words) }
    {
        let lowest = lowest_era(eras);
        for i in self.free..self.words.len() {
            if self.deaths[i] < lowest || !self.is_held(i, eras) {
                self.set_free(i);
            }
        }
    }

    // Whether one of these eras holds a record.
    fn is_held(&self, i: usize, eras: &[u64]) -> bool
        requires { i < length self.now.words }
        ensures held { result ≡ true → (slot : ℕ) × (slot < length eras.now) × IsHeld (slice_index eras.now slot) (birth_in_word (slice_index self.now.words i)) (slice_index self.now.deaths i) }
        ensures free { result ≡ false → (slot : ℕ) → slot < length eras.now → IsHeld (slice_index eras.now slot) (birth_in_word (slice_index self.now.words i)) (slice_index self.now.deaths i) → ⊥ }
    {
        is_held(eras, birth_in_word(self.words[i]), self.deaths[i])
    }

    // Puts a record that waits before the others, with those that may be written. Most often it is the first of them.
    fn set_free(&mut self, i: usize)
        requires waits { (self.old.free ≤ i) × (i < length self.old.words) }
        requires retired { self.old.replaced ≡ 0 }
        ensures { self.new ≡ record self.old {
          words = slice_set (slice_set self.old.words i (slice_index self.old.words self.old.free)) self.old.free (slice_index self.old.words i);
          deaths = slice_set (slice_set self.old.deaths i (slice_index self.old.deaths self.old.free)) self.old.free (slice_index self.old.deaths i);
          free = self.old.free + 1;
        } }
    {
        let first = self.free;
        self.free = first + 1;
        if i == first {
            return;
        }
        (self.words[i], self.words[first]) = (self.words[first], self.words[i]);
        (self.deaths[i], self.deaths[first]) = (self.deaths[first], self.deaths[i]);
    }

    /// Reserves the era that it loads. False if there is no era left: they have 40 bits.
    pub fn reserve<A: Monoid, B: Monoid>(
        &mut self,
        pass: &mut WordPass<A, B>,
        words: &Words<A, B>,
    ) -> bool
        requires together { AreTogether words.now pass.old }
        requires slots { HasReservations pass.old.view }
        requires stocks { Stocks pass.old.view self.old }
        ensures table { pass.new.table ≡ pass.old.table }
        ensures shape { pass.new.view.shape ≡ pass.old.view.shape }
        ensures stocks { Stocks pass.new.view self.new }
        ensures reserves { OnTrue result (ReservesAnew that_era 3 pass.old.view pass.new.view self.new.era) }
        ensures late { OnFalse result (IsLate pass.old.view pass.new.view) }
        ensures same { self.new ≡ record self.old { era = self.new.era } }
    {
        let found = pass.load_era(words);
        if found == 0 {
            pass.turn_era(words, 0);
        }
        let era = found.max(1);
        if era >= ERAS {
            return false;
        }
        pass.reserve_era(words, era);
        self.era = era;
        true
    }

    /// Reserves the era that it loads and all later ones: no record that the pass loads from then on is born too late, and whatever is retired then is held.
    pub fn reserve_later<A: Monoid, B: Monoid>(
        &mut self,
        pass: &mut WordPass<A, B>,
        words: &Words<A, B>,
    )
        requires together { AreTogether words.now pass.old }
        requires slots { HasReservations pass.old.view }
        requires stocks { Stocks pass.old.view self.old }
        ensures step { StaysAt pass.old pass.new (ReservesAnew later_eras 2 pass.old.view pass.new.view self.new.era) }
        ensures stocks { Stocks pass.new.view self.new }
        ensures same { self.new ≡ record self.old { era = self.new.era } }
    {
        let found = pass.load_era(words);
        let later = LATER + found.min(ERAS - 1);
        pass.reserve_era(words, later);
        self.era = later;
    }

    /// Lets go of the era that was reserved.
    pub fn release<A: Monoid, B: Monoid>(&mut self, pass: &mut WordPass<A, B>, words: &Words<A, B>)
        requires together { AreTogether words.now pass.old }
        requires slots { HasReservations pass.old.view }
        requires stocks { Stocks pass.old.view self.old }
        ensures step { StaysAt pass.old pass.new (pass.new.view ≡ releasing pass.old.view (own_lane pass.old.view.held)) }
        ensures stocks { Stocks pass.new.view self.new }
        ensures same { self.new ≡ record self.old { era = 0 } }
    {
        pass.release_era(words);
        self.era = 0;
    }
}

// What all reservations hold.
fn load_reservations<A: Monoid, B: Monoid>(
    pass: &mut WordPass<A, B>,
    words: &Words<A, B>,
) -> [u64; MAX_RESERVATIONS]
    requires together { AreTogether words.now pass.old }
    ensures table { pass.new.table ≡ pass.old.table }
    ensures long { pass.old.view.shape.reservations ≤ length result }
    ensures loads { HasLoaded pass.old.view (slice_index result) pass.old.view.shape.reservations pass.new.view }
{
    let mut eras = [0; MAX_RESERVATIONS];
    for lane in 0..words.layout.reservations() {
        eras[lane as usize] = pass.pass_reservation(words, lane);
    }
    eras
}
