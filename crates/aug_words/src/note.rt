//! What a pass or a lead has seen, for another to take in.
ghost use Rattle.std.specs.Prelude.{◌≡◌, ◌+◌, ◌<◌, ℕ, IfSome};
ghost use Rattle.aug_core.specs.Faces.{face};
ghost use Rattle.aug_core.specs.Addresses.{root_place};
ghost use Rattle.aug_core.specs.Pasts.{IsLearnt};
ghost use Rattle.aug_core.specs.Effects.{LoadsNode, noted};
ghost use Rattle.aug_words.specs.Notes.{LearnsNote, MakesNote};
ghost use Rattle.aug_words.specs.Seats.{AreTogether, StaysAt};

use crate::lead::Lead;
use crate::pass::WordPass;
use crate::reader::WordReader;
use crate::words::Words;
use atomic_table::Seat;
use aug_core::{LoadAfterNote, MakeNote, SeatView, SharedWords, TakeNote};
use aug_monoid::Monoid;
use std::marker::Model;

/// A note of what a pass or a lead had seen when it made the note. It has no bytes, no lane and no lifetime, so a closure may own it, and a
/// message may have it. To make it and to take it in costs a load of the table's first word, which tells nothing.
#[derive(Drop)]
pub struct WordNote {
    pub(crate) seat: Seat<(), SeatView>,
}

impl Model for WordNote {
    ghost use Rattle.aug_words.specs.Seats.{Known};
    ghost use Rattle.aug_words.specs.inside.SeatState.{IsNoteSeat};

    ghost Value = { Known };

    ghost view = { λ n. record { table = n.seat.table_id; view = n.seat.me.0 } };

    ghost invariant = { λ n. IsNoteSeat n.seat.me };
}

impl WordNote {
    /// Makes another note that says the same.
    pub fn again<A: Monoid, B: Monoid>(&mut self, words: &Words<A, B>) -> WordNote
        requires { self.old.table ≡ words.now.table }
        ensures { MakesNote self.old self.new result }
    {
        let seat = words.table.shared.split_seat::<MakeNote>(&mut self.seat);
        WordNote { seat }
    }
}

impl<'r, A: Monoid, B: Monoid> WordPass<'r, A, B> {
    /// Makes a note of all that the pass has seen. The pass stays as it is.
    pub fn note(&mut self) -> WordNote
        ensures { MakesNote self.old self.new result }
    {
        let seat = self.words.split_seat::<MakeNote>(&mut self.seat);
        WordNote { seat }
    }

    /// Takes in a note, and loads the root's word, which names its newest record. The pass then knows all that it and the note had seen, where the
    /// note is of its era. A note of an earlier era tells of one that is over.
    pub fn learn(&mut self, note: WordNote) -> u64
        requires table { note.table ≡ self.old.table }
        ensures { StaysAt self.old self.new (LearnsNote (face A.parts B.parts) self.old.view note.view result self.new.view) }
    {
        let WordNote { seat } = note;
        self.words.join_seat::<TakeNote>(&mut self.seat, seat);
        self.load_after_note()
    }

    /// Learns what a reader had seen, as it learns a note of it, and loads the root's word. The reader stays as it is.
    pub fn follow(&mut self, reader: &mut WordReader<A, B>) -> u64
        requires table { reader.old.table ≡ self.old.table }
        ensures reader { reader.new ≡ reader.old }
        ensures learns { StaysAt self.old self.new (LearnsNote (face A.parts B.parts) self.old.view (noted reader.old.view) result self.new.view) }
    {
        let seat = self.words.split_seat::<MakeNote>(&mut reader.seat);
        self.learn(WordNote { seat })
    }

    // Loads the root after a note was taken in.
    fn load_after_note(&mut self) -> u64
        ensures table { self.new.table ≡ self.old.table }
        ensures view { LoadsNode (face A.parts B.parts) self.old.view (root_place self.old.view.shape) result self.new.view }
        ensures told { IfSome self.old.view.told (IsLearnt self.old.view.shape self.old.view.era self.old.view.past self.old.view.members) }
    {
        self.words
            .load::<LoadAfterNote<A, B>>(&mut self.seat, self.lanes - 1)
    }
}

impl<A: Monoid, B: Monoid> Lead<A, B> {
    /// Makes a note of all that the lead has seen. The lead stays as it is.
    pub fn note(&mut self, words: &Words<A, B>) -> WordNote
        requires { AreTogether words.now self.old }
        ensures { MakesNote self.old self.new result }
    {
        let seat = words.table.shared.split_seat::<MakeNote>(&mut self.seat);
        WordNote { seat }
    }

    /// Takes in a note, and loads the root. The lead then knows all that it and the note had seen, where the note is of its era. A note of an
    /// earlier era tells of one that is over.
    pub fn learn(&mut self, words: &Words<A, B>, note: WordNote)
        requires together { AreTogether words.now self.old }
        requires table { note.table ≡ self.old.table }
        ensures { StaysAt self.old self.new ((found : ℕ) × LearnsNote (face A.parts B.parts) self.old.view note.view found self.new.view) }
    {
        let WordNote { seat } = note;
        let root = self.root_word(words.lanes);
        words
            .table
            .shared
            .join_seat::<TakeNote>(&mut self.seat, seat);
        self.load_after_note(&words.table.shared, root);
    }

    // Loads the root's word after a note was taken in.
    fn load_after_note(&mut self, words: &SharedWords<A, B>, root: usize)
        requires table { self.old.table ≡ words.now.table_id }
        requires inside { root < words.now.table_id.words }
        requires root { root ≡ self.old.view.base + root_place self.old.view.shape }
        ensures table { self.new.table ≡ self.old.table }
        ensures view { (found : ℕ) × LoadsNode (face A.parts B.parts) self.old.view (root_place self.old.view.shape) found self.new.view }
        ensures told { IfSome self.old.view.told (IsLearnt self.old.view.shape self.old.view.era self.old.view.past self.old.view.members) }
    {
        let found = words.load::<LoadAfterNote<A, B>>(&mut self.seat, root);
        self.root = found;
    }
}
