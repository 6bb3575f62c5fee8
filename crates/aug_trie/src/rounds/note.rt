//! What a pass or a crew knows, for another to learn.
ghost use Rattle.std.specs.Prelude.{◌≡◌, [], ◌∷◌, ◌++◌};
ghost use Rattle.aug_core.specs.Kinds.{load_node};
ghost use Rattle.aug_model.specs.Folds.{summary_of};
ghost use Rattle.aug_trie.specs.Crew.{CrewLearns};
ghost use Rattle.aug_trie.specs.Node.{Keeps};
ghost use Rattle.aug_trie.specs.Pass.{GoesOn, chain_of};
ghost use Rattle.aug_trie.specs.Passes.{HasLearnt};
ghost use Rattle.aug_trie.specs.Round.{root_of, table_of};
ghost use Rattle.aug_trie.specs.Snapshot.{HasSnapshot, snapshot_cut};
ghost use Rattle.aug_trie.specs.Updates.{TakesSnapshot};

use crate::queries::snapshot::Snapshot;
use crate::rounds::crew::Crew;
use crate::rounds::pass::Pass;
use crate::rounds::round::Round;
use aug_monoid::Monoid;
use aug_words::WordNote;
use std::marker::{Model, PhantomData};

/// A note of what a pass or a crew knew when it made the note. It goes with a message to another thread: from the moment at which a pass
/// there has learnt it, each snapshot of that pass shows all that the note says.
///
/// It has no bytes, no lane and no lifetime, so a closure may own it. A note that nobody learns does no harm, nor does one whose pass came back
/// or was dropped. It can be learnt in each later round of its table, where it tells of a round that is over.
#[derive(Drop)]
pub struct Note<A: Monoid, B: Monoid> {
    pub(crate) words: WordNote,
    pub(crate) sums: PhantomData<(A, B)>,
}

impl<A: Monoid, B: Monoid> Model for Note<A, B> {
    ghost use Rattle.aug_core.specs.Faces.{face};
    ghost use Rattle.aug_core.specs.Effects.{KnowsBook};
    ghost use Rattle.aug_trie.specs.Note.{NoteFacts};
    ghost use Rattle.aug_trie.specs.inside.NoteState.{note_facts};

    ghost Value = { NoteFacts };

    ghost view = { λ n. note_facts n.words };

    ghost invariant = { λ n. KnowsBook (face A.parts B.parts) n.words.view };
}

impl<A: Monoid, B: Monoid> Note<A, B> {
    /// Makes another note that says the same, for one more pass.
    pub fn again(&mut self, round: &Round<A, B>) -> Note<A, B>
        requires { self.old.round.table ≡ round.now.table }
        ensures same { self.new ≡ self.old }
        ensures note { result ≡ self.old }
    {
        Note {
            words: self.words.again(&round.words),
            sums: PhantomData,
        }
    }
}

impl<'r, A: Monoid, B: Monoid> Pass<'r, A, B> {
    /// Makes a note of all that the pass knows, its own updates among it. The pass stays as it is, and makes no step.
    pub fn note(&mut self) -> Note<A, B>
        ensures same { self.new ≡ self.old }
        ensures note { result ≡ record { round = self.old.round; past = self.old.past; history = self.old.knows.history } }
    {
        let Some(mut words) = self.words.take() else {
            unreachable!()
        };
        let made = words.note();
        self.words = Some(words);
        Note {
            words: made,
            sums: PhantomData,
        }
    }

    /// Learns a note of this table, and takes a snapshot, by one load of the root's word. The snapshot shows every change that the pass knew or
    /// that a note of this round says, and so do all later ones; a note of an earlier round tells of one from whose set this round's comes.
    pub fn learn(&mut self, note: Note<A, B>) -> Snapshot
        requires table { note.round.table ≡ self.old.round.table }
        ensures learns { HasLearnt self.old.round.era (chain_of self.old) self.old.knows note (chain_of self.new) self.new.knows }
        ensures takes { TakesSnapshot self.old.knows self.new.knows (snapshot_cut self.new result) }
        ensures known { HasSnapshot self.new result }
        ensures goes_on { GoesOn 0 1 self.old self.new }
        ensures step { self.new.steps ≡ self.old.steps ++ load_node (root_of self.old.round) result.number ∷ [] }
        ensures keeps { Keeps (summary_of A.parts B.parts) self.old self.new }
    {
        let Note {
            words: noted,
            sums: _,
        } = note;
        let Some(mut words) = self.words.take() else {
            unreachable!()
        };
        let number = words.learn(noted);
        self.words = Some(words);
        Snapshot { number }
    }
}

impl<A: Monoid, B: Monoid> Crew<A, B> {
    /// Makes a note of all that the crew knows, the updates of the passes that came back among it.
    pub fn note(&mut self, round: &Round<A, B>) -> Note<A, B>
        requires together { table_of self.old.round ≡ round.now }
        ensures same { self.new ≡ self.old }
        ensures note { result ≡ record { round = self.old.round; past = self.old.past; history = self.old.knows.history } }
    {
        let Some(lead) = &mut self.lead else {
            unreachable!()
        };
        Note {
            words: lead.note(&round.words),
            sums: PhantomData,
        }
    }

    /// Learns a note of this table, and loads the root's word. Each pass that is handed out after that knows what the note says, and so does the
    /// trie at the round's end, also if the pass that made the note does not come back.
    pub fn learn(&mut self, round: &Round<A, B>, note: Note<A, B>)
        requires together { table_of self.old.round ≡ round.now }
        requires table { note.round.table ≡ self.old.round.table }
        ensures { CrewLearns self.old self.new note }
    {
        let Note {
            words: noted,
            sums: _,
        } = note;
        let Some(lead) = &mut self.lead else {
            unreachable!()
        };
        lead.learn(&round.words, noted);
    }
}
