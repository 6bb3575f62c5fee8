//! A pass of a table that lasts.
ghost use Rattle.std.specs.Prelude.{◌≡◌, ◌+◌, ◌^◌, ◌<◌, ◌≤◌, ℕ, IfErr, IfOk, None, Some};
ghost use Rattle.aug_model.specs.Folds.{summary_of};
ghost use Rattle.aug_trie.specs.LastingTable.{IsFull, LoadsRootLast, look_steps, most_lasting_steps};
ghost use Rattle.aug_trie.specs.Node.{Reads, steps_for};
ghost use Rattle.aug_trie.specs.Pass.{GoesOn, chain_of};
ghost use Rattle.aug_trie.specs.Passes.{HasLearnt};
ghost use Rattle.aug_trie.specs.Round.{table_of};
ghost use Rattle.aug_trie.specs.Snapshot.{HasSnapshot, set_at, snapshot_cut};
ghost use Rattle.aug_trie.specs.Updates.{ComesTo, TakesSnapshot, Tells};

use crate::error::LastingError;
use crate::lasting::table::Lasting;
use crate::lasting::working::{has_room, look_at_root, release, update_held};
use crate::queries::snapshot::Snapshot;
use crate::queries::snapshot_walk::SnapshotWalk;
use crate::rounds::note::Note;
use crate::updates::request::Request;
use crate::updates::told::{Told, weight_in};
use aug_monoid::Monoid;
use aug_query::Query;
use aug_words::{Stock, WordHalf};
use std::marker::{Model, PhantomData};

/// A pass of a table that lasts. It has a lane and its records, so it makes updates without end, takes no memory, and waits for nobody.
#[derive(Drop)]
pub struct LastingPass<A: Monoid, B: Monoid> {
    // What it knows of the words. A call takes it out and puts it back.
    pub(crate) words: Option<WordHalf<A, B>>,
    pub(crate) stock: Stock,
    // How many leaves the table has, and how many bits the keys.
    pub(crate) leaves: usize,
    pub(crate) bits: u32,
    // How many records its updates have taken at most since it last loaded the reservations.
    pub(crate) since: usize,
    // The snapshot that it holds.
    pub(crate) look: Option<Snapshot>,
}

impl<A: Monoid, B: Monoid> Model for LastingPass<A, B> {
    ghost use Rattle.aug_core.specs.Faces.{face};
    ghost use Rattle.aug_trie.specs.LastingTable.{LastingFacts};
    ghost use Rattle.aug_trie.specs.inside.LastingState.{HasLastingPass, lasting_facts};
    ghost use Rattle.aug_trie.specs.inside.PassState.{known_in};

    ghost Value = { LastingFacts };

    ghost view = { λ p. lasting_facts (known_in p.words) p.stock p.look };

    ghost invariant = { λ p. HasLastingPass (face A.parts B.parts) p.words p.stock p.leaves p.bits p.look };
}

impl<A: Monoid, B: Monoid> LastingPass<A, B> {
    /// Makes an update of a key as it is asked to: the root shows it when the call returns. It tells what the key weighed before that, and what it weighs by
    /// it. It ends within `52 * bits + workers + 9` steps, whatever others do.
    ///
    /// It reserves an era meanwhile, and has let go of that when it returns. So a pass holds no record but those of a look, which has to be ended before.
    ///
    /// Refused with `Full` if those who stand still hold so many of the lane's records that too few are left: nothing was changed, and it succeeds once they
    /// go on.
    pub fn update(
        &mut self,
        table: &Lasting<A, B>,
        k: u32,
        request: Request,
    ) -> Result<Told, LastingError>
        requires together { table_of self.old.pass.round ≡ table.now }
        requires key { k < 2 ^ self.old.pass.round.bits }
        requires no_look { self.old.look ≡ None }
        ensures comes_to { IfOk result (λ told. ComesTo request k told.outcome self.old.pass.knows self.new.pass.knows) }
        ensures tells { IfOk result (λ told. Tells request k told self.old.pass.knows self.new.pass.knows) }
        ensures full { IfErr result (λ e. (e ≡ LastingError.Full) × IsFull self.old self.new) }
        ensures no_look { self.new.look ≡ None }
        ensures rests { self.new.stock.era ≡ 0 }
        ensures goes_on { (steps : ℕ) × (steps ≤ most_lasting_steps self.old.pass.round.bits self.old.pass.round.workers) × GoesOn 0 steps self.old.pass self.new.pass }
    {
        let Some(half) = self.words.take() else {
            unreachable!()
        };
        let mut words = table.words.pass(half);
        let due = self.since >= self.stock.size() / 4;
        self.since = if due {
            0
        } else {
            self.since.saturating_add(self.bits as usize)
        };
        if !has_room(&mut words, &mut self.stock, &table.words, self.bits, due) {
            self.words = Some(words.into_half());
            return Err(LastingError::Full);
        }
        let made = update_held(
            &mut words,
            &mut self.stock,
            &table.words,
            self.leaves,
            self.bits,
            k,
            request,
        );
        self.words = Some(words.into_half());
        let before = weight_in(made.found);
        let now = weight_in(made.left);
        Ok(Told {
            outcome: made.outcome,
            before,
            now,
        })
    }

    /// Takes a snapshot, by the last load of the root's word, and holds its records until it looks again or ends the look, however long that is: the updates
    /// of others go on meanwhile, as long as their records suffice. It ends within 11 steps, whatever others do.
    pub fn look(&mut self, table: &Lasting<A, B>) -> Snapshot
        requires together { table_of self.old.pass.round ≡ table.now }
        ensures looks { self.new.look ≡ Some result }
        ensures takes { TakesSnapshot self.old.pass.knows self.new.pass.knows (snapshot_cut self.new.pass result) }
        ensures known { HasSnapshot self.new.pass result }
        ensures last_step { LoadsRootLast self.old.pass result.number self.new.pass }
        ensures goes_on { (steps : ℕ) × (steps ≤ look_steps) × GoesOn 0 steps self.old.pass self.new.pass }
        ensures stock { self.new.stock ≡ record self.old.stock { era = self.new.stock.era } }
    {
        let Some(half) = self.words.take() else {
            unreachable!()
        };
        let mut words = table.words.pass(half);
        let number = look_at_root(&mut words, &mut self.stock, &table.words, self.leaves);
        self.words = Some(words.into_half());
        let snapshot = Snapshot { number };
        self.look = Some(snapshot);
        snapshot
    }

    /// Asks the snapshot that it holds, in as many steps as [`Pass::ask`](crate::Pass::ask) with the same query.
    pub fn ask<Q: Query<A, B>>(&mut self, table: &Lasting<A, B>, s: Snapshot, query: Q) -> Q::Answer
        requires together { table_of self.old.pass.round ≡ table.now }
        requires looks { self.old.look ≡ Some s }
        ensures answer { Q.Answers query (set_at self.old.pass s) result }
        ensures reads { Reads (summary_of A.parts B.parts) (steps_for (Q.most query (set_at self.old.pass s))) self.old.pass self.new.pass }
        ensures same { self.new ≡ record self.old { pass = self.new.pass } }
    {
        let Some(half) = self.words.take() else {
            unreachable!()
        };
        let mut walk = SnapshotWalk::of_held(table.words.pass(half), s, self.bits);
        let answer = query.run(&mut walk);
        self.words = Some(walk.into_pass().into_half());
        answer
    }

    /// Ends the look: it holds no record any more. One step.
    pub fn end_look(&mut self, table: &Lasting<A, B>)
        requires together { table_of self.old.pass.round ≡ table.now }
        ensures no_look { self.new.look ≡ None }
        ensures rests { self.new.stock ≡ record self.old.stock { era = 0 } }
        ensures knows { self.new.pass.knows ≡ self.old.pass.knows }
        ensures goes_on { (steps : ℕ) × (steps ≤ 1) × GoesOn 0 steps self.old.pass self.new.pass }
    {
        let Some(half) = self.words.take() else {
            unreachable!()
        };
        let mut words = table.words.pass(half);
        release(&mut words, &mut self.stock, &table.words);
        self.words = Some(words.into_half());
        self.look = None;
    }

    /// Makes a note of all that the pass knows, its own updates among it. The pass stays as it is, and makes no step.
    pub fn note(&mut self, table: &Lasting<A, B>) -> Note<A, B>
        requires together { table_of self.old.pass.round ≡ table.now }
        ensures same { self.new ≡ self.old }
        ensures note { result ≡ record { round = self.old.pass.round; past = self.old.pass.past; history = self.old.pass.knows.history } }
    {
        let Some(half) = self.words.take() else {
            unreachable!()
        };
        let mut words = table.words.pass(half);
        let made = words.note();
        self.words = Some(words.into_half());
        Note {
            words: made,
            sums: PhantomData,
        }
    }

    /// Learns a note of this table, by one load of the root's word. From then on each look shows all that the note says. A look has to be ended before.
    pub fn learn(&mut self, table: &Lasting<A, B>, note: Note<A, B>)
        requires together { table_of self.old.pass.round ≡ table.now }
        requires table { note.round.table ≡ self.old.pass.round.table }
        requires no_look { self.old.look ≡ None }
        ensures learns { HasLearnt self.old.pass.round.era (chain_of self.old.pass) self.old.pass.knows note (chain_of self.new.pass) self.new.pass.knows }
        ensures goes_on { (steps : ℕ) × (steps ≤ 1) × GoesOn 0 steps self.old.pass self.new.pass }
        ensures same { self.new ≡ record self.old { pass = self.new.pass } }
    {
        let Note {
            words: noted,
            sums: _,
        } = note;
        let Some(half) = self.words.take() else {
            unreachable!()
        };
        let mut words = table.words.pass(half);
        words.learn(noted);
        self.words = Some(words.into_half());
    }
}
