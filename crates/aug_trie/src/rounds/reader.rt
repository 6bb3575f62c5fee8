//! Readers of a round, which its passes lend.
ghost use Rattle.std.specs.Prelude.{◌≡◌, [], ◌∷◌, ◌++◌, take, IfErr};
ghost use Rattle.aug_core.specs.Kinds.{load_node};
ghost use Rattle.aug_model.specs.Differences.{changes_from};
ghost use Rattle.aug_model.specs.Folds.{summary_of};
ghost use Rattle.aug_trie.specs.Chains.{IsPart};
ghost use Rattle.aug_trie.specs.Comparing.{compare_steps};
ghost use Rattle.aug_trie.specs.Node.{Keeps, Reads, steps_for};
ghost use Rattle.aug_trie.specs.Pass.{GoesOn, chain_of};
ghost use Rattle.aug_trie.specs.Reader.{Lends, TakesUp};
ghost use Rattle.aug_trie.specs.Round.{root_of, table_of};
ghost use Rattle.aug_trie.specs.Snapshot.{HasSnapshot, set_at, snapshot_cut};
ghost use Rattle.aug_trie.specs.Updates.{TakesSnapshot};

use crate::queries::both_walk::BothWalk;
use crate::queries::record_words::ReaderWords;
use crate::queries::snapshot::Snapshot;
use crate::queries::snapshot_walk::SnapshotWalk;
use crate::rounds::pass::Pass;
use crate::rounds::round::Round;
use aug_monoid::Monoid;
use aug_query::Query;
use aug_query::descent::{Changes, next_changes};
use aug_words::WordReader;
use std::marker::Model;

/// A reader of a round: it asks the snapshots that its pass had taken, for as long as it lives, also once its round is over and the next ones are at work. It
/// holds no lane, so it holds up no roll-over until no part of the table is left for the next round. It names no lifetime, so a closure may own it and take it
/// into a thread. One that is dropped is never taken back.
#[derive(Drop)]
pub struct Reader<A: Monoid, B: Monoid> {
    // What it knows of the words. A query takes it out and puts it back.
    pub(crate) words: Option<WordReader<A, B>>,
    pub(crate) bits: u32,
}

impl<A: Monoid, B: Monoid> Model for Reader<A, B> {
    ghost use Rattle.aug_core.specs.Faces.{face};
    ghost use Rattle.aug_trie.specs.Pass.{PassFacts};
    ghost use Rattle.aug_trie.specs.inside.PassState.{pass_facts, known_in};
    ghost use Rattle.aug_trie.specs.inside.ReaderState.{HoldsReader};

    ghost Value = { PassFacts };

    ghost view = { λ r. pass_facts (known_in r.words) 0 };

    ghost invariant = { λ r. HoldsReader (face A.parts B.parts) r.words r.bits };
}

impl<A: Monoid, B: Monoid> Reader<A, B> {
    /// Asks a snapshot, in as many steps as [`Pass::ask`] with the same query.
    #[inline(always)]
    pub fn ask<Q: Query<A, B>>(&mut self, round: &Round<A, B>, s: Snapshot, query: Q) -> Q::Answer
        requires together { table_of self.old.round ≡ round.now }
        requires snapshot { HasSnapshot self.old s }
        ensures answer { Q.Answers query (set_at self.old s) result }
        ensures reads { Reads (summary_of A.parts B.parts) (steps_for (Q.most query (set_at self.old s))) self.old self.new }
    {
        let Some(words) = self.words.take() else {
            unreachable!()
        };
        let mut walk = SnapshotWalk::of_reader(words, &round.words, s, self.bits);
        let answer = query.run(&mut walk);
        self.words = Some(walk.into_reader());
        answer
    }

    /// What changed between two snapshots, in pages, as [`Pass::changes`] tells it, and in as many steps.
    pub fn changes(
        &mut self,
        round: &Round<A, B>,
        earlier: Snapshot,
        later: Snapshot,
        from: u32,
    ) -> Changes
        requires together { table_of self.old.round ≡ round.now }
        requires earlier { HasSnapshot self.old earlier }
        requires later { HasSnapshot self.old later }
        ensures answer { result.items ≡ take 32 (changes_from (set_at self.old earlier) (set_at self.old later) from) }
        ensures reads { Reads (summary_of A.parts B.parts) (compare_steps self.old earlier later from) self.old self.new }
        ensures none { earlier ≡ later → self.new.steps ≡ self.old.steps }
    {
        let Some(reader) = self.words.take() else {
            unreachable!()
        };
        let words = ReaderWords {
            reader,
            words: &round.words,
        };
        let mut walk: BothWalk<_, A, B> = BothWalk::over(words, earlier, later, self.bits);
        let page = next_changes(&mut walk, from);
        let ReaderWords { reader, .. } = walk.into_words();
        self.words = Some(reader);
        page
    }
}

impl<'r, A: Monoid, B: Monoid> Pass<'r, A, B> {
    /// Lends a reader, which knows what the pass knows and has made no step. As many may be out as the caller likes.
    pub fn lend(&mut self) -> Reader<A, B>
        ensures same { self.new ≡ self.old }
        ensures lends { Lends self.old result }
    {
        let Some(words) = &mut self.words else {
            unreachable!()
        };
        Reader {
            words: Some(words.lend()),
            bits: self.account.bits,
        }
    }

    /// Takes a reader back that it lent. Any other comes back, and so does each while 2^32 - 1 and more are out.
    pub fn take_reader(&mut self, reader: Reader<A, B>) -> Result<(), Reader<A, B>>
        requires table { reader.round.table ≡ self.old.round.table }
        ensures pass { self.new ≡ self.old }
        ensures same { IfErr result (λ r. r ≡ reader) }
    {
        let Reader { words, bits } = reader;
        let Some(reader) = words else { unreachable!() };
        let Some(words) = &mut self.words else {
            unreachable!()
        };
        match words.take(reader) {
            Ok(()) => Ok(()),
            Err(reader) => Err(Reader {
                words: Some(reader),
                bits,
            }),
        }
    }

    /// Learns what a reader of this table knows, as it learns a note, and takes a snapshot, by one load of the root's word. The reader stays as it is. The
    /// pass of a reader's round has the reader's snapshots from then on, and so has each reader that it lends.
    pub fn follow(&mut self, reader: &mut Reader<A, B>) -> Snapshot
        requires table { reader.old.round.table ≡ self.old.round.table }
        ensures reader { reader.new ≡ reader.old }
        ensures takes_up { TakesUp reader.old self.new }
        ensures learns { IsPart (chain_of reader.old) (chain_of self.new) }
        ensures takes { TakesSnapshot self.old.knows self.new.knows (snapshot_cut self.new result) }
        ensures known { HasSnapshot self.new result }
        ensures goes_on { GoesOn 0 1 self.old self.new }
        ensures step { self.new.steps ≡ self.old.steps ++ load_node (root_of self.old.round) result.number ∷ [] }
        ensures keeps { Keeps (summary_of A.parts B.parts) self.old self.new }
    {
        let Some(followed) = &mut reader.words else {
            unreachable!()
        };
        let Some(words) = &mut self.words else {
            unreachable!()
        };
        let number = words.follow(followed);
        Snapshot { number }
    }
}
