//! A pass without its round, for the way into a thread.
ghost use Rattle.std.specs.Prelude.{◌≡◌, ◌+◌, ◌^◌, [], ◌∷◌, ◌++◌};
ghost use Rattle.aug_core.specs.Kinds.{load_node};
ghost use Rattle.aug_model.specs.Folds.{summary_of};
ghost use Rattle.aug_trie.specs.Node.{Keeps};
ghost use Rattle.aug_trie.specs.Pass.{GoesOn};
ghost use Rattle.aug_trie.specs.Round.{root_of, table_of};
ghost use Rattle.aug_trie.specs.Snapshot.{HasSnapshot, snapshot_cut};
ghost use Rattle.aug_trie.specs.Updates.{TakesSnapshot};

use crate::queries::snapshot::Snapshot;
use crate::rounds::account::Account;
use crate::rounds::pass::Pass;
use crate::rounds::round::Round;
use aug_monoid::Monoid;
use aug_words::WordHalf;
use std::marker::Model;

/// A pass without its round. It has no lifetime, so a closure may own it and take it into a thread. There
/// `Round::pass` makes a pass of it again.
#[derive(Drop)]
pub struct PassHalf<A: Monoid, B: Monoid> {
    pub(crate) words: WordHalf<A, B>,
    pub(crate) account: Account,
}

impl<A: Monoid, B: Monoid> Model for PassHalf<A, B> {
    ghost use Rattle.aug_core.specs.Faces.{face};
    ghost use Rattle.std.specs.Prelude.{Some};
    ghost use Rattle.aug_trie.specs.Pass.{PassFacts};
    ghost use Rattle.aug_trie.specs.inside.PassState.{pass_facts, KeepsAccount};

    ghost Value = { PassFacts };

    ghost view = { λ p. pass_facts p.words p.account.left };

    ghost invariant = { λ p. KeepsAccount (face A.parts B.parts) (Some p.words) p.account };
}

impl<A: Monoid, B: Monoid> PassHalf<A, B> {
    /// Takes a snapshot of its round, as `Pass::snapshot` does, where the half lies.
    #[inline(always)]
    pub fn snapshot(&mut self, round: &Round<A, B>) -> Snapshot
        requires { table_of self.old.round ≡ round.now }
        ensures takes { TakesSnapshot self.old.knows self.new.knows (snapshot_cut self.new result) }
        ensures known { HasSnapshot self.new result }
        ensures goes_on { GoesOn 0 1 self.old self.new }
        ensures step { self.new.steps ≡ self.old.steps ++ load_node (root_of self.old.round) result.number ∷ [] }
        ensures keeps { Keeps (summary_of A.parts B.parts) self.old self.new }
    {
        let root = 2 * self.account.leaves - 2;
        let number = self.words.load_node(&round.words, root);
        Snapshot { number }
    }

    /// How many keys there are: `2^bits`. The keys are the numbers below it.
    #[inline(always)]
    pub fn universe(&self) -> u32
        ensures { result ≡ 2 ^ self.now.round.bits }
    {
        1 << self.account.bits
    }

    /// How many updates are left.
    #[inline(always)]
    pub fn budget(&self) -> u32
        ensures { result + self.now.spent ≡ self.now.round.updates }
    {
        self.account.left
    }
}

impl<'r, A: Monoid, B: Monoid> Pass<'r, A, B> {
    /// Makes a half of the pass. The half keeps all that the pass knows.
    #[inline(always)]
    pub fn into_half(self) -> PassHalf<A, B>
        ensures { result ≡ self.entry }
    {
        let Pass { words, account } = self;
        let Some(words) = words else { unreachable!() };
        PassHalf {
            words: words.into_half(),
            account,
        }
    }
}
