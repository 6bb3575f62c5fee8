//! A pass of a round: it updates the set and looks at it.
ghost use Rattle.std.specs.Prelude.{if◌then◌else◌, ◌≡◌, ℕ, ◌+◌, ◌*◌, ◌^◌, ◌<◌, ◌≤◌, [], ◌∷◌, ◌++◌};
ghost use Rattle.std.specs.Bool.{OnTrue, OnFalse};
ghost use Rattle.aug_trie.specs.Knowledge.{IsKnowledge, insertion, removal, inserts_of, removals_of};
ghost use Rattle.aug_trie.specs.Updates.{AcceptedUpdate, RefusedUpdate, UsedUp, ComesTo, TakesSnapshot, Tells};
ghost use Rattle.aug_model.specs.Folds.{summary_of};
ghost use Rattle.aug_trie.specs.Node.{Keeps};
ghost use Rattle.aug_core.specs.Kinds.{load_node};
ghost use Rattle.aug_trie.specs.Round.{root_of};
ghost use Rattle.aug_trie.specs.Pass.{GoesOn, StepsOf};
ghost use Rattle.aug_trie.specs.Snapshot.{HasSnapshot, snapshot_cut};

use crate::queries::snapshot::Snapshot;
use crate::rounds::account::Account;
use crate::updates::batch::amount_in;
use crate::updates::request::Request;
use crate::updates::told::{Told, weight_in};
use crate::updates::update::update;
use aug_model::Outcome;
use aug_monoid::Monoid;
use aug_words::WordPass;
use std::marker::Model;

/// A pass of a round, with a lane of its own. It may go to another thread. None of its calls waits or takes memory, except that a query which lists all
/// members takes it from the allocator that it brings.
#[derive(Drop)]
pub struct Pass<'r, A: Monoid, B: Monoid> {
    // What it knows of the words. An update takes it out and puts it back, so that its steps can keep it in registers.
    pub(crate) words: Option<WordPass<'r, A, B>>,
    pub(crate) account: Account,
}

impl<'r, A: Monoid, B: Monoid> Model for Pass<'r, A, B> {
    ghost use Rattle.aug_core.specs.Faces.{face};
    ghost use Rattle.aug_trie.specs.Pass.{PassFacts};
    ghost use Rattle.aug_trie.specs.inside.PassState.{pass_facts, known_in, KeepsAccount};

    ghost Value = { PassFacts };

    ghost view = { λ p. pass_facts (known_in p.words) p.account.left };

    ghost invariant = { λ p. KeepsAccount (face A.parts B.parts) p.words p.account };
}

impl<'r, A: Monoid, B: Monoid> Pass<'r, A, B> {
    /// Puts a key in, with the key itself as its weight. True if this call put it in. False if it was a member already,
    /// or somebody else put it in meanwhile; then its weight stays.
    #[inline(never)]
    pub fn insert(&mut self, k: u32) -> bool
        requires key { k < 2 ^ self.old.round.bits }
        requires budget { self.old.spent < self.old.round.updates }
        ensures accepted { OnTrue result (AcceptedUpdate insertion k k self.old.knows self.new.knows) }
        ensures refused { OnFalse result (RefusedUpdate insertion k self.old.knows self.new.knows) }
        ensures goes_on { (steps : ℕ) × GoesOn 1 steps self.old self.new }
        ensures keeps { Keeps (summary_of A.parts B.parts) self.old self.new }
        ensures steps { StepsOf Request.Insert k (if result then Outcome.Accepted else Outcome.Refused) self.old self.new }
    {
        matches!(self.update(k, Request::Insert).outcome, Outcome::Accepted)
    }

    /// Takes a key out. True if this call took it out. False if it was no member, or somebody else took it out meanwhile.
    #[inline(never)]
    pub fn remove(&mut self, k: u32) -> bool
        requires key { k < 2 ^ self.old.round.bits }
        requires budget { self.old.spent < self.old.round.updates }
        ensures accepted { OnTrue result (AcceptedUpdate removal k 0 self.old.knows self.new.knows) }
        ensures refused { OnFalse result (RefusedUpdate removal k self.old.knows self.new.knows) }
        ensures goes_on { (steps : ℕ) × GoesOn 1 steps self.old self.new }
        ensures keeps { Keeps (summary_of A.parts B.parts) self.old self.new }
        ensures steps { StepsOf Request.Remove k (if result then Outcome.Accepted else Outcome.Refused) self.old self.new }
    {
        matches!(self.update(k, Request::Remove).outcome, Outcome::Accepted)
    }

    /// Puts a key in with a weight, or gives a member this weight, also if it has it already.
    ///
    /// `Accepted` if this call put the key in. `Replaced` if the key was a member, and this call gave it the weight. That
    /// counts as a removal and an insertion, and no snapshot of anybody shows the key gone between them. `Refused` if
    /// another change of the key came in meanwhile; then nothing is stored.
    #[inline(never)]
    pub fn put(&mut self, k: u32, weight: u32) -> Outcome
        requires key { k < 2 ^ self.old.round.bits }
        requires budget { self.old.spent < self.old.round.updates }
        ensures puts { ComesTo (Request.Put weight) k result self.old.knows self.new.knows }
        ensures goes_on { (steps : ℕ) × GoesOn 1 steps self.old self.new }
        ensures keeps { Keeps (summary_of A.parts B.parts) self.old self.new }
        ensures steps { StepsOf (Request.Put weight) k result self.old self.new }
    {
        self.update(k, Request::Put(weight)).outcome
    }

    /// Adds an amount to the weight of a key. A key that is no member weighs nothing, and goes in with the amount.
    ///
    /// `Accepted` if this call put the key in. `Replaced` if it was a member: then it weighs the amount more than in the state just before, and that
    /// counts as a removal and an insertion, as with `put`. `TooGreat` if the sum does not fit 32 bits. `Refused` if another change of the key came
    /// in meanwhile. After these two nothing is stored.
    #[inline(never)]
    pub fn add(&mut self, k: u32, amount: u32) -> Outcome
        requires key { k < 2 ^ self.old.round.bits }
        requires budget { self.old.spent < self.old.round.updates }
        ensures adds { ComesTo (Request.Add amount) k result self.old.knows self.new.knows }
        ensures goes_on { (steps : ℕ) × GoesOn 1 steps self.old self.new }
        ensures keeps { Keeps (summary_of A.parts B.parts) self.old self.new }
        ensures steps { StepsOf (Request.Add amount) k result self.old self.new }
    {
        self.update(k, Request::Add(amount)).outcome
    }

    /// Takes an amount from the weight of a member. A member of whose weight nothing is left goes out.
    ///
    /// `Accepted` if this call took the key out. `Replaced` if the key weighs the amount less than in the state just before, and is still a member.
    /// `TooLittle` if it is no member, or weighs less than the amount. `Refused` if another change of the key came in meanwhile. After these two
    /// nothing is stored.
    #[inline(never)]
    pub fn sub(&mut self, k: u32, amount: u32) -> Outcome
        requires key { k < 2 ^ self.old.round.bits }
        requires budget { self.old.spent < self.old.round.updates }
        ensures subs { ComesTo (Request.Sub amount) k result self.old.knows self.new.knows }
        ensures goes_on { (steps : ℕ) × GoesOn 1 steps self.old self.new }
        ensures keeps { Keeps (summary_of A.parts B.parts) self.old self.new }
        ensures steps { StepsOf (Request.Sub amount) k result self.old self.new }
    {
        self.update(k, Request::Sub(amount)).outcome
    }

    /// Takes a key out if it weighs exactly this much. True if this call took it out. False if it was no member, weighed something else, or another
    /// change of the key came in meanwhile; then nothing is stored.
    #[inline(never)]
    pub fn take(&mut self, k: u32, weight: u32) -> bool
        requires key { k < 2 ^ self.old.round.bits }
        requires budget { self.old.spent < self.old.round.updates }
        ensures accepted { OnTrue result (UsedUp k weight self.old.knows self.new.knows) }
        ensures refused { OnFalse result (ComesTo (Request.Take weight) k Outcome.Refused self.old.knows self.new.knows) }
        ensures goes_on { (steps : ℕ) × GoesOn 1 steps self.old self.new }
        ensures keeps { Keeps (summary_of A.parts B.parts) self.old self.new }
        ensures steps { StepsOf (Request.Take weight) k (if result then Outcome.Accepted else Outcome.Refused) self.old self.new }
    {
        matches!(
            self.update(k, Request::Take(weight)).outcome,
            Outcome::Accepted
        )
    }

    /// Makes an update of a key as it is asked to, as the call of its name does: `Accepted` or `Refused` where `insert`, `remove` and `take` answer true or
    /// false. It tells what the key weighed before that, and what it weighs by it.
    #[inline(always)]
    pub fn update(&mut self, k: u32, request: Request) -> Told
        requires key { k < 2 ^ self.old.round.bits }
        requires budget { self.old.spent < self.old.round.updates }
        ensures comes_to { ComesTo request k result.outcome self.old.knows self.new.knows }
        ensures tells { Tells request k result self.old.knows self.new.knows }
        ensures goes_on { (steps : ℕ) × GoesOn 1 steps self.old self.new }
        ensures keeps { Keeps (summary_of A.parts B.parts) self.old self.new }
        ensures steps { StepsOf request k result.outcome self.old self.new }
    {
        let _amount = amount_in(request);
        let Some(words) = self.words.take() else {
            unreachable!()
        };
        let account = self.account;
        let (words, made) = update(
            words,
            account.leaves,
            account.bits,
            k,
            account.next,
            request,
        );
        self.words = Some(words);
        self.account = account.after(request, made.outcome);
        let before = weight_in(made.found);
        let now = weight_in(made.left);
        Told {
            outcome: made.outcome,
            before,
            now,
        }
    }

    /// Takes a snapshot, by one load of the root's word. It shows every change that the pass knows.
    #[inline(always)]
    pub fn snapshot(&mut self) -> Snapshot
        ensures takes { TakesSnapshot self.old.knows self.new.knows (snapshot_cut self.new result) }
        ensures known { HasSnapshot self.new result }
        ensures goes_on { GoesOn 0 1 self.old self.new }
        ensures step { self.new.steps ≡ self.old.steps ++ load_node (root_of self.old.round) result.number ∷ [] }
        ensures keeps { Keeps (summary_of A.parts B.parts) self.old self.new }
    {
        let Some(mut words) = self.words.take() else {
            unreachable!()
        };
        let number = words.load_node(2 * self.account.leaves - 2);
        self.words = Some(words);
        Snapshot { number }
    }

    /// How many updates are left.
    pub fn budget(&self) -> u32
        ensures { result + self.now.spent ≡ self.now.round.updates }
    {
        self.account.left
    }

    /// The lane of the pass, counted from 0.
    pub fn lane(&self) -> u32
        ensures lane { result ≡ self.now.lane }
        ensures knowledge { IsKnowledge self.now.round.bits self.now.round.members self.now.knows }
    {
        match &self.words {
            Some(words) => words.lane(),
            None => unreachable!(),
        }
    }

    /// How many keys this pass put in. A weight that `put` replaced counts here and as a removal.
    pub fn inserts(&self) -> u32
        ensures { result ≡ inserts_of self.now.knows.accepted }
    {
        self.account.inserts
    }

    /// How many keys this pass took out. A weight that `put` replaced counts here and as an insertion.
    pub fn removals(&self) -> u32
        ensures { result ≡ removals_of self.now.knows.accepted }
    {
        self.account.removals
    }
}
