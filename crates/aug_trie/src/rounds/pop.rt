//! How a pass takes out its first or its last member.
ghost use Rattle.std.specs.Prelude.{◌≡◌, ℕ, ◌<◌, slice_get, Some, IfSome};
ghost use Rattle.aug_monoid.specs.Extent.{extent_parts};
ghost use Rattle.aug_model.specs.Folds.{summary_of};
ghost use Rattle.aug_model.specs.Keys.{list_of};
ghost use Rattle.aug_trie.specs.Node.{Keeps, Reads};
ghost use Rattle.aug_trie.specs.Pass.{GoesOn};
ghost use Rattle.aug_trie.specs.Pops.{member_at, pop_updates, Pops};
ghost use Rattle.aug_trie.specs.Snapshot.{HasSnapshot, set_at};
ghost use Rattle.aug_trie.specs.inside.Popping.{TakesShown};

use crate::queries::snapshot::Snapshot;
use crate::rounds::pass::Pass;
use aug_monoid::{Extent, Monoid};
use aug_query::descent::{First, Last, Weight};

/// Which member a pop takes out.
#[derive(Clone, Copy, PartialEq, Eq, Debug)]
pub enum Side {
    /// The least key.
    First,
    /// The greatest key.
    Last,
}

/// What a pop comes to.
#[derive(Clone, Copy, PartialEq, Eq, Debug)]
pub enum Pop {
    /// The key at that end of the call's snapshot, and its weight. This call took it out.
    Member(u32, u32),
    /// The call's snapshot has no member.
    Empty,
    /// The key at that end was taken out or changed by another call in between. Nothing was stored.
    Refused,
}

impl<'r, A: Monoid> Pass<'r, A, Extent> {
    /// Takes out the member with the least key, and tells its key and its weight. One try: it takes a snapshot, and takes the first member of that out if it
    /// still weighs the same. So no member is taken out by two calls, and if nobody changes that member meanwhile the call succeeds. An update is spent
    /// unless the snapshot is empty.
    pub fn pop_first(&mut self) -> Pop
        requires budget { self.old.spent < self.old.round.updates }
        ensures pops { Pops (summary_of A.parts extent_parts) Side.First result self.old self.new }
        ensures goes_on { (steps : ℕ) × GoesOn (pop_updates result) steps self.old self.new }
        ensures keeps { Keeps (summary_of A.parts extent_parts) self.old self.new }
    {
        self.pop(Side::First)
    }

    /// Takes out the member with the greatest key, as `pop_first`.
    pub fn pop_last(&mut self) -> Pop
        requires budget { self.old.spent < self.old.round.updates }
        ensures pops { Pops (summary_of A.parts extent_parts) Side.Last result self.old self.new }
        ensures goes_on { (steps : ℕ) × GoesOn (pop_updates result) steps self.old self.new }
        ensures keeps { Keeps (summary_of A.parts extent_parts) self.old self.new }
    {
        self.pop(Side::Last)
    }

    /// Takes out the member at one end, as `pop_first` and `pop_last`.
    pub fn pop(&mut self, side: Side) -> Pop
        requires budget { self.old.spent < self.old.round.updates }
        ensures pops { Pops (summary_of A.parts extent_parts) side result self.old self.new }
        ensures goes_on { (steps : ℕ) × GoesOn (pop_updates result) steps self.old self.new }
        ensures keeps { Keeps (summary_of A.parts extent_parts) self.old self.new }
    {
        let s = self.snapshot();
        let found = self.member_at(s, side);
        self.take_shown(s, found)
    }

    // The key at one end of a snapshot.
    fn member_at(&mut self, s: Snapshot, side: Side) -> Option<u32>
        requires { HasSnapshot self.old s }
        ensures answer { result ≡ member_at side (list_of (set_at self.old s)) }
        ensures reads { Reads (summary_of A.parts extent_parts) 4 self.old self.new }
    {
        match side {
            Side::First => self.ask(s, First),
            Side::Last => self.ask(s, Last),
        }
    }
}

impl<'r, A: Monoid, B: Monoid> Pass<'r, A, B> {
    // Takes out a member of a snapshot, if it still weighs what it weighs there.
    fn take_shown(&mut self, s: Snapshot, found: Option<u32>) -> Pop
        requires snapshot { HasSnapshot self.old s }
        requires member { IfSome found (λ k. (i : ℕ) × (slice_get (list_of (set_at self.old s)) i ≡ Some k)) }
        requires budget { self.old.spent < self.old.round.updates }
        ensures { TakesShown (summary_of A.parts B.parts) (set_at self.old s) found result self.old self.new }
    {
        // It tells which keys a set may have.
        let _bits = self.bits();
        let Some(k) = found else {
            return Pop::Empty;
        };
        let Some(weight) = self.ask(s, Weight(k)) else {
            unreachable!()
        };
        if self.take(k, weight) {
            Pop::Member(k, weight)
        } else {
            Pop::Refused
        }
    }
}
