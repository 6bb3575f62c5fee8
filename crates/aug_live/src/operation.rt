//! What a handle does with the pass of its lane, as values.
ghost use Rattle.std.specs.Prelude.{◌≡◌, ℕ, ◌+◌, ◌^◌, ◌<◌, ◌≤◌, All, IfSome, IsSomeAnd, None, Some, length, take};
ghost use Rattle.atomic_table.specs.Seated.{TableId};
ghost use Rattle.aug_core.specs.Prefixes.{IsPrefix};
ghost use Rattle.aug_model.specs.Folds.{summary_of};
ghost use Rattle.aug_monoid.specs.Extent.{extent_parts};
ghost use Rattle.aug_trie.specs.Chains.{IsPart};
ghost use Rattle.aug_trie.specs.Note.{chain_of_note};
ghost use Rattle.aug_trie.specs.Pass.{GoesOn, PassFacts, chain_of};
ghost use Rattle.aug_trie.specs.Pops.{pop_updates, Pops};
ghost use Rattle.aug_trie.specs.UpdateBatches.{DoesBatch};
ghost use Rattle.aug_trie.specs.Reader.{TakesUp};
ghost use Rattle.aug_trie.specs.Snapshot.{HasSnapshot, snapshot_cut};
ghost use Rattle.aug_trie.specs.Updates.{TakesSnapshot, Updates};
ghost use Rattle.aug_live.specs.LiveHandles.{AllOrSpent, IsRoom, IsSomeOf, Spends, note_at};
ghost use Rattle.aug_live.specs.inside.LaneKnowledge.{MakesNothing, rounds_at};
ghost use Rattle.aug_live.specs.inside.Looks.{ShowsOrNot};

use aug_monoid::{Extent, Monoid};
use aug_trie::{Note, Outcome, Pass, Pop, Reader, Request, Side, Snapshot, Told};

/// An operation: what a pass does in one call. A handle runs each in the same way, by `Handle::make` or `Handle::try_make`.
pub(crate) trait Operation<A: Monoid, B: Monoid> {
    /// What it comes to.
    type Answer;

    ghost least: { ℕ };

    // What it needs of the table and of the bits of the keys.
    ghost Needs: { Self → TableId → ℕ → Type 0 };

    // What it does, from what it was to what it has become, with its answer, to a pass.
    ghost Does: { Self → Self → Self.Answer → PassFacts → PassFacts → Type 0 };

    /// How many updates the pass has to have left.
    fn least(&self) -> u32
        ensures { result ≡ least };

    /// Does it, in the round of this number, counted from 1.
    fn run(&mut self, era: u64, pass: &mut Pass<'_, A, B>) -> Self::Answer
        requires era { era ≡ pass.old.round.era + 1 }
        requires needs { Needs self.old pass.old.round.table pass.old.round.bits }
        requires budget { pass.old.spent + least ≤ pass.old.round.updates }
        ensures does { Does self.old self.new result pass.old pass.new }
        ensures round { rounds_at pass.new ≡ rounds_at pass.old }
        ensures accepts { IsPrefix pass.old.knows.accepted pass.new.knows.accepted };

    /// How many updates that came to.
    fn updates(&self, answer: &Self::Answer) -> i32;
}

/// An update of a key.
#[derive(Drop)]
pub(crate) struct OneUpdate(pub(crate) u32, pub(crate) Request);

impl<A: Monoid, B: Monoid> Operation<A, B> for OneUpdate {
    type Answer = Told;

    ghost least = { 1 };

    ghost Needs = { λ o table bits. o.0 < 2 ^ bits };

    ghost Does = { λ o after told. Spends 1 (λ a b. Updates o.1 o.0 told a.knows b.knows) };

    #[inline(always)]
    fn least(&self) -> u32 {
        1
    }

    #[inline(always)]
    fn run(&mut self, _era: u64, pass: &mut Pass<'_, A, B>) -> Told {
        pass.update(self.0, self.1)
    }

    #[inline(always)]
    fn updates(&self, _answer: &Told) -> i32 {
        1
    }
}

/// Updates of the first keys, of as many as are left, each by the request that has its index. What they come to is put into the places with their indices.
#[derive(Drop)]
pub(crate) struct Batch<'a> {
    pub(crate) keys: &'a [u32],
    pub(crate) requests: &'a [Request],
    pub(crate) outcomes: &'a mut [Outcome],
}

impl<A: Monoid, B: Monoid> Operation<A, B> for Batch<'_> {
    type Answer = usize;

    ghost least = { 1 };

    ghost Needs = { λ o table bits. All (λ k. k < 2 ^ bits) o.keys.now × (length o.keys.now ≤ length o.requests.now) × (length o.keys.now ≤ length o.outcomes.now) };

    ghost Does = { λ o after count a b. Spends count (DoesBatch o.requests.now (take count o.keys.now) after.outcomes.now) a b × IsSomeOf (length o.keys.now) count × AllOrSpent (length o.keys.now) count b × (after.outcomes.ghost_name ≡ o.outcomes.ghost_name) };

    #[inline(always)]
    fn least(&self) -> u32 {
        1
    }

    fn run(&mut self, _era: u64, pass: &mut Pass<'_, A, B>) -> usize {
        let count = self.keys.len().min(pass.budget() as usize);
        let outcomes = &mut *self.outcomes;
        pass.update_all(&self.keys[..count], self.requests, outcomes);
        count
    }

    fn updates(&self, answer: &usize) -> i32 {
        i32::try_from(*answer).unwrap_or(i32::MAX)
    }
}

/// A pop of the member at one end.
#[derive(Drop)]
pub(crate) struct PopAt(pub(crate) Side);

impl<A: Monoid> Operation<A, Extent> for PopAt {
    type Answer = Pop;

    ghost least = { 1 };

    ghost Needs = { λ o table bits. Unit {0} };

    ghost Does = { λ o after done. Spends (pop_updates done) (Pops (summary_of A.parts extent_parts) o.0 done) };

    #[inline(always)]
    fn least(&self) -> u32 {
        1
    }

    #[inline(always)]
    fn run(&mut self, _era: u64, pass: &mut Pass<'_, A, Extent>) -> Pop {
        pass.pop(self.0)
    }

    #[inline(always)]
    fn updates(&self, _answer: &Pop) -> i32 {
        1
    }
}

/// A note of what the pass knows.
#[derive(Drop)]
pub(crate) struct MakeNote;

impl<A: Monoid, B: Monoid> Operation<A, B> for MakeNote {
    type Answer = Note<A, B>;

    ghost least = { 0 };

    ghost Needs = { λ o table bits. Unit {0} };

    ghost Does = { λ o after note a b. (note ≡ note_at a) × (b ≡ a) };

    #[inline(always)]
    fn least(&self) -> u32 {
        0
    }

    fn run(&mut self, _era: u64, pass: &mut Pass<'_, A, B>) -> Note<A, B> {
        pass.note()
    }

    #[inline(always)]
    fn updates(&self, _answer: &Note<A, B>) -> i32 {
        0
    }
}

/// A note of the table, which the pass learns. It is there until then.
#[derive(Drop)]
pub(crate) struct LearnNote<A: Monoid, B: Monoid>(pub(crate) Option<Note<A, B>>);

impl<A: Monoid, B: Monoid> Operation<A, B> for LearnNote<A, B> {
    type Answer = ();

    ghost least = { 0 };

    ghost Needs = { λ o table bits. IsSomeAnd o.0 (λ note. note.round.table ≡ table) };

    ghost Does = { λ o after _ a b. IsSomeAnd o.0 (λ note. IsPart (chain_of_note note) (chain_of b)) × MakesNothing a b };

    #[inline(always)]
    fn least(&self) -> u32 {
        0
    }

    fn run(&mut self, _era: u64, pass: &mut Pass<'_, A, B>) {
        let Some(note) = self.0.take() else {
            unreachable!()
        };
        pass.learn(note);
    }

    #[inline(always)]
    fn updates(&self, _answer: &()) -> i32 {
        0
    }
}

/// Tells how many updates the pass has left.
#[derive(Drop)]
pub(crate) struct TellRoom;

impl<A: Monoid, B: Monoid> Operation<A, B> for TellRoom {
    type Answer = u32;

    ghost least = { 0 };

    ghost Needs = { λ o table bits. Unit {0} };

    ghost Does = { λ o after left a b. IsRoom left b × (b ≡ a) };

    #[inline(always)]
    fn least(&self) -> u32 {
        0
    }

    fn run(&mut self, _era: u64, pass: &mut Pass<'_, A, B>) -> u32 {
        pass.budget()
    }

    #[inline(always)]
    fn updates(&self, _answer: &u32) -> i32 {
        0
    }
}

/// A snapshot for a look, and a reader that has it. The reader of the look before, if there is one, goes back to the pass. Where the pass did not lend it,
/// nothing is answered; at the desk it is left over instead.
#[derive(Drop)]
pub(crate) struct Show<A: Monoid, B: Monoid> {
    pub(crate) reader: Option<Reader<A, B>>,
    pub(crate) left: Option<Reader<A, B>>,
    pub(crate) at_desk: bool,
    // The round of the reader, counted from 1.
    pub(crate) era: u64,
}

impl<A: Monoid, B: Monoid> Show<A, B> {
    /// For a look of a lane whose last reader is this one, of this round, if there is one.
    #[inline(always)]
    pub(crate) fn after(reader: Option<Reader<A, B>>, era: u64) -> Show<A, B>
        ensures reader { result.reader ≡ reader }
        ensures left { result.left ≡ None }
    {
        Show {
            reader,
            left: None,
            at_desk: false,
            era,
        }
    }
}

impl<A: Monoid, B: Monoid> Operation<A, B> for Show<A, B> {
    type Answer = Option<Snapshot>;

    ghost least = { 0 };

    ghost Needs = { λ o table bits. IfSome o.reader (λ r. r.round.table ≡ table) × IfSome o.left (λ r. r.round.table ≡ table) };

    ghost Does = { λ o after shown. ShowsOrNot o.reader after.reader after.left after.era shown };

    #[inline(always)]
    fn least(&self) -> u32 {
        0
    }

    #[inline(always)]
    fn run(&mut self, era: u64, pass: &mut Pass<'_, A, B>) -> Option<Snapshot> {
        let (snapshot, refused) = snapshot_behind(pass, self.reader.take());
        if !self.at_desk {
            if refused.is_some() {
                self.reader = refused;
                return None;
            }
        }
        self.left = refused;
        self.reader = Some(pass.lend());
        self.era = era;
        Some(snapshot)
    }

    #[inline(always)]
    fn updates(&self, _shown: &Option<Snapshot>) -> i32 {
        0
    }
}

// Takes a snapshot, which shows what a reader knows too. The reader goes back to the pass, or comes back if the pass did not lend it.
#[inline(always)]
fn snapshot_behind<A: Monoid, B: Monoid>(
    pass: &mut Pass<'_, A, B>,
    reader: Option<Reader<A, B>>,
) -> (Snapshot, Option<Reader<A, B>>)
    requires table { IfSome reader (λ r. r.round.table ≡ pass.old.round.table) }
    ensures takes { TakesSnapshot pass.old.knows pass.new.knows (snapshot_cut pass.new result.0) }
    ensures known { HasSnapshot pass.new result.0 }
    ensures goes_on { GoesOn 0 1 pass.old pass.new }
    ensures takes_up { IfSome reader (λ r. TakesUp r pass.new) }
    ensures same { IfSome result.1 (λ r. reader ≡ Some r) }
{
    match reader {
        None => (pass.snapshot(), None),
        Some(reader) => {
            let mut reader = reader;
            let snapshot = pass.follow(&mut reader);
            match pass.take_reader(reader) {
                Ok(()) => (snapshot, None),
                Err(reader) => (snapshot, Some(reader)),
            }
        }
    }
}
