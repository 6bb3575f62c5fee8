//! A look: a snapshot to query.
ghost use Rattle.std.specs.Prelude.{◌≡◌, ◌^◌, ◌<◌, All, IfErr, IfOk, IfSome, Some, take};
ghost use Rattle.std.specs.Arc.{arc_value};
ghost use Rattle.aug_model.specs.Differences.{changes_from};
ghost use Rattle.aug_model.specs.Folds.{summary_of};
ghost use Rattle.aug_query.specs.BothMembers.{since_loads};
ghost use Rattle.aug_trie.specs.Comparing.{compare_steps};
ghost use Rattle.aug_trie.specs.Node.{steps_for};
ghost use Rattle.aug_trie.specs.Round.{TableFacts, table_of};
ghost use Rattle.aug_live.specs.LiveErrors.{IfRefused, RefusesCall};
ghost use Rattle.aug_live.specs.LiveHandles.{Follows, IsAsked, IsLookOf, LooksAgain, set_before, set_of_look};
ghost use Rattle.aug_live.specs.inside.LaneKnowledge.{half_in};
ghost use Rattle.aug_live.specs.inside.Looks.{IsShownIn};

use crate::error::{Busy, LiveError, TryError};
use crate::handle::Handle;
use crate::operation::Show;
use crate::slot::{Slot, SlotOut};
use crate::work::SharedRound;
use aug_monoid::Monoid;
use aug_query::descent::{Changes, ChangesSince};
use aug_query::{MemberList, Query};
use aug_trie::{Reader, Snapshot};
use std::marker::Model;
use std::sync::Wait;

/// A look: a snapshot, which is asked as a pass's is. Nothing that anybody does changes what it shows, and no call waits for it, with one exception: while
/// looks of earlier rounds are open in each part of the table but the one at work, no round rolls over, so updates wait once those of this round are
/// spent. A look ends when it is dropped.
pub struct Look<A: Monoid, B: Monoid> {
    out: SlotOut<A, B>,
    round: SharedRound<A, B>,
    // There is always one, which `again` takes out.
    reader: Option<Reader<A, B>>,
    held: Snapshot,
    // The one that it showed before that, or the same.
    before: Snapshot,
    // The number of the reader's round, counted from 1, and of the lane of its handle, from 0.
    era: u64,
    lane: usize,
}

impl<A: Monoid, B: Monoid> Model for Look<A, B> {
    ghost use Rattle.std.specs.Arc.{arc_value};
    ghost use Rattle.aug_live.specs.LiveHandles.{LookFacts};
    ghost use Rattle.aug_live.specs.inside.LaneKnowledge.{half_in};
    ghost use Rattle.aug_live.specs.inside.Looks.{HoldsLook};

    ghost Value = { LookFacts };

    ghost view = { λ l. record { lane = l.lane; reader = half_in l.reader; snapshot = l.held; before = l.before } };

    ghost invariant = { λ l. HoldsLook l.out (arc_value l.round) l.reader l.held l.before l.era };
}

impl<A: Monoid, B: Monoid> Look<A, B> {
    #[inline(always)]
    pub(crate) fn of(
        out: SlotOut<A, B>,
        round: SharedRound<A, B>,
        show: Show<A, B>,
        held: Snapshot,
        lane: usize,
    ) -> Look<A, B>
        requires out { out ≡ Some (arc_value round) }
        requires shown { IsShownIn (arc_value round) show.reader show.era held }
        ensures { result ≡ record { lane = lane; reader = half_in show.reader; snapshot = held; before = held } }
    {
        let Show { reader, era, .. } = show;
        Look {
            out,
            round,
            reader,
            held,
            before: held,
            era,
            lane,
        }
    }

    /// Asks the snapshot, in so many steps as a pass takes for that.
    #[inline(always)]
    pub fn ask<Q: Query<A, B>>(&mut self, query: Q) -> Q::Answer
        ensures answer { Q.Answers query (set_of_look self.old) result }
        ensures asked { IsAsked (summary_of A.parts B.parts) (steps_for (Q.most query (set_of_look self.old))) self.old self.new }
    {
        let Some(reader) = &mut self.reader else {
            unreachable!()
        };
        reader.ask(&self.round, self.held, query)
    }

    /// What changed between the snapshot that the look showed before the last `again` and the one that it shows, among the keys from `from` on: a page of
    /// at most 32 changes, as `Pass::changes` of `aug_trie` gives, in as many steps. The next page begins at the last of these keys plus one. Before
    /// the first `again`, and after one that met another round, nothing has changed.
    pub fn changes(&mut self, from: u32) -> Changes
        ensures answer { result.items ≡ take 32 (changes_from (set_before self.old) (set_of_look self.old) from) }
        ensures asked { IsAsked (summary_of A.parts B.parts) (compare_steps self.old.reader self.old.before self.old.snapshot from) self.old self.new }
    {
        let Some(reader) = &mut self.reader else {
            unreachable!()
        };
        reader.changes(&self.round, self.before, self.held, from)
    }

    /// What changed between a set that the caller listed and the snapshot that the look shows, among the keys from `from` on: a page of at most 32
    /// changes, as `changes` gives. The list is what an earlier look gave, by the query `AllMembers` of `aug_trie`, also one of an earlier round or with
    /// fewer bits. The two are compared member by member: a page takes at most `3 * bits * (n + 1) + 2` steps, where `n` members from `from` on are in
    /// the list and in the snapshot together, however few of them changed.
    pub fn changes_since<L: MemberList>(&mut self, before: &L, from: u32) -> Changes
        ensures answer { result.items ≡ take 32 (changes_from (L.set_of before.now) (set_of_look self.old) from) }
        ensures keys { All (λ d. d.key < 2 ^ 16) result.items }
        ensures asked { IsAsked (summary_of A.parts B.parts) (steps_for (since_loads (L.set_of before.now) (set_of_look self.old) from)) self.old self.new }
    {
        self.ask(ChangesSince { before, from })
    }

    /// Takes a newer snapshot with its handle, which shows all that this handle did. True if it is of the same round: then `changes` compares it with the one
    /// before. False if the round rolled over in between: then `changes` has nothing to compare it with, but `changes_since` has what the caller listed.
    /// It waits as an update does, and after a refusal the look shows what it showed.
    pub fn again<R: Wait>(&mut self, rt: &R, handle: &mut Handle<A, B>) -> Result<bool, LiveError>
        requires own { IsLookOf handle.old self.old }
        ensures looks { IfOk result (λ same. LooksAgain same self.old self.new handle.old handle.new) }
        ensures not_made { IfErr result (λ _. (self.new ≡ self.old) × Follows handle.old handle.new) }
        ensures refused { IfErr result (RefusesCall handle.new) }
    {
        let mut show = Show::after(self.reader.take(), self.era);
        let done = handle.show(rt, &mut show);
        self.reader = show.reader;
        match done {
            Ok(held) => {
                if show.era != self.era {
                    self.before = held;
                    self.held = held;
                    self.era = show.era;
                    return Ok(false);
                }
                self.before = self.held;
                self.held = held;
                Ok(true)
            }
            Err(cause) => Err(cause),
        }
    }

    /// The same, and waits for nobody, as `Handle::try_update`.
    pub fn try_again(&mut self, handle: &mut Handle<A, B>) -> Result<bool, TryError<Busy>>
        requires own { IsLookOf handle.old self.old }
        ensures looks { IfOk result (λ same. LooksAgain same self.old self.new handle.old handle.new) }
        ensures not_made { IfErr result (λ _. (self.new ≡ self.old) × Follows handle.old handle.new) }
        ensures refused { IfErr result (IfRefused (RefusesCall handle.new)) }
    {
        let mut show = Show::after(self.reader.take(), self.era);
        let done = handle.try_show(&mut show);
        self.reader = show.reader;
        match done {
            Ok(held) => {
                if show.era != self.era {
                    self.before = held;
                    self.held = held;
                    self.era = show.era;
                    return Ok(false);
                }
                self.before = self.held;
                self.held = held;
                Ok(true)
            }
            Err(cause) => Err(cause),
        }
    }
}

impl<A: Monoid, B: Monoid> Drop for Look<A, B> {
    fn drop(self) {
        let Look {
            out,
            round,
            reader,
            held: _,
            before: _,
            era,
            lane: _,
        } = self;
        drop(out.put(Slot { reader, round, era }));
    }
}

/// Puts back what was to be a look.
pub(crate) fn leave<A: Monoid, B: Monoid>(
    out: SlotOut<A, B>,
    round: SharedRound<A, B>,
    show: Show<A, B>,
)
    requires out { out ≡ Some (arc_value round) }
    requires reader { IfSome show.reader (λ r. table_of r.round ≡ arc_value round) }
{
    let Show { reader, era, .. } = show;
    drop(out.put(Slot { reader, round, era }));
}
