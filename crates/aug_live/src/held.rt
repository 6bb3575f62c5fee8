//! The lanes that a roll-over took.
ghost use Rattle.std.specs.Prelude.{◌≡◌, ◌+◌, ◌^◌, ◌<◌, ◌++◌, true};
ghost use Rattle.aug_core.specs.Prefixes.{IsPrefix};
ghost use Rattle.aug_trie.specs.Round.{table_of};
ghost use Rattle.aug_live.specs.Carrying.{Leads};
ghost use Rattle.aug_live.specs.inside.Rolls.{HasEnded, IsBackIn, IsOf, accepted_by, given_all, kept_of, rounds_in};

use crate::end::{End, Out};
use crate::lane::Lane;
use crate::tie::{Deal, Keep, Leave};
use crate::work::start;
use aug_monoid::Monoid;
use aug_trie::{Crew, Round};
use std::marker::Model;

/// A lane that the roller took, with what lies in it.
#[derive(Drop)]
pub(crate) struct Held<A: Monoid, B: Monoid> {
    pub(crate) out: Out<A, B>,
    pub(crate) lane: Lane<A, B>,
}

impl<A: Monoid, B: Monoid> Model for Held<A, B> {
    ghost use Rattle.std.specs.Prelude.{◌≡◌, true};
    ghost use Rattle.aug_live.specs.inside.LaneKnowledge.{EndFacts, Rolls, rolls};

    ghost Value = { EndFacts };

    ghost view = { λ h. record { lock = h.out.lock; known = h.out.known } };

    ghost invariant = { λ h. (h.out.taken ≡ h.lane) × (rolls h.out.known.whose ≡ true) × Rolls h.out.known h.out.known.before h.lane };
}

/// The same, whose pass went back to its crew.
#[derive(Drop)]
pub(crate) struct Emptied<A: Monoid, B: Monoid> {
    out: Out<A, B>,
    rest: Lane<A, B>,
}

impl<A: Monoid, B: Monoid> Model for Emptied<A, B> {
    ghost use Rattle.std.specs.Prelude.{◌≡◌, ◌<◌, true, false};
    ghost use Rattle.aug_live.specs.inside.LaneKnowledge.{EndFacts, left, rolls};

    ghost Value = { EndFacts };

    ghost view = { λ i. record { lock = i.out.lock; known = left i.out.known i.rest } };

    ghost invariant = { λ i. (i.rest.at ≡ i.out.taken.at) × (i.rest.number ≡ i.out.taken.number) × (i.rest.is_out ≡ i.out.taken.is_out) × (rolls i.out.known.whose ≡ true) × (0 < i.out.known.at.era) × (i.rest.works ≡ false) };
}

impl<A: Monoid, B: Monoid> Held<A, B> {
    /// Lets the lane go as it was.
    pub(crate) fn put_back(self) -> End<A, B>
        ensures { result ≡ self }
    {
        let Held { out, lane } = self;
        let Out { lock, mut key } = out;
        lock.put::<Keep>(&mut key, lane);
        End { lock, key }
    }

    /// Gives the pass back to its crew: the lane without it.
    pub(crate) fn give_back(self, round: &Round<A, B>, crew: &mut Crew<A, B>) -> Emptied<A, B>
        requires together { table_of crew.old.round ≡ round.now }
        requires of_round { IsOf (rounds_in crew.old) self.known.at.era self }
        requires some { 0 < self.known.at.era }
        ensures back { IsBackIn (rounds_in crew.old) self.known.at.era crew.new.knows.history result }
        ensures kept { kept_of result ≡ kept_of self }
        ensures changes { crew.new.knows.accepted ≡ crew.old.knows.accepted ++ accepted_by result }
        ensures goes_on { IsPrefix crew.old.knows.history crew.new.knows.history }
        ensures round { rounds_in crew.new ≡ rounds_in crew.old }
        ensures handed { crew.new.handed ≡ crew.old.handed }
        ensures counted { crew.new.back ≡ crew.old.back + 1 }
        ensures free { crew.new.free ≡ crew.old.free }
    {
        let Held { out, lane } = self;
        let (work, rest) = lane.into_work();
        crew.back(round.pass(work));
        Emptied { out, rest }
    }
}

impl<A: Monoid, B: Monoid> Emptied<A, B> {
    /// Puts a pass of the next round in, and lets the lane go.
    pub(crate) fn begin(self, era: u64, round: &Round<A, B>, crew: &mut Crew<A, B>) -> End<A, B>
        requires ready { HasEnded (table_of crew.old.round) crew.old.past era self }
        requires led { Leads crew.old.round.bits crew.old.past crew.old.round.members }
        requires some { 0 < era }
        requires small { era + 1 < 2 ^ 64 }
        requires era { crew.old.round.era ≡ era }
        requires together { table_of crew.old.round ≡ round.now }
        requires lane_left { crew.old.handed < crew.old.round.workers }
        ensures of_round { IsOf (rounds_in crew.old) (era + 1) result }
        ensures kept { kept_of result ≡ given_all self }
        ensures same_changes { crew.new.knows.accepted ≡ crew.old.knows.accepted }
        ensures goes_on { IsPrefix crew.old.knows.history crew.new.knows.history }
        ensures round { rounds_in crew.new ≡ rounds_in crew.old }
        ensures handed { crew.new.handed ≡ crew.old.handed + 1 }
        ensures back { crew.new.back ≡ crew.old.back }
    {
        let Emptied { out, rest } = self;
        let Out { lock, mut key } = out;
        let work = start(round, crew);
        lock.put::<Deal>(&mut key, rest.next(work));
        End { lock, key }
    }

    /// Lets the lane go without a pass.
    pub(crate) fn leave(self) -> End<A, B>
        ensures { result ≡ self }
    {
        let Emptied { out, rest } = self;
        let Out { lock, mut key } = out;
        lock.put::<Leave>(&mut key, rest);
        End { lock, key }
    }
}
