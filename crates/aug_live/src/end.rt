//! The ends of a lane: a pass of its lock each.
ghost use Rattle.std.specs.Prelude.{◌≡◌, ◌≢◌, ◌⊎◌, ◌+◌, ◌++◌, List, [], false, ◌<◌, IfOk, IfErr};
ghost use Rattle.std.specs.Arc.{arc_value};
ghost use Rattle.aug_core.specs.Prefixes.{IsPrefix};
ghost use Rattle.aug_core.specs.declared.view.Change.{Change};
ghost use Rattle.aug_trie.specs.Chains.{IsPart};
ghost use Rattle.aug_trie.specs.Crew.{crew_chain};
ghost use Rattle.aug_trie.specs.Pass.{chain_of};
ghost use Rattle.aug_trie.specs.Round.{table_of};
ghost use Rattle.aug_live.specs.LiveErrors.{IfRefused};
ghost use Rattle.aug_live.specs.LiveHandles.{Follows};
ghost use Rattle.aug_live.specs.inside.LaneKnowledge.{EndFollows, EndRuns, EndStays, IsSameEnd, Learnt, Seen, Worked, is_out_by, knows_nothing, passed_by, rounds_at, taken_in, worked};
ghost use Rattle.aug_live.specs.inside.Rolls.{GetsHandle, IsHandleEnd, IsOf, IsPort, given, kept_of, rounds_in};
ghost use Rattle.aug_live.specs.declared.known.Whose.TheVariants.{Alone, Idle, Roller, Handle};

use crate::error::{LiveError, TryError};
use crate::known::Known;
use crate::lane::{Lane, Obstacle};
use crate::operation::Operation;
use crate::tie::{Deal, Keep, Learn, Meet, Parts, PassBy, Renumber, Settle, Tie, Work};
use crate::work::start;
use aug_monoid::Monoid;
use aug_trie::{Crew, Round};
use ruled_lock::{Key, Patience, RuledLock, Tries};
use std::alloc::{AllocError, Global};
use std::marker::Model;
use std::sync::Arc;

/// The lock of a lane.
pub(crate) type LaneLock<A, B> = RuledLock<Lane<A, B>, Known<A, B>, Tie>;

/// A pass of the lock of a lane.
pub(crate) type LaneKey<A, B> = Key<Lane<A, B>, Known<A, B>>;

/// An end of a lane: the roller's, or a handle's.
#[derive(Drop)]
pub(crate) struct End<A: Monoid, B: Monoid> {
    pub(crate) lock: Arc<LaneLock<A, B>, Global>,
    pub(crate) key: LaneKey<A, B>,
}

impl<A: Monoid, B: Monoid> Model for End<A, B> {
    ghost use Rattle.std.specs.Prelude.{◌≡◌};
    ghost use Rattle.std.specs.Arc.{arc_value};
    ghost use Rattle.ruled_lock.specs.Locks.{client_of, HoldsNothing};
    ghost use Rattle.aug_live.specs.inside.LaneKnowledge.{EndFacts};

    ghost Value = { EndFacts };

    ghost view = { λ e. record { lock = (arc_value e.lock).table.shared.table_id; known = client_of e.key } };

    ghost invariant = { λ e. (e.key.table_id ≡ (arc_value e.lock).table.shared.table_id) × HoldsNothing e.key };
}

/// The same while it has what lies in the lane.
#[derive(Drop)]
pub(crate) struct Out<A: Monoid, B: Monoid> {
    pub(crate) lock: Arc<LaneLock<A, B>, Global>,
    pub(crate) key: LaneKey<A, B>,
}

impl<A: Monoid, B: Monoid> Model for Out<A, B> {
    ghost use Rattle.std.specs.Prelude.{◌≡◌, IsSome, None, [], ◌∷◌};
    ghost use Rattle.std.specs.Arc.{arc_value};
    ghost use Rattle.ruled_lock.specs.Locks.{client_of};
    ghost use Rattle.aug_live.specs.inside.LaneKnowledge.{OutFacts, taken_by};

    ghost Value = { OutFacts };

    ghost view = { λ o. record { lock = (arc_value o.lock).table.shared.table_id; known = client_of o.key; taken = taken_by o.key.me.0.taken } };

    ghost invariant = { λ o. (o.key.table_id ≡ (arc_value o.lock).table.shared.table_id) × IsSome o.key.me.0.taken × (o.key.me.1 ≡ (8, None) ∷ []) };
}

/// A new lane, of which what lies there is taken out, and one more owner of its lock.
#[derive(Drop)]
pub(crate) struct Berth<A: Monoid, B: Monoid> {
    pub(crate) out: Out<A, B>,
    pub(crate) lane: Lane<A, B>,
    pub(crate) theirs: Arc<LaneLock<A, B>, Global>,
    ghost same_lock: { (arc_value theirs).table.shared.table_id ≡ out.lock },
}

impl<A: Monoid, B: Monoid> Berth<A, B> {
    /// A new lane, which no handle has.
    pub(crate) fn new(alloc: Global) -> Result<Berth<A, B>, AllocError>
        ensures known { IfOk result (λ b. b.out.known ≡ knows_nothing Alone) }
        ensures number { IfOk result (λ b. b.out.taken.number ≡ 0) }
    {
        let (lock, key) = RuledLock::new(alloc, Lane::new(alloc)?)?;
        let Ok(lock) = Arc::new(alloc, lock) else {
            return Err(AllocError);
        };
        let theirs = Arc::try_clone(&lock)?;
        match (End { lock, key }).take(&Tries) {
            Ok((out, lane)) => Ok(Berth { out, lane, theirs }),
            Err(_) => Err(AllocError),
        }
    }
}

impl<A: Monoid, B: Monoid> End<A, B> {
    /// Takes what lies in the lane for the handle with this number. If the lane has a newer handle, it stays there, and the end comes back, which has seen that.
    #[inline(always)]
    pub(crate) fn take_to_work(
        self,
        number: u64,
    ) -> Result<(Out<A, B>, Lane<A, B>), (End<A, B>, Obstacle)>
        requires handle { self.known.whose ≡ Handle }
        requires some { 0 < self.known.at.era }
        requires number { self.known.number ≡ number }
        ensures lock { IfOk result (λ t. t.0.lock ≡ self.lock) }
        ensures known { IfOk result (λ t. t.0.known ≡ self.known) }
        ensures taken { IfOk result (λ t. t.0.taken ≡ t.1) }
        ensures number { IfOk result (λ t. t.1.number ≡ self.known.number) }
        ensures follows { IfOk result (λ t. Follows self.known.at t.1.at) }
        ensures together { IfOk result (λ t. table_of t.1.at.half.round ≡ table_of self.known.at.half.round) }
        ensures stays { IfErr result (λ e. EndStays self e.0) }
        ensures seen { IfErr result (λ e. Seen e.1 e.0.known.replaced) }
    {
        match self.take(&Tries) {
            Ok((out, lane)) => {
                if lane.parts.number == number {
                    Ok((out, lane))
                } else {
                    Err((out.pass_by(lane), Obstacle::Replaced))
                }
            }
            Err((end, shown)) => Err((end, Obstacle::Held(shown))),
        }
    }

    /// Runs an operation with the pass of the lane, for the handle with this number, unless the lane is held, its round has to roll over first, or it has
    /// a newer handle.
    #[inline(always)]
    pub(crate) fn run<O: Operation<A, B>>(
        self,
        number: u64,
        round: &Round<A, B>,
        op: &mut O,
    ) -> (End<A, B>, Result<O::Answer, Obstacle>)
        requires handle { self.known.whose ≡ Handle }
        requires some { 0 < self.known.at.era }
        requires number { self.known.number ≡ number }
        requires together { table_of self.known.at.half.round ≡ round.now }
        requires needs { O.Needs op.old self.known.at.half.round.table self.known.at.half.round.bits }
        ensures same { IsSameEnd self result.0 }
        ensures made { IfOk result.1 (λ answer. EndRuns (O.Does op.old op.new answer) self result.0) }
        ensures not_made { IfErr result.1 (λ _. EndFollows self result.0) }
        ensures kept { IfErr result.1 (λ _. op.new ≡ op.old) }
        ensures seen { IfErr result.1 (λ obstacle. Seen obstacle result.0.known.replaced) }
    {
        let (out, lane) = match self.take_to_work(number) {
            Ok(taken) => taken,
            Err((same, obstacle)) => return (same, Err(obstacle)),
        };
        let (lane, done) = lane.run(round, op);
        (out.put(lane), done)
    }

    /// Takes what lies in the lane.
    #[inline(always)]
    pub(crate) fn take<W: Patience>(
        self,
        how: &W,
    ) -> Result<(Out<A, B>, Lane<A, B>), (End<A, B>, W::GaveUp)>
        ensures lock { IfOk result (λ t. t.0.lock ≡ self.lock) }
        ensures known { IfOk result (λ t. t.0.known ≡ self.known) }
        ensures taken { IfOk result (λ t. t.0.taken ≡ t.1) }
        ensures knows { IfOk result (λ t. Learnt self.known t.1) }
        ensures same { IfErr result (λ e. e.0 ≡ self) }
    {
        let End { lock, mut key } = self;
        match lock.take::<Learn, W>(how, &mut key) {
            Ok(lane) => Ok((Out { lock, key }, lane)),
            Err(missed) => Err((End { lock, key }, missed)),
        }
    }

    /// Gives the pass of the lane back to its crew, and puts the next one of the round in.
    pub(crate) fn replace<W: Patience>(
        &mut self,
        how: &W,
        round: &Round<A, B>,
        crew: &mut Crew<A, B>,
    ) -> Result<(), W::GaveUp>
        requires together { table_of crew.old.round ≡ round.now }
        requires of_round { IsOf (rounds_in crew.old) self.old.known.at.era self.old }
        requires some { 0 < self.old.known.at.era }
        requires lane_left { crew.old.handed < crew.old.round.workers }
        ensures of_round { IfOk result (λ _. IsOf (rounds_in crew.old) self.old.known.at.era self.new) }
        ensures changes { IfOk result (λ _. (changes : List Change) × (crew.new.knows.accepted ≡ crew.old.knows.accepted ++ changes) × (kept_of self.new ≡ given changes self.old)) }
        ensures goes_on { IfOk result (λ _. IsPrefix crew.old.knows.history crew.new.knows.history) }
        ensures round { IfOk result (λ _. rounds_in crew.new ≡ rounds_in crew.old) }
        ensures handed { IfOk result (λ _. crew.new.handed ≡ crew.old.handed + 1) }
        ensures back { IfOk result (λ _. crew.new.back ≡ crew.old.back + 1) }
        ensures same { IfErr result (λ _. (self.new ≡ self.old) × (crew.new ≡ crew.old)) }
    {
        match self.lock.take::<Learn, W>(how, &mut self.key) {
            Ok(lane) => {
                let (spent, rest) = lane.into_work();
                crew.back(round.pass(spent));
                let work = start(round, crew);
                self.lock.put::<Deal>(&mut self.key, rest.with(work));
                Ok(())
            }
            Err(missed) => Err(missed),
        }
    }

    /// Takes in the end of the handle with this number, which came back. If the lane has a newer handle, or it is not to be had, that end comes back.
    pub(crate) fn take_in<W: Patience>(
        &mut self,
        how: &W,
        number: u64,
        other: End<A, B>,
    ) -> Result<(), (End<A, B>, TryError<W::GaveUp>)>
        requires port { IsPort self.old.known.whose }
        requires handle { other.known.whose ≡ Handle }
        requires some { (0 < self.old.known.at.era) × (0 < other.known.at.era) }
        requires number { other.known.number ≡ number }
        requires lock { other.lock ≡ self.old.lock }
        ensures was { IfOk result (λ _. self.old.known.whose ≡ Roller) }
        ensures whose { IfOk result (λ _. self.new.known.whose ≡ Idle) }
        ensures same { IfOk result (λ _. rounds_at self.new.known.at.half ≡ rounds_at self.old.known.at.half) }
        ensures era { IfOk result (λ _. self.new.known.at.era ≡ self.old.known.at.era) }
        ensures works { IfOk result (λ _. self.new.known.works ≡ self.old.known.works) }
        ensures done { IfOk result (λ _. kept_of self.new ≡ kept_of (record self.old { known = record (taken_in self.old.known other.known) { whose = Idle } })) }
        ensures kept { IfErr result (λ e. (self.new ≡ self.old) × (e.0 ≡ other)) }
        ensures refused { IfErr result (λ e. IfRefused (λ cause. (cause ≡ LiveError.Replaced) × ((self.old.known.number ≢ number) ⊎ (is_out_by self.old.known.whose ≡ false))) e.1) }
    {
        match self.lock.take::<Learn, W>(how, &mut self.key) {
            Ok(lane) => {
                if lane.parts.number == number && lane.parts.is_out {
                    let End { key, .. } = other;
                    self.lock.join::<Meet>(&mut self.key, key);
                    self.lock.put::<Settle>(&mut self.key, lane.settled());
                    Ok(())
                } else {
                    self.lock.put::<Keep>(&mut self.key, lane);
                    Err((other, TryError::Refused(LiveError::Replaced)))
                }
            }
            Err(missed) => Err((other, TryError::Again(missed))),
        }
    }

    /// Gives the lane to a new handle, whose end it answers. The two ends know all that the crew does. An older handle finds its lane given on.
    pub(crate) fn renew<W: Patience>(
        &mut self,
        how: &W,
        number: u64,
        theirs: Arc<LaneLock<A, B>, Global>,
        round: &Round<A, B>,
        crew: &mut Crew<A, B>,
    ) -> Result<End<A, B>, W::GaveUp>
        requires of_round { IsOf (rounds_in crew.old) self.old.known.at.era self.old }
        requires some { 0 < self.old.known.at.era }
        requires newer { self.old.known.number < number }
        requires owner { (arc_value theirs).table.shared.table_id ≡ self.old.lock }
        requires together { table_of crew.old.round ≡ round.now }
        ensures port { IfOk result (λ _. IsOf (rounds_in crew.old) self.old.known.at.era self.new) }
        ensures gets { IfOk result (λ _. GetsHandle number self.old self.new) }
        ensures handle { IfOk result (λ e. IsHandleEnd number (table_of crew.old.round) e × (e.lock ≡ self.old.lock) × (e.known.made ≡ [])) }
        ensures at { IfOk result (λ e. e.known.at ≡ self.new.known.at) }
        ensures knows { IfOk result (λ _. IsPart (crew_chain crew.old) (chain_of self.new.known.at.half)) }
        ensures same { crew.new ≡ crew.old }
        ensures missed { IfErr result (λ _. self.new ≡ self.old) }
    {
        match self.lock.take::<Learn, W>(how, &mut self.key) {
            Ok(lane) => {
                let (work, rest) = lane.into_work();
                let mut pass = round.pass(work);
                pass.learn(crew.note(round));
                let era = rest.parts.era;
                let lane = rest.working(era, number, pass.into_half());
                self.lock.put::<Renumber>(&mut self.key, lane);
                let key = self.lock.another::<Parts>(&mut self.key);
                Ok(End { lock: theirs, key })
            }
            Err(missed) => Err(missed),
        }
    }
}

impl<A: Monoid, B: Monoid> Out<A, B> {
    /// Puts the lane back, with what its handle made of it.
    #[inline(always)]
    pub(crate) fn put(self, lane: Lane<A, B>) -> End<A, B>
        requires handle { self.known.whose ≡ Handle }
        requires some { 0 < self.known.at.era }
        requires number { self.taken.number ≡ self.known.number }
        requires worked { Worked self.taken lane }
        ensures { result ≡ record { lock = self.lock; known = worked self.known self.taken lane } }
    {
        let Out { lock, mut key } = self;
        lock.put::<Work>(&mut key, lane);
        End { lock, key }
    }

    /// Puts the lane back as it was, which has a newer handle than the one whose end this is.
    pub(crate) fn pass_by(self, lane: Lane<A, B>) -> End<A, B>
        requires handle { self.known.whose ≡ Handle }
        requires other { self.known.number ≢ self.taken.number }
        requires same { lane ≡ self.taken }
        ensures { result ≡ record { lock = self.lock; known = passed_by self.known } }
    {
        let Out { lock, mut key } = self;
        lock.put::<PassBy>(&mut key, lane);
        End { lock, key }
    }
}
