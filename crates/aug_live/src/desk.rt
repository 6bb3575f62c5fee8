//! The desk: the round that goes on, and the roller's ends of all lanes.
ghost use Rattle.std.specs.Prelude.{◌≡◌, ◌+◌, ◌<◌, ◌≤◌, true, IfOk, IfErr, length};
ghost use Rattle.std.specs.Arc.{arc_value};
ghost use mathlib.Core.Option.{some};
ghost use lib.ListN.{get_elem?};
ghost use Rattle.atomic_table.specs.Seated.{TableId};
ghost use Rattle.aug_trie.specs.Note.{chain_of_note};
ghost use Rattle.aug_trie.specs.Chains.{IsPart};
ghost use Rattle.aug_trie.specs.Round.{table_of};
ghost use Rattle.aug_live.specs.LiveErrors.{IfRefused, RefusesBack, RefusesLane, RefusesRoll};
ghost use Rattle.aug_live.specs.LiveHandles.{IsHandleOf};
ghost use Rattle.aug_live.specs.LiveTries.{CameBack, Closes, KeepsHandles, KnowsMore, ids_of};
ghost use Rattle.aug_live.specs.inside.LaneKnowledge.{IsSameEnd};
ghost use Rattle.aug_live.specs.inside.Looks.{EndShows, HasReaders};
ghost use Rattle.aug_live.specs.declared.known.Whose.TheVariants as whose;

use crate::ahead::{Ahead, PIECE, Pace, SHARE};
use crate::counts::LiveCounts;
use crate::desk_end::DeskEnd;
use crate::end::End;
use crate::error::{LiveError, TryError};
use crate::handle::Handle;
use crate::held::{Emptied, Held};
use crate::operation::Show;
use crate::plan::Plan;
use crate::rolling::{deal_all, finish, give_all, put_all_back, take_all};
use crate::slot::{SlotEnd, end_of, may_renew};
use crate::work::SharedRound;
use aug_monoid::Monoid;
use aug_trie::{Crew, Members, Note, Round, Snapshot};
use ruled_lock::Patience;
use std::marker::Model;
use std::sync::Arc;

// A round counts fewer than 2^32 keys put in or taken out. With no more than this before it, the next one can be counted too.
const MOST_BEFORE: u64 = u64::MAX - 2 * u32::MAX as u64;

/// A round that goes on, its crew and the roller's ends of all lanes. What it takes to end the round and to begin the next is there.
#[derive(Drop)]
pub(crate) struct Working<A: Monoid, B: Monoid> {
    pub(crate) plan: Plan,
    pub(crate) counts: LiveCounts,
    pub(crate) bits: u32,
    pub(crate) round: SharedRound<A, B>,
    pub(crate) crew: Crew<A, B>,
    pub(crate) ports: Vec<End<A, B>>,
    // Where the readers of the lanes lie, the last lane first.
    pub(crate) slots: Vec<SlotEnd<A, B>>,
    // The last lanes, the last one first, if a roll-over took them and waits for the others.
    pub(crate) held: Vec<Held<A, B>>,
    // Room for them once their passes are back, and for the members once the trie is closed.
    pub(crate) idle: Vec<Emptied<A, B>>,
    pub(crate) list: Vec<(u32, u32)>,
}

impl<A: Monoid, B: Monoid> Model for Working<A, B> {
    ghost use Rattle.std.specs.Prelude.{◌≡◌, ◌+◌, ◌++◌, ◌≤◌, ◌^◌, [], All, Some, map, reverse, vec_len, vec_capacity, false};
    ghost use Rattle.std.specs.Arc.{arc_value};
    ghost use Rattle.aug_trie.specs.Crew.{crew_chain};
    ghost use Rattle.aug_live.specs.LiveTries.{TrieFacts};
    ghost use Rattle.aug_live.specs.inside.Desks.{IsWorking};
    ghost use Rattle.aug_live.specs.inside.LaneKnowledge.{lane_by};

    ghost Value = { TrieFacts };

    ghost view = { λ w. record { closed = false; table = (arc_value w.round).table; bits = (arc_value w.round).bits; lanes = map lane_by (w.ports.items ++ reverse w.held.items); held = vec_len w.held; given = w.counts.handles; rounds = crew_chain w.crew } };

    ghost invariant = { λ w. IsWorking w.plan.lanes w.plan.updates w.counts (arc_value w.round) w.crew (w.ports.items ++ reverse w.held.items) (vec_len w.ports + vec_len w.held)
        × (w.idle.items ≡ []) × (vec_len w.ports + vec_len w.held ≤ vec_capacity w.ports) × (vec_len w.ports + vec_len w.held ≤ vec_capacity w.held)
        × (vec_len w.ports + vec_len w.held ≤ vec_capacity w.idle)
        × (w.list.items ≡ []) × (2 ^ (arc_value w.round).bits ≤ vec_capacity w.list) × ((arc_value w.round).bits ≡ w.bits)
        × All (λ s. s ≡ Some (arc_value w.round)) w.slots.items × (vec_len w.slots ≡ vec_len w.ports + vec_len w.held) };
}

impl<A: Monoid, B: Monoid> Working<A, B> {
    /// Ends the round: its set, and the counts of all rounds. If a handle is in a call, the round comes back.
    pub(crate) fn stop<W: Patience>(
        self,
        how: &W,
    ) -> Result<(Members, LiveCounts), (Working<A, B>, W::GaveUp)>
        ensures closes { IfOk result (λ t. Closes self t.0 t.1) }
        ensures sizes { IfOk result (λ t. length t.0.pairs + t.1.removals ≡ t.1.opened + t.1.inserts) }
        ensures goes_on { IfErr result (λ e. KeepsHandles self e.0) }
    {
        let mut working = self;
        if let Err(missed) = take_all(how, &mut working.ports, &mut working.held) {
            return Err((working, missed));
        }
        let Working {
            counts,
            round,
            crew,
            held,
            idle,
            list,
            ..
        } = working;
        let (set, inserts, removals) = finish(counts.rounds, &round, crew, held, idle, list);
        let inserts = counts.inserts + u64::from(inserts);
        let removals = counts.removals + u64::from(removals);
        let counts = LiveCounts {
            inserts,
            removals,
            ..counts
        };
        Ok((set, counts))
    }

    /// Ends the round and begins the next one in its memory, so that nothing is asked for. If a handle is in a call, the lanes that were taken stay
    /// so, for whoever rolls the round over next. If the counts might not go further, the round goes on. So it does, with `false`, if readers are out in
    /// each other part of the table; then no lane stays taken.
    pub(crate) fn roll<W: Patience>(
        self,
        how: &W,
    ) -> (Working<A, B>, Result<bool, TryError<W::GaveUp>>)
        ensures goes_on { KeepsHandles self result.0 }
        ensures rolls { IfOk result.1 (λ rolled. rolled ≡ true → length self.rounds.past < length result.0.rounds.past) }
        ensures settled { IfOk result.1 (λ _. result.0.held ≡ 0) }
        ensures refused { IfErr result.1 (IfRefused (RefusesRoll result.0)) }
    {
        let mut working = self;
        let counts = working.counts;
        if counts.rounds == u64::MAX
            || counts.inserts > MOST_BEFORE
            || counts.removals > MOST_BEFORE
        {
            return (working, Err(TryError::Refused(LiveError::Exhausted)));
        }
        if !may_renew(
            &working.round,
            &mut working.crew,
            &mut working.slots,
            counts.rounds,
        ) {
            put_all_back(&mut working.ports, &mut working.held);
            return (working, Ok(false));
        }
        if let Err(missed) = take_all(how, &mut working.ports, &mut working.held) {
            return (working, Err(TryError::Again(missed)));
        }
        let Working {
            plan,
            bits,
            round,
            mut crew,
            mut ports,
            slots,
            mut held,
            mut idle,
            list,
            ..
        } = working;
        give_all(counts.rounds, &round, &mut crew, &mut held, &mut idle);
        let (mut crew, inserts, removals) = round.renew(crew);
        deal_all(counts.rounds, &round, &mut crew, &mut idle, &mut ports);
        let working = Working {
            plan,
            counts: LiveCounts {
                rounds: counts.rounds + 1,
                inserts: counts.inserts + u64::from(inserts),
                removals: counts.removals + u64::from(removals),
                ..counts
            },
            bits,
            round,
            crew,
            ports,
            slots,
            held,
            idle,
            list,
        };
        (working, Ok(true))
    }

    /// Has the crew lay the next round out further, by about so many nodes, if this round is near its end. Where a roll-over was begun it does
    /// nothing, since that does all that is left.
    pub(crate) fn prepare(&mut self, nodes: u32) -> Ahead
        ensures goes_on { KeepsHandles self.old self.new }
        ensures held { self.new.held ≡ self.old.held }
        ensures past { self.new.rounds.past ≡ self.old.rounds.past }
    {
        if !self.held.is_empty() {
            return Ahead {
                after: PIECE,
                more: false,
            };
        }
        let spare = self.plan.lanes.saturating_sub(self.crew.handed());
        let left = u64::from(spare).saturating_mul(u64::from(self.plan.updates));
        let late = 1u64.wrapping_shl(self.bits) / SHARE;
        if left > late {
            // All handles make updates, so each makes a part of these.
            let handles = (self.ports.len() as u64).max(1);
            let after = (left - late) / handles;
            let after = u32::try_from(after).unwrap_or(u32::MAX).max(PIECE);
            return Ahead { after, more: false };
        }
        may_renew(
            &self.round,
            &mut self.crew,
            &mut self.slots,
            self.counts.rounds,
        );
        let done = self.crew.prepare(&self.round, nodes);
        Ahead {
            after: PIECE,
            more: !done,
        }
    }

    /// Rolls the round over if that was begun.
    pub(crate) fn settle<W: Patience>(
        self,
        how: &W,
    ) -> (Working<A, B>, Result<(), TryError<W::GaveUp>>)
        ensures goes_on { KeepsHandles self result.0 }
        ensures settled { IfOk result.1 (λ _. result.0.held ≡ 0) }
        ensures refused { IfErr result.1 (IfRefused (RefusesRoll result.0)) }
    {
        if self.held.is_empty() {
            return (self, Ok(()));
        }
        match self.roll(how) {
            (working, Ok(_)) => (working, Ok(())),
            (working, Err(cause)) => (working, Err(cause)),
        }
    }

    /// Rolls the round over if that was begun, and then sees to it that a lane has a pass, if it was spent in this era: that of a newer round, a spare
    /// lane of the same, or one of the next, which then begins. False if that cannot begin, as `roll` says.
    pub(crate) fn refill<W: Patience>(
        self,
        how: &W,
        spent: Option<(u64, usize)>,
    ) -> (Working<A, B>, Result<bool, TryError<W::GaveUp>>)
        ensures goes_on { KeepsHandles self result.0 }
        ensures refused { IfErr result.1 (IfRefused (RefusesRoll result.0)) }
    {
        let (mut working, settled) = self.settle(how);
        if let Err(cause) = settled {
            return (working, Err(cause));
        }
        let Some((era, lane)) = spent else {
            return (working, Ok(true));
        };
        match working.goes_on(how, era, lane) {
            Ok(true) => (working, Ok(true)),
            Ok(false) => working.roll(how),
            Err(missed) => (working, Err(TryError::Again(missed))),
        }
    }

    /// Whether the round of this era is over, or goes on with a spare lane in the place of the one with this number.
    fn goes_on<W: Patience>(&mut self, how: &W, era: u64, lane: usize) -> Result<bool, W::GaveUp>
        requires settled { self.old.held ≡ 0 }
        ensures goes_on { KeepsHandles self.old self.new }
    {
        if self.counts.rounds != era {
            return Ok(true);
        }
        if self.crew.handed() == self.plan.lanes || lane >= self.ports.len() {
            return Ok(false);
        }
        self.ports[lane].replace(how, &self.round, &mut self.crew)?;
        Ok(true)
    }

    /// Takes a snapshot for a look with the end of a lane. The reader of the look before goes to the pass that lent it, or to the crew, where that pass is.
    /// None if something is in the way of the lane.
    pub(crate) fn show(
        &mut self,
        end: End<A, B>,
        number: u64,
        round: &Round<A, B>,
        show: &mut Show<A, B>,
    ) -> (End<A, B>, Option<Snapshot>)
        requires handle { end.known.whose ≡ whose.Handle }
        requires some { 0 < end.known.at.era }
        requires number { end.known.number ≡ number }
        requires together { table_of end.known.at.half.round ≡ round.now }
        requires table { self.old.table ≡ round.now.table }
        requires readers { HasReaders show.old.reader show.old.left round.now.table }
        ensures working { self.new ≡ self.old }
        ensures same { IsSameEnd end result.0 }
        ensures shows { EndShows show.old.reader show.new.reader show.new.left show.new.era result.1 end result.0 }
    {
        show.at_desk = true;
        let (end, done) = end.run(number, round, show);
        show.at_desk = false;
        if let Some(reader) = show.left.take() {
            // A reader that its crew does not count, as there are too many, is dropped.
            let _ = self.crew.take_reader(&self.round, reader);
        }
        match done {
            Ok(shown) => (end, shown),
            Err(_) => (end, None),
        }
    }

    /// Has the crew know what a note of this trie tells.
    pub(crate) fn learn(self, note: Note<A, B>) -> Working<A, B>
        requires { note.round.table ≡ self.table }
        ensures goes_on { KeepsHandles self result }
        ensures held { result.held ≡ self.held }
        ensures learns { IsPart (chain_of_note note) result.rounds }
    {
        let mut working = self;
        working.crew.learn(&working.round, note);
        working
    }

    /// Takes back the handle of a lane, by its end. Refused with `Replaced` if the lane has a newer one, or took it back before; then the same end comes back.
    pub(crate) fn back<W: Patience>(
        &mut self,
        how: &W,
        lane: usize,
        number: u64,
        end: End<A, B>,
    ) -> Result<(), (End<A, B>, TryError<W::GaveUp>)>
        requires settled { self.old.held ≡ 0 }
        requires handle { end.known.whose ≡ whose.Handle }
        requires some { 0 < end.known.at.era }
        requires number { end.known.number ≡ number }
        requires lane { lane < length self.old.lanes }
        requires lock { (id : TableId) → get_elem? (ids_of self.old) lane ≡ some id → end.lock ≡ id }
        ensures goes_on { KeepsHandles self.old self.new }
        ensures takes { IfOk result (λ _. CameBack end.known.made self.old self.new) }
        ensures same { IfErr result (λ e. e.0 ≡ end) }
        ensures refused { IfErr result (λ e. IfRefused (RefusesBack lane number self.new) e.1) }
    {
        match self.ports[lane].take_in(how, number, end) {
            Ok(()) => {
                self.counts.missing -= 1;
                Ok(())
            }
            Err(refused) => Err(refused),
        }
    }

    /// Gives a lane to a new handle with this end of the desk. The handle knows all that the crew does.
    ///
    /// Refused with `NoLane`, with `Exhausted` if the handles cannot be counted further, and with `TooMany`.
    pub(crate) fn give<W: Patience>(
        &mut self,
        how: &W,
        lane: usize,
        desk: DeskEnd<A, B>,
    ) -> Result<Handle<A, B>, TryError<W::GaveUp>>
        requires settled { self.old.held ≡ 0 }
        requires desk { ids_of desk ≡ ids_of self.old }
        requires table { desk.table ≡ self.old.table }
        ensures more { KnowsMore self.old self.new }
        ensures given { IfOk result (λ _. self.new.given ≡ self.old.given + 1) }
        ensures none_given { IfErr result (λ _. self.new.given ≡ self.old.given) }
        ensures bits { IfOk result (λ h. h.half.round.bits ≤ 16) }
        ensures of_trie { IfOk result (IsHandleOf lane self.new) }
        ensures refused { IfErr result (IfRefused (RefusesLane lane self.new)) }
    {
        if lane >= self.ports.len() {
            return Err(TryError::Refused(LiveError::NoLane));
        }
        if self.counts.handles == u64::MAX || self.counts.missing == u64::MAX {
            return Err(TryError::Refused(LiveError::Exhausted));
        }
        let port = &self.ports[lane];
        let Ok(theirs) = Arc::try_clone(&port.lock) else {
            return Err(TryError::Refused(LiveError::TooMany));
        };
        let Ok(round) = Arc::try_clone(&self.round) else {
            return Err(TryError::Refused(LiveError::TooMany));
        };
        let Ok(slot) = end_of(&self.round, &mut self.slots, lane) else {
            return Err(TryError::Refused(LiveError::TooMany));
        };
        let number = self.counts.handles + 1;
        match self.ports[lane].renew(how, number, theirs, &round, &mut self.crew) {
            Ok(end) => {
                self.counts.handles = number;
                self.counts.missing += 1;
                Ok(Handle {
                    end: Some(end),
                    bits: self.bits,
                    lane,
                    number,
                    pace: Pace::after(PIECE),
                    round,
                    slot,
                    desk,
                })
            }
            Err(missed) => Err(TryError::Again(missed)),
        }
    }
}
