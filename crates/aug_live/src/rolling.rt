//! The end of a round whose passes lie in the lanes, and the beginning of the next.
ghost use Rattle.std.specs.Prelude.{◌≡◌, ℕ, true, ◌+◌, ◌<◌, ◌≤◌, ◌^◌, List, [], ◌++◌, All, IfOk, IfErr, Some, vec_len, vec_capacity, length, map, flat_map, reverse};
ghost use Rattle.std.specs.Arc.{arc_value};
ghost use Rattle.aug_model.specs.Keys.{IsKeySet, keys_of};
ghost use Rattle.aug_core.specs.Layout.{IsLayout};
ghost use Rattle.aug_core.specs.Places.{shape_of};
ghost use Rattle.aug_trie.specs.Crew.{BeginsIn};
ghost use Rattle.aug_trie.specs.Ended.{EndedFacts, set_of_ended};
ghost use Rattle.aug_trie.specs.Round.{table_of};
ghost use Rattle.aug_core.specs.Prefixes.{IsPrefix};
ghost use Rattle.aug_live.specs.Carrying.{Leads};
ghost use Rattle.aug_live.specs.inside.LaneKnowledge.{knows_nothing, rolls};
ghost use Rattle.aug_live.specs.inside.Rolls.{FinishesRound, HasEnded, IsBackIn, IsOf, IsOpenedLane, Starts, accepted_by, given_all, kept_of, rounds_in};
ghost use Rattle.aug_live.specs.declared.known.Whose.TheVariants.{Alone};

use crate::desk_end::DeskLock;
use crate::end::{Berth, End, Out};
use crate::held::{Emptied, Held};
use crate::plan::Plan;
use crate::slot::SlotEnd;
use crate::tie::{Parts, Renumber};
use crate::work::{SharedRound, start};
use aug_monoid::Monoid;
use aug_trie::{Crew, Members, Round};
use ruled_lock::Patience;
use std::alloc::{AllocError, AllocFailed, Global};
use std::marker::Model;
use std::snapshot::Snapshot;
use std::sync::Arc;

/// What each handle owns a part of.
#[derive(Drop)]
pub(crate) struct Share<A: Monoid, B: Monoid> {
    pub(crate) round: SharedRound<A, B>,
    pub(crate) slot: SlotEnd<A, B>,
    pub(crate) desk: Arc<DeskLock<A, B>, Global>,
}

impl<A: Monoid, B: Monoid> Model for Share<A, B> {
    ghost use Rattle.std.specs.Prelude.{◌≡◌, Some};
    ghost use Rattle.std.specs.Arc.{arc_value};
    ghost use Rattle.atomic_table.specs.Seated.{TableId};
    ghost use Rattle.aug_trie.specs.Round.{TableFacts};

    ghost Value = { TableFacts × TableId };

    ghost view = { λ s. (arc_value s.round, (arc_value s.desk).table.shared.table_id) };

    ghost invariant = { λ s. s.slot ≡ Some (arc_value s.round) };
}

/// A round that was begun, with what each handle owns a part of.
#[derive(Drop)]
pub(crate) struct Begun<A: Monoid, B: Monoid> {
    pub(crate) round: SharedRound<A, B>,
    pub(crate) crew: Crew<A, B>,
    pub(crate) list: Vec<(u32, u32)>,
    pub(crate) shares: Vec<Share<A, B>>,
    pub(crate) slots: Vec<SlotEnd<A, B>>,
}

/// Begins a round over a set of a plan, as `Live` does, with `handles` owners more of it and of the desk. It is refused only for lack of memory, and
/// then the same set comes back.
pub(crate) fn next_round<A: Monoid, B: Monoid>(
    alloc: Global,
    set: Members,
    plan: Plan,
    list: Vec<(u32, u32)>,
    shares: Vec<Share<A, B>>,
    slots: Vec<SlotEnd<A, B>>,
    desk: &Arc<DeskLock<A, B>, Global>,
    handles: u32,
) -> Result<Begun<A, B>, Members>
    requires laid_out { IsLayout (shape_of set.bits plan.lanes plan.updates (2 ^ set.bits)) }
    requires tables { 2 ≤ plan.tables }
    requires few { length set.pairs ≤ 2 ^ set.bits }
    requires list { (list.items ≡ []) × (2 ^ set.bits ≤ vec_capacity list) }
    requires shares { (shares.items ≡ []) × (handles ≤ vec_capacity shares) }
    requires slots { (slots.items ≡ []) × (handles ≤ vec_capacity slots) }
    ensures begun { IfOk result (λ t. BeginsIn (2 ^ set.bits) set.pairs set.bits plan.lanes plan.updates (arc_value t.round) t.crew) }
    ensures list { IfOk result (λ t. t.list ≡ list) }
    ensures shares { IfOk result (λ t. All (λ s. s ≡ (arc_value t.round, (arc_value desk.now).table.shared.table_id)) t.shares.items × (vec_len t.shares ≡ handles)) }
    ensures slots { IfOk result (λ t. All (λ s. s ≡ Some (arc_value t.round)) t.slots.items × (vec_len t.slots ≡ handles)) }
    ensures same { IfErr result (λ e. e ≡ set) }
{
    // For the proof alone: how many bits keys have at most.
    let _universe = set.universe();
    let old = Snapshot::of(&set);
    let (round, crew) = Round::begin_for_all(alloc, set, plan.lanes, plan.updates, plan.tables)?;
    let round = match Arc::new(alloc, round) {
        Ok(round) => round,
        Err(failed) => {
            let AllocFailed { value } = failed;
            return Err(taken_back(old, &value, crew, list));
        }
    };
    let (mut shares, mut slots) = (shares, slots);
    for _ in 0..handles {
        match make_share(alloc, &round, desk) {
            Ok((share, slot)) => {
                shares.push_reserved(share);
                slots.push_reserved(slot);
            }
            Err(_) => return Err(taken_back(old, &round, crew, list)),
        }
    }
    Ok(Begun {
        round,
        crew,
        list,
        shares,
        slots,
    })
}

// One more owner of each, with a slot of which the desk has the other end.
fn make_share<A: Monoid, B: Monoid>(
    alloc: Global,
    round: &SharedRound<A, B>,
    desk: &Arc<DeskLock<A, B>, Global>,
) -> Result<(Share<A, B>, SlotEnd<A, B>), AllocError>
    ensures share { IfOk result (λ t. t.0 ≡ (arc_value round.now, (arc_value desk.now).table.shared.table_id)) }
    ensures slot { IfOk result (λ t. t.1 ≡ Some (arc_value round.now)) }
{
    let (ours, slot) = SlotEnd::pair(alloc, round)?;
    let share = Share {
        round: Arc::try_clone(round)?,
        slot,
        desk: Arc::try_clone(desk)?,
    };
    Ok((share, ours))
}

// Ends a round that nobody worked in.
fn taken_back<A: Monoid, B: Monoid>(
    set: Snapshot<Members>,
    round: &Round<A, B>,
    crew: Crew<A, B>,
    list: Vec<(u32, u32)>,
) -> Members
    requires keys { IsKeySet set.value.bits (keys_of set.value.pairs) }
    requires begun { (lanes updates : ℕ) × BeginsIn (2 ^ set.value.bits) set.value.pairs set.value.bits lanes updates round.now crew }
    requires list { (list.items ≡ []) × (2 ^ set.value.bits ≤ vec_capacity list) }
    ensures { result ≡ set.value }
{
    let (set, _, _) = round.finish(crew, list);
    set
}

impl<A: Monoid, B: Monoid> Berth<A, B> {
    /// Puts a pass of the first round in, and makes the end of the lane's first handle.
    pub(crate) fn open(self, round: &Round<A, B>, crew: &mut Crew<A, B>) -> (End<A, B>, End<A, B>)
        requires first { self.out.known ≡ knows_nothing Alone }
        requires number { self.out.taken.number ≡ 0 }
        requires together { table_of crew.old.round ≡ round.now }
        requires first_era { crew.old.round.era ≡ 0 }
        requires lane_left { crew.old.handed < crew.old.round.workers }
        ensures of_round { IsOf (rounds_in crew.old) 1 result.0 }
        ensures opened { IsOpenedLane result.0 }
        ensures handle { Starts (rounds_in crew.old) result.1 }
        ensures lock { result.1.lock ≡ result.0.lock }
        ensures same_changes { crew.new.knows.accepted ≡ crew.old.knows.accepted }
        ensures round { rounds_in crew.new ≡ rounds_in crew.old }
        ensures handed { crew.new.handed ≡ crew.old.handed + 1 }
        ensures back { crew.new.back ≡ crew.old.back }
    {
        let Berth { out, lane, theirs } = self;
        let Out { lock, mut key } = out;
        let work = start(round, crew);
        lock.put::<Renumber>(&mut key, lane.working(1, 1, work));
        let other = lock.another::<Parts>(&mut key);
        (
            End { lock, key },
            End {
                lock: theirs,
                key: other,
            },
        )
    }
}

/// Takes what lies in each lane, from the last lane on, unless a handle is in a call there. The lanes that it took stay taken.
pub(crate) fn take_all<W: Patience, A: Monoid, B: Monoid>(
    how: &W,
    ports: &mut Vec<End<A, B>>,
    held: &mut Vec<Held<A, B>>,
) -> Result<(), W::GaveUp>
    requires rolls { All (λ e. (rolls e.known.whose ≡ true) × (0 < e.known.at.era)) ports.old.items }
    requires room { vec_len ports.old + vec_len held.old ≤ vec_capacity held.old }
    ensures same { ports.new.items ++ reverse held.new.items ≡ ports.old.items ++ reverse held.old.items }
    ensures len { vec_len ports.new + vec_len held.new ≡ vec_len ports.old + vec_len held.old }
    ensures all { IfOk result (λ _. ports.new.items ≡ []) }
    ensures room { vec_capacity ports.new ≡ vec_capacity ports.old }
    ensures held_room { vec_capacity held.new ≡ vec_capacity held.old }
{
    while let Some(port) = ports.pop() {
        match port.take(how) {
            Ok((out, lane)) => held.push_reserved(Held { out, lane }),
            Err((port, missed)) => {
                ports.push_reserved(port);
                return Err(missed);
            }
        }
    }
    Ok(())
}

/// Lets all lanes go that were taken, as they were.
pub(crate) fn put_all_back<A: Monoid, B: Monoid>(
    ports: &mut Vec<End<A, B>>,
    held: &mut Vec<Held<A, B>>,
)
    requires room { vec_len ports.old + vec_len held.old ≤ vec_capacity ports.old }
    ensures same { ports.new.items ++ reverse held.new.items ≡ ports.old.items ++ reverse held.old.items }
    ensures len { vec_len ports.new + vec_len held.new ≡ vec_len ports.old + vec_len held.old }
    ensures none { held.new.items ≡ [] }
    ensures room { vec_capacity ports.new ≡ vec_capacity ports.old }
    ensures held_room { vec_capacity held.new ≡ vec_capacity held.old }
{
    while let Some(one) = held.pop() {
        ports.push_reserved(one.put_back());
    }
}

/// Gives the pass of each lane that was taken back to its crew, from the last lane on.
pub(crate) fn give_all<A: Monoid, B: Monoid>(
    era: u64,
    round: &Round<A, B>,
    crew: &mut Crew<A, B>,
    held: &mut Vec<Held<A, B>>,
    idle: &mut Vec<Emptied<A, B>>,
)
    requires together { table_of crew.old.round ≡ round.now }
    requires of_round { All (IsOf (rounds_in crew.old) era) held.old.items }
    requires some { 0 < era }
    requires empty { idle.old.items ≡ [] }
    requires room { vec_len held.old ≤ vec_capacity idle.old }
    ensures back { All (IsBackIn (rounds_in crew.old) era crew.new.knows.history) idle.new.items }
    ensures kept { map kept_of idle.new.items ≡ map kept_of held.old.items }
    ensures changes { crew.new.knows.accepted ≡ crew.old.knows.accepted ++ flat_map accepted_by idle.new.items }
    ensures len { vec_len idle.new ≡ vec_len held.old }
    ensures none_left { held.new.items ≡ [] }
    ensures room { (vec_capacity held.new ≡ vec_capacity held.old) × (vec_capacity idle.new ≡ vec_capacity idle.old) }
    ensures goes_on { IsPrefix crew.old.knows.history crew.new.knows.history }
    ensures round { rounds_in crew.new ≡ rounds_in crew.old }
    ensures handed { crew.new.handed ≡ crew.old.handed }
    ensures counted { crew.new.back ≡ crew.old.back + vec_len held.old }
    ensures free { crew.new.free ≡ crew.old.free }
{
    held.reverse();
    while let Some(one) = held.pop() {
        idle.push_reserved(one.give_back(round, crew));
    }
}

/// Puts a pass of the next round into each lane, the last lane of the list first, and lets the lanes go.
pub(crate) fn deal_all<A: Monoid, B: Monoid>(
    era: u64,
    round: &Round<A, B>,
    crew: &mut Crew<A, B>,
    idle: &mut Vec<Emptied<A, B>>,
    ports: &mut Vec<End<A, B>>,
)
    requires ready { All (HasEnded (table_of crew.old.round) crew.old.past era) idle.old.items }
    requires led { Leads crew.old.round.bits crew.old.past crew.old.round.members }
    requires some { 0 < era }
    requires small { era + 1 < 2 ^ 64 }
    requires era { crew.old.round.era ≡ era }
    requires together { table_of crew.old.round ≡ round.now }
    requires none_out { crew.old.handed ≡ 0 }
    requires lanes { vec_len idle.old ≤ crew.old.round.workers }
    requires empty { ports.old.items ≡ [] }
    requires room { vec_len idle.old ≤ vec_capacity ports.old }
    ensures of_round { All (IsOf (rounds_in crew.old) (era + 1)) ports.new.items }
    ensures kept { map kept_of ports.new.items ≡ map given_all (reverse idle.old.items) }
    ensures same_changes { crew.new.knows.accepted ≡ crew.old.knows.accepted }
    ensures len { vec_len ports.new ≡ vec_len idle.old }
    ensures none_left { idle.new.items ≡ [] }
    ensures room { (vec_capacity ports.new ≡ vec_capacity ports.old) × (vec_capacity idle.new ≡ vec_capacity idle.old) }
    ensures goes_on { IsPrefix crew.old.knows.history crew.new.knows.history }
    ensures round { rounds_in crew.new ≡ rounds_in crew.old }
    ensures handed { crew.new.handed ≡ vec_len idle.old }
    ensures back { crew.new.back ≡ crew.old.back }
{
    while let Some(one) = idle.pop() {
        ports.push_reserved(one.begin(era, round, crew));
    }
}

/// Lets each lane go without a pass.
pub(crate) fn leave_all<A: Monoid, B: Monoid>(mut idle: Vec<Emptied<A, B>>) {
    while let Some(one) = idle.pop() {
        drop(one.leave());
    }
}

/// Ends the round whose passes lie in lanes that were taken: its set, and how many keys it put in and took out. The lanes are done with it.
pub(crate) fn finish<A: Monoid, B: Monoid>(
    era: u64,
    round: &Round<A, B>,
    crew: Crew<A, B>,
    held: Vec<Held<A, B>>,
    idle: Vec<Emptied<A, B>>,
    list: Vec<(u32, u32)>,
) -> (Members, u32, u32)
    requires of_round { All (IsOf (rounds_in crew) era) held.items }
    requires some { 0 < era }
    requires together { table_of crew.round ≡ round.now }
    requires all_out { crew.handed ≡ vec_len held + crew.back }
    requires empty { (idle.items ≡ []) × (list.items ≡ []) }
    requires room { vec_len held ≤ vec_capacity idle }
    requires all_keys { 2 ^ crew.round.bits ≤ crew.round.room }
    requires list_room { 2 ^ crew.round.bits ≤ vec_capacity list }
    ensures ends { (ended : EndedFacts) × FinishesRound era crew (reverse held.items) ended × (result.0 ≡ set_of_ended ended) × (result.1 ≡ ended.inserts) × (result.2 ≡ ended.removals) }
    ensures sizes { length result.0.pairs + result.2 ≡ length crew.round.members + result.1 }
{
    let (mut crew, mut held, mut idle) = (crew, held, idle);
    give_all(era, round, &mut crew, &mut held, &mut idle);
    leave_all(idle);
    round.finish(crew, list)
}
