//! A shared trie whose rounds roll over.
ghost use Rattle.std.specs.Prelude.{◌≡◌, ◌≢◌, ◌↔◌, ◌⊎◌, ℕ, ◌+◌, ◌<◌, ◌≤◌, ◌^◌, [], map, All, IsErr, IsErrOf, IfOk, IfErr, length, vec_len, vec_capacity, true};
ghost use Rattle.std.specs.Arc.{arc_value};
ghost use Rattle.ruled_lock.specs.Locks.{HoldsNothing, IsSameKey, client_of};
ghost use Rattle.aug_core.specs.Layout.{IsRefused, IsLayout, IsWithin, IsOutside};
ghost use Rattle.aug_core.specs.Places.{shape_of};
ghost use Rattle.aug_trie.specs.Chains.{IsPart};
ghost use Rattle.aug_trie.specs.Pass.{chain_of};
ghost use Rattle.aug_trie.specs.Round.{table_of};
ghost use mathlib.Core.Option.{some};
ghost use lib.ListN.{get_elem?};
ghost use Rattle.aug_live.specs.LiveErrors.{IfRefused, RefusesBack, RefusesCall, RefusesHandle, RefusesRoll};
ghost use Rattle.aug_live.specs.LiveHandles.{Follows, HandleFacts, IsHandleOf, IsNew};
ghost use Rattle.aug_live.specs.LiveTries.{CameBack, Closes, IsOpenedTrie, KeepsHandles, KnowsMore, ids_of};
ghost use Rattle.aug_live.specs.Plans.{IsGreatest, Suits};
ghost use Rattle.aug_live.specs.inside.DeskKnowledge.{IsOwner};
ghost use Rattle.aug_live.specs.inside.Desks.{IsNewBerth};
ghost use Rattle.aug_live.specs.inside.Rolls.{IsHandleEnd, IsOf, IsOpenedLane, Starts, handles_from, rounds_in};

use crate::ahead::{PIECE, Pace};
use crate::counts::LiveCounts;
use crate::desk::Working;
use crate::desk_end::{
    Desk, DeskEnd, DeskKey, DeskLock, Lay, NewDesk, Same, lay_on, prepare_on, take_own,
    take_settled,
};
use crate::end::{Berth, End};
use crate::error::{Busy, LiveError, OpenError, TryError};
use crate::handle::Handle;
use crate::held::{Emptied, Held};
use crate::plan::Plan;
use crate::rolling::{Begun, Share, next_round};
use crate::slot::SlotEnd;
use crate::work::SharedRound;
use aug_core::LayoutError;
use aug_monoid::Monoid;
use aug_trie::{Crew, Members, Round};
use ruled_lock::{Patience, Tries, Waits, WasOut};
use std::alloc::{AllocError, Global};
use std::marker::Model;
use std::snapshot::Snapshot;
use std::sync::{Arc, Wait};

// How many nodes the owner lays out in one call.
const TENDS: u32 = 256;

/// A shared trie whose rounds roll over by themselves. Threads work with its handles.
#[derive(Drop)]
pub struct Live<A: Monoid, B: Monoid> {
    // The desk, and its first key: that alone makes handles and closes the trie.
    lock: Arc<DeskLock<A, B>, Global>,
    key: DeskKey<A, B>,
}

impl<A: Monoid, B: Monoid> Model for Live<A, B> {
    ghost use Rattle.std.specs.Prelude.{◌≡◌};
    ghost use Rattle.std.specs.Arc.{arc_value};
    ghost use Rattle.ruled_lock.specs.Locks.{client_of, HoldsNothing};
    ghost use Rattle.aug_live.specs.LiveTries.{TrieFacts};
    ghost use Rattle.aug_live.specs.inside.DeskKnowledge.{IsOwner};

    ghost Value = { TrieFacts };

    ghost view = { λ l. client_of l.key };

    ghost invariant = { λ l. (l.key.table_id ≡ (arc_value l.lock).table.shared.table_id) × HoldsNothing l.key × IsOwner l.key.id (client_of l.key) };
}

// What it takes to open a trie: the lanes, and room for the ends.
#[derive(Drop)]
struct Room<A: Monoid, B: Monoid> {
    berths: Vec<Berth<A, B>>,
    ports: Vec<End<A, B>>,
    held: Vec<Held<A, B>>,
    idle: Vec<Emptied<A, B>>,
    shares: Vec<Share<A, B>>,
    slots: Vec<SlotEnd<A, B>>,
    ends: Vec<End<A, B>>,
    handles: Vec<Handle<A, B>>,
    list: Vec<(u32, u32)>,
    desk: NewDesk<A, B>,
}

impl<A: Monoid, B: Monoid> Live<A, B> {
    /// Opens a trie over a set, for `handles` handles, with a plan of its rounds that has a lane for each.
    ///
    /// Refused with `BadLanes`, `BadUpdates` and `TooLarge` as `Layout::new` refuses the plan for the full set of its
    /// bits, so that no later round is refused for it, then with `BadTables` for fewer than two tables, and then with `OutOfMemory`.
    /// After a refusal the same set comes back.
    pub fn open_with(
        alloc: Global,
        set: Members,
        handles: u32,
        plan: Plan,
    ) -> Result<(Live<A, B>, Vec<Handle<A, B>>), (Members, OpenError)>
        requires lanes { handles ≤ plan.lanes }
        ensures handles { IfOk result (λ t. vec_len t.1 ≡ handles) }
        ensures opened { IfOk result (λ t. IsOpenedTrie set handles t.0) }
        ensures new { IfOk result (λ t. All (IsNew t.0 set plan) t.1.items) }
        ensures lanes { IfOk result (λ t. (lane : ℕ) (h : HandleFacts) → get_elem? t.1.items lane ≡ some h → h.who.lane ≡ lane) }
        ensures same { IfErr result (λ e. e.0 ≡ set) }
        ensures bad_lanes { IsErrOf result (set, OpenError.BadLanes) ↔ IsRefused LayoutError.BadWorkers set.bits plan.lanes plan.updates (2 ^ set.bits) }
        ensures bad_updates { IsErrOf result (set, OpenError.BadUpdates) ↔ IsRefused LayoutError.BadUpdates set.bits plan.lanes plan.updates (2 ^ set.bits) }
        ensures too_large { IsErrOf result (set, OpenError.TooLarge) ↔ IsRefused LayoutError.TooLarge set.bits plan.lanes plan.updates (2 ^ set.bits) }
        ensures bad_tables { IsErrOf result (set, OpenError.BadTables) ↔ (IsLayout (shape_of set.bits plan.lanes plan.updates (2 ^ set.bits)) × (plan.tables < 2)) }
        ensures others { IfErr result (λ e. e.1 ≢ OpenError.BadHandles) }
    {
        let bits = set.bits();
        let universe = set.universe();
        if let Err(cause) = plan.check(bits) {
            return Err((set, cause));
        }
        let (opened, lanes, count) = (set.size(), handles, u64::from(handles));
        let Ok(room) = Room::new(alloc, handles, universe) else {
            return Err((set, OpenError::OutOfMemory));
        };
        let Room {
            berths,
            ports,
            held,
            idle,
            shares,
            slots,
            ends,
            handles,
            list,
            desk,
        } = room;
        let begun = match next_round(alloc, set, plan, list, shares, slots, &desk.lock, lanes) {
            Ok(begun) => begun,
            Err(set) => return Err((set, OpenError::OutOfMemory)),
        };
        let Begun {
            round,
            mut crew,
            list,
            shares,
            slots,
        } = begun;
        let (ports, ends) = open_lanes(&round, &mut crew, berths, ports, ends);
        let of = Snapshot::of(&round);
        let working = Working {
            plan,
            counts: LiveCounts {
                rounds: 1,
                opened,
                inserts: 0,
                removals: 0,
                handles: count,
                missing: count,
            },
            bits,
            round,
            crew,
            ports,
            slots,
            held,
            idle,
            list,
        };
        let (lock, mut key) = desk.place(working);
        let handles = hand_out(bits, of, &mut key, shares, ends, handles);
        Ok((Live { lock, key }, handles))
    }

    /// Opens a trie over a set, for `handles` handles, whose rounds have a table of at most `memory` bytes, with three parts, a third of the
    /// bytes for each: `Plan::new` computes their lanes and updates. While the trie is opened, a list of the table's words takes as much
    /// again; all later rounds are in this table.
    ///
    /// Refused with `BadHandles` for no handle and for more than 64, with `TooLarge` if a table with 64 updates of each handle takes more
    /// bytes or if no table takes that many, 3 * 2^29 and no more, and with `OutOfMemory`. After a refusal the same set comes back.
    pub fn open(
        alloc: Global,
        set: Members,
        handles: u32,
        memory: u64,
    ) -> Result<(Live<A, B>, Vec<Handle<A, B>>), (Members, OpenError)>
        ensures handles { IfOk result (λ t. vec_len t.1 ≡ handles) }
        ensures opened { IfOk result (λ t. IsOpenedTrie set handles t.0) }
        ensures new { IfOk result (λ t. (plan : Plan) × IsGreatest set.bits handles memory plan × All (IsNew t.0 set plan) t.1.items) }
        ensures lanes { IfOk result (λ t. (lane : ℕ) (h : HandleFacts) → get_elem? t.1.items lane ≡ some h → h.who.lane ≡ lane) }
        ensures same { IfErr result (λ e. e.0 ≡ set) }
        ensures bad_handles { IsErrOf result (set, OpenError.BadHandles) ↔ IsOutside 1 64 handles }
        ensures too_large { IsErrOf result (set, OpenError.TooLarge) ↔ (IsWithin 1 64 handles × (Suits set.bits handles memory → ⊥)) }
        ensures others { IfErr result (λ e. (e.1 ≢ OpenError.BadLanes) × (e.1 ≢ OpenError.BadUpdates) × (e.1 ≢ OpenError.BadTables)) }
    {
        if !(1..=64).contains(&handles) {
            return Err((set, OpenError::BadHandles));
        }
        let Some(plan) = Plan::new(set.bits(), handles, memory) else {
            return Err((set, OpenError::TooLarge));
        };
        Self::open_with(alloc, set, handles, plan)
    }

    /// Rolls the round over now, as in a quiet hour. It waits for the call that each handle is in, and, if looks of an earlier round are open in each other
    /// part of the table, until one of these parts has none. Refused with `Exhausted`.
    pub fn roll<R: Wait>(&mut self, rt: &R) -> Result<(), LiveError>
        ensures goes_on { KeepsHandles self.old self.new }
        ensures rolls { IfOk result (λ _. length self.old.rounds.past < length self.new.rounds.past) }
        ensures refused { IfErr result (RefusesRoll self.new) }
    {
        for _ in rt.forever() {
            let rolled = match self.roll_over(&Waits(rt)) {
                Ok(rolled) => rolled,
                Err(TryError::Refused(cause)) => return Err(cause),
                Err(TryError::Again(never)) => match never {},
            };
            if rolled {
                return Ok(());
            }
            self.lock.pause(rt);
        }
        unreachable!()
    }

    /// The same, and waits for nobody: `Again` if somebody has the desk, or another handle is in a call. The lanes that it took then
    /// stay taken until the round has rolled over, which whoever comes to one of them tries. With `Busy::Look` none stays taken.
    pub fn try_roll(&mut self) -> Result<(), TryError<Busy>>
        ensures goes_on { KeepsHandles self.old self.new }
        ensures rolls { IfOk result (λ _. length self.old.rounds.past < length self.new.rounds.past) }
        ensures refused { IfErr result (IfRefused (RefusesRoll self.new)) }
    {
        match self.roll_over(&Tries) {
            Ok(true) => Ok(()),
            Ok(false) => Err(TryError::Again(Busy::Look)),
            Err(TryError::Again(lock)) => Err(TryError::Again(Busy::Lock(lock))),
            Err(TryError::Refused(cause)) => Err(TryError::Refused(cause)),
        }
    }

    /// Lays a piece of the next round out, if the round is near its end, for an owner with a processor to spare: the roll-over then has less to do, and
    /// handles, which do the same between their updates, find it done. True if there is more to do now; otherwise the owner may sleep a little. It waits for
    /// nobody, and does nothing while somebody else has the desk. Nothing is learnt by it.
    pub fn tend(&mut self) -> bool
        ensures { self.new ≡ self.old }
    {
        match prepare_on(&Tries, &self.lock, &mut self.key, TENDS) {
            Ok(ahead) => ahead.more,
            Err(_) => false,
        }
    }

    // Rolls the round over. False if readers are out in each other part of the table.
    fn roll_over<W: Patience>(&mut self, how: &W) -> Result<bool, TryError<W::GaveUp>>
        ensures goes_on { KeepsHandles self.old self.new }
        ensures rolls { IfOk result (λ rolled. rolled ≡ true → length self.old.rounds.past < length self.new.rounds.past) }
        ensures refused { IfErr result (IfRefused (RefusesRoll self.new)) }
    {
        match take_own(how, &self.lock, &mut self.key) {
            Ok(working) => {
                let (working, done) = working.roll(how);
                lay_on(&self.lock, &mut self.key, working);
                done
            }
            Err(missed) => Err(TryError::Again(missed)),
        }
    }

    /// Gives a lane to a new handle, if the lane's own handle came back, was dropped, or is in a thread that ended. Lanes are numbered from 0, in
    /// the order of the handles that `open` gave. The new handle continues from the state in which the old one left the lane, and knows what the
    /// trie does. If the old one is still there, it answers `Replaced` from then on, and the call waits for the update that it is in, but not for its look. No
    /// round ends for it, unless a roll-over was begun, and no memory is taken.
    ///
    /// Refused with `NoLane`, `Exhausted` and `TooMany`. After a refusal nothing has changed.
    pub fn handle<R: Wait>(&mut self, rt: &R, lane: u32) -> Result<Handle<A, B>, LiveError>
        ensures more { KnowsMore self.old self.new }
        ensures bits { IfOk result (λ h. h.half.round.bits ≤ 16) }
        ensures given { IfOk result (λ _. self.new.given ≡ self.old.given + 1) }
        ensures none_given { IfErr result (λ _. self.new.given ≡ self.old.given) }
        ensures of_trie { IfOk result (IsHandleOf lane self.new) }
        ensures refused { IfErr result (RefusesHandle lane self.new) }
        ensures beyond { length self.old.lanes ≤ lane → IsErr result }
    {
        match self.give(&Waits(rt), lane) {
            Ok(handle) => Ok(handle),
            Err(TryError::Refused(cause)) => Err(cause),
            Err(TryError::Again(never)) => match never {},
        }
    }

    /// The same, and waits for nobody: `Again` if somebody has the desk, or the lane's old handle is in a call,
    /// or any handle is if a roll-over was begun.
    pub fn try_handle(&mut self, lane: u32) -> Result<Handle<A, B>, TryError<WasOut>>
        ensures more { KnowsMore self.old self.new }
        ensures bits { IfOk result (λ h. h.half.round.bits ≤ 16) }
        ensures given { IfOk result (λ _. self.new.given ≡ self.old.given + 1) }
        ensures none_given { IfErr result (λ _. self.new.given ≡ self.old.given) }
        ensures of_trie { IfOk result (IsHandleOf lane self.new) }
        ensures refused { IfErr result (IfRefused (RefusesHandle lane self.new)) }
        ensures beyond { length self.old.lanes ≤ lane → IsErr result }
    {
        self.give(&Tries, lane)
    }

    // Gives a lane to a new handle.
    fn give<W: Patience>(&mut self, how: &W, lane: u32) -> Result<Handle<A, B>, TryError<W::GaveUp>>
        ensures more { KnowsMore self.old self.new }
        ensures bits { IfOk result (λ h. h.half.round.bits ≤ 16) }
        ensures given { IfOk result (λ _. self.new.given ≡ self.old.given + 1) }
        ensures none_given { IfErr result (λ _. self.new.given ≡ self.old.given) }
        ensures of_trie { IfOk result (IsHandleOf lane self.new) }
        ensures refused { IfErr result (IfRefused (RefusesHandle lane self.new)) }
        ensures beyond { length self.old.lanes ≤ lane → IsErr result }
    {
        let lane = lane as usize;
        let Ok(lock) = Arc::try_clone(&self.lock) else {
            return Err(TryError::Refused(LiveError::TooMany));
        };
        let key = self.lock.another::<Same>(&mut self.key);
        match take_settled(how, &self.lock, &mut self.key) {
            Ok(working) => {
                let mut working = working;
                let given = working.give(how, lane, DeskEnd { lock, key });
                lay_on(&self.lock, &mut self.key, working);
                given
            }
            Err(cause) => Err(cause),
        }
    }

    /// Takes a handle of this trie back. The trie knows then what the handle knew, and what was made through it, and so does each handle that is made after
    /// that. The lane is free for `Live::handle`.
    ///
    /// Refused with `Replaced` if a newer handle has the lane, and with `Exhausted`. Then the same handle comes back.
    pub fn back<R: Wait>(
        &mut self,
        rt: &R,
        handle: Handle<A, B>,
    ) -> Result<(), (Handle<A, B>, LiveError)>
        requires trie { (handle.half.round.table ≡ self.old.table) × (ids_of handle.who.trie ≡ ids_of self.old) }
        ensures goes_on { KeepsHandles self.old self.new }
        ensures knows { IfOk result (λ _. IsPart (chain_of handle.half) self.new.rounds) }
        ensures done { IfOk result (λ _. CameBack handle.made self.old self.new) }
        ensures same { IfErr result (λ e. Follows handle e.0) }
        ensures refused { IfErr result (λ e. RefusesCall e.0 e.1 ⊎ RefusesBack handle.who.lane handle.who.number self.new e.1) }
    {
        let mut handle = handle;
        let note = match handle.note(rt) {
            Ok(note) => note,
            Err(cause) => return Err((handle, cause)),
        };
        let how = Waits(rt);
        let working = match take_settled(&how, &self.lock, &mut self.key) {
            Ok(working) => working,
            Err(TryError::Refused(cause)) => return Err((handle, cause)),
            Err(TryError::Again(never)) => match never {},
        };
        let Some(end) = handle.end.take() else {
            unreachable!()
        };
        let mut working = working.learn(note);
        let done = working.back(&how, handle.lane, handle.number, end);
        lay_on(&self.lock, &mut self.key, working);
        match done {
            Ok(()) => Ok(()),
            Err((end, cause)) => {
                handle.end = Some(end);
                match cause {
                    TryError::Refused(cause) => Err((handle, cause)),
                    TryError::Again(never) => match never {},
                }
            }
        }
    }

    /// Gives the set back, and the counts of the rounds. It waits for the call that each handle is in; looks go on. From then on
    /// handles answer `Closed`.
    pub fn close<R: Wait>(self, rt: &R) -> (Members, LiveCounts)
        ensures closes { Closes self result.0 result.1 }
        ensures sizes { length result.0.pairs + result.1.removals ≡ result.1.opened + result.1.inserts }
    {
        match self.stop(&Waits(rt)) {
            Ok(closed) => closed,
            Err((_, never)) => match never {},
        }
    }

    /// The same, and waits for nobody: where `try_roll` is to be called again, the same trie comes back, with what that says of lanes.
    pub fn try_close(self) -> Result<(Members, LiveCounts), (Live<A, B>, WasOut)>
        ensures closes { IfOk result (λ t. Closes self t.0 t.1) }
        ensures sizes { IfOk result (λ t. length t.0.pairs + t.1.removals ≡ t.1.opened + t.1.inserts) }
        ensures goes_on { IfErr result (λ e. KeepsHandles self e.0) }
    {
        self.stop(&Tries)
    }

    // Ends the last round: its set, and the counts of all rounds.
    fn stop<W: Patience>(self, how: &W) -> Result<(Members, LiveCounts), (Live<A, B>, W::GaveUp)>
        ensures closes { IfOk result (λ t. Closes self t.0 t.1) }
        ensures sizes { IfOk result (λ t. length t.0.pairs + t.1.removals ≡ t.1.opened + t.1.inserts) }
        ensures goes_on { IfErr result (λ e. KeepsHandles self e.0) }
    {
        let Live { lock, mut key } = self;
        match take_own(how, &lock, &mut key) {
            Ok(working) => match working.stop(how) {
                Ok(closed) => {
                    let none = Desk {
                        working: None,
                        opened: true,
                    };
                    lock.put::<Lay>(&mut key, none);
                    Ok(closed)
                }
                Err((working, missed)) => {
                    lay_on(&lock, &mut key, working);
                    Err((Live { lock, key }, missed))
                }
            },
            Err(missed) => Err((Live { lock, key }, missed)),
        }
    }
}

impl<A: Monoid, B: Monoid> Room<A, B> {
    // Lanes for `handles` handles, and room for what is to come.
    fn new(alloc: Global, handles: u32, universe: u32) -> Result<Room<A, B>, AllocError>
        ensures berths { IfOk result (λ r. All IsNewBerth r.berths.items × (vec_len r.berths ≡ handles)) }
        ensures ports { IfOk result (λ r. (r.ports.items ≡ []) × (handles ≤ vec_capacity r.ports)) }
        ensures held { IfOk result (λ r. (r.held.items ≡ []) × (handles ≤ vec_capacity r.held)) }
        ensures idle { IfOk result (λ r. (r.idle.items ≡ []) × (handles ≤ vec_capacity r.idle)) }
        ensures shares { IfOk result (λ r. (r.shares.items ≡ []) × (handles ≤ vec_capacity r.shares)) }
        ensures slots { IfOk result (λ r. (r.slots.items ≡ []) × (handles ≤ vec_capacity r.slots)) }
        ensures ends { IfOk result (λ r. (r.ends.items ≡ []) × (handles ≤ vec_capacity r.ends)) }
        ensures handles { IfOk result (λ r. (r.handles.items ≡ []) × (handles ≤ vec_capacity r.handles)) }
        ensures list { IfOk result (λ r. (r.list.items ≡ []) × (universe ≤ vec_capacity r.list)) }
    {
        let count = handles as usize;
        Ok(Room {
            berths: new_berths(alloc, handles)?,
            ports: Vec::with_capacity(alloc, count)?,
            held: Vec::with_capacity(alloc, count)?,
            idle: Vec::with_capacity(alloc, count)?,
            shares: Vec::with_capacity(alloc, count)?,
            slots: Vec::with_capacity(alloc, count)?,
            ends: Vec::with_capacity(alloc, count)?,
            handles: Vec::with_capacity(alloc, count)?,
            list: Vec::with_capacity(alloc, universe as usize)?,
            desk: NewDesk::new(alloc)?,
        })
    }
}

// So many new lanes.
fn new_berths<A: Monoid, B: Monoid>(
    alloc: Global,
    handles: u32,
) -> Result<Vec<Berth<A, B>>, AllocError>
    ensures { IfOk result (λ berths. All IsNewBerth berths.items × (vec_len berths ≡ handles)) }
{
    let mut berths = Vec::with_capacity(alloc, handles as usize)?;
    fill(alloc, &mut berths, handles)?;
    Ok(berths)
}

// Puts so many new lanes into a vector, which has room for them.
fn fill<A: Monoid, B: Monoid>(
    alloc: Global,
    berths: &mut Vec<Berth<A, B>>,
    handles: u32,
) -> Result<(), AllocError>
    requires none { berths.old.items ≡ [] }
    requires room { handles ≤ vec_capacity berths.old }
    ensures { IfOk result (λ _. All IsNewBerth berths.new.items × (vec_len berths.new ≡ handles)) }
{
    for _ in 0..handles {
        berths.push_reserved(Berth::new(alloc)?);
    }
    Ok(())
}

// Puts a pass into each lane, and makes its two ends.
fn open_lanes<A: Monoid, B: Monoid>(
    round: &Round<A, B>,
    crew: &mut Crew<A, B>,
    berths: Vec<Berth<A, B>>,
    mut ports: Vec<End<A, B>>,
    mut ends: Vec<End<A, B>>,
) -> (Vec<End<A, B>>, Vec<End<A, B>>)
    requires berths { All IsNewBerth berths.items }
    requires together { table_of crew.old.round ≡ round.now }
    requires none_out { crew.old.handed ≡ 0 }
    requires first_era { crew.old.round.era ≡ 0 }
    requires lanes { vec_len berths ≤ crew.old.round.workers }
    requires ports { (ports.items ≡ []) × (vec_len berths ≤ vec_capacity ports) }
    requires ends { (ends.items ≡ []) × (vec_len berths ≤ vec_capacity ends) }
    ensures of_round { All (IsOf (rounds_in crew.old) 1) result.0.items }
    ensures opened { All IsOpenedLane result.0.items }
    ensures starts { All (Starts (rounds_in crew.old)) result.1.items }
    ensures locks { map (λ e. e.lock) result.1.items ≡ map (λ e. e.lock) result.0.items }
    ensures same_changes { crew.new.knows.accepted ≡ crew.old.knows.accepted }
    ensures len { (vec_len result.0 ≡ vec_len berths) × (vec_len result.1 ≡ vec_len berths) }
    ensures room { vec_len berths ≤ vec_capacity result.0 }
    ensures round { rounds_in crew.new ≡ rounds_in crew.old }
    ensures handed { crew.new.handed ≡ vec_len berths }
    ensures back { crew.new.back ≡ crew.old.back }
{
    for berth in berths {
        let (port, mine) = berth.open(round, crew);
        ports.push_reserved(port);
        ends.push_reserved(mine);
    }
    (ports, ends)
}

// Makes the handles of these ends of lanes, with a key of the desk each.
fn hand_out<A: Monoid, B: Monoid>(
    bits: u32,
    round: Snapshot<SharedRound<A, B>>,
    mine: &mut DeskKey<A, B>,
    mut shares: Vec<Share<A, B>>,
    ends: Vec<End<A, B>>,
    mut handles: Vec<Handle<A, B>>,
) -> Vec<Handle<A, B>>
    requires free { HoldsNothing mine.old }
    requires owner { IsOwner mine.old.id (client_of mine.old) }
    requires bits { bits ≡ (arc_value round.value).bits }
    requires table { (client_of mine.old).table ≡ (arc_value round.value).table }
    requires shares { All (λ s. s ≡ (arc_value round.value, mine.old.table_id)) shares.items × (vec_len shares ≡ vec_len ends) }
    requires ends { All (IsHandleEnd 1 (arc_value round.value)) ends.items }
    requires locks { map (λ e. e.lock) ends.items ≡ ids_of (client_of mine.old) }
    requires handles { (handles.items ≡ []) × (vec_len ends ≤ vec_capacity handles) }
    ensures same { IsSameKey mine.old mine.new }
    ensures free { HoldsNothing mine.new }
    ensures knows { client_of mine.new ≡ client_of mine.old }
    ensures at { result.items ≡ handles_from (client_of mine.old) 0 ends.items }
{
    for end in ends {
        let Some(share) = shares.pop() else {
            unreachable!()
        };
        let Share {
            round,
            slot,
            desk: lock,
        } = share;
        let key = lock.another::<Same>(mine);
        let lane = handles.len();
        handles.push_reserved(Handle {
            end: Some(end),
            bits,
            lane,
            number: 1,
            pace: Pace::after(PIECE),
            round,
            slot,
            desk: DeskEnd { lock, key },
        });
    }
    handles
}
