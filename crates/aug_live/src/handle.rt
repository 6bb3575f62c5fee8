//! The end of a lane that a thread works with.
ghost use Rattle.std.specs.Prelude.{◌≡◌, ◌≢◌, ◌^◌, ◌<◌, ◌≤◌, All, length, take, IfOk, IfErr, IfSome, IfNone, Some};
ghost use Rattle.std.specs.Bool.{OnTrue, OnFalse};
ghost use Rattle.aug_trie.specs.Knowledge.{insertion, removal};
ghost use Rattle.aug_trie.specs.declared.updates.request.Request.TheVariants as asked;
ghost use Rattle.aug_trie.specs.Round.{table_of};
ghost use Rattle.aug_trie.specs.Updates.{AcceptedUpdate, RefusedUpdate, Updates};
ghost use Rattle.aug_trie.specs.Chains.{IsPart};
ghost use Rattle.aug_trie.specs.Note.{chain_of_note};
ghost use Rattle.aug_trie.specs.UpdateBatches.{DoesBatch};
ghost use Rattle.aug_trie.specs.Pass.{chain_of};
ghost use Rattle.aug_trie.specs.Pops.{popped, pop_updates, Pops};
ghost use Rattle.aug_model.specs.Folds.{summary_of};
ghost use Rattle.aug_monoid.specs.Extent.{extent_parts};
ghost use Rattle.aug_live.specs.LiveErrors.{IfRefused, RefusesCall, RefusesLook, RefusesSlot};
ghost use Rattle.aug_live.specs.inside.LaneKnowledge.{Seen};
ghost use Rattle.aug_live.specs.inside.Looks.{HandleShows, HasReaders};
ghost use Rattle.aug_live.specs.LiveHandles.{AllOrSpent, Follows, IsRoom, IsSomeOf, OpensLook, Makes, Runs, note_at};

use crate::ahead::{NODES, Pace, RETRY};
use crate::desk_end::DeskEnd;
use crate::end::End;
use crate::error::{Busy, LiveError, TryError};
use crate::lane::Obstacle;
use crate::look::{Look, leave};
use crate::operation::{Batch, LearnNote, MakeNote, OneUpdate, Operation, PopAt, Show, TellRoom};
use crate::slot::{Slot, SlotEnd, SlotOut};
use crate::work::SharedRound;
use aug_monoid::{Extent, Monoid};
use aug_trie::{Note, Outcome, Pop, Request, Side, Snapshot, Told};
use ruled_lock::{Patience, Tries, Waits};
use std::marker::Model;
use std::sync::Wait;

/// A thread's access to a trie, for updates and looks. It may go to another thread, and has a lane of its own. A handle that is
/// dropped leaves its lane behind, and holds nobody up; `Live::handle` gives the lane to a new one.
///
/// A call with an `rt` waits for a roll-over and for nothing else: it then continues in the next round. If the updates of its lane are spent, it takes a
/// spare lane of the round, and waits only for a handle that does the same. If no spare lane is left, it rolls the round over itself, which
/// waits for the update that another handle is in, and, if looks of an earlier round are open in each other part of the table, until one of these parts
/// has none. Near the end of a round a handle lays a piece of the next one out after some of its updates, so that the roll-over has little to do.
#[derive(Drop)]
pub struct Handle<A: Monoid, B: Monoid> {
    // An update takes it out and puts it back.
    pub(crate) end: Option<End<A, B>>,
    pub(crate) bits: u32,
    // The number of its lane, counted from 0, and its own, counted from 1.
    pub(crate) lane: usize,
    pub(crate) number: u64,
    // When it lays the next piece out.
    pub(crate) pace: Pace,
    pub(crate) round: SharedRound<A, B>,
    // Where the reader of a look lies afterwards.
    pub(crate) slot: SlotEnd<A, B>,
    pub(crate) desk: DeskEnd<A, B>,
}

impl<A: Monoid, B: Monoid> Model for Handle<A, B> {
    ghost use Rattle.std.specs.Prelude.{◌≡◌, Some};
    ghost use Rattle.std.specs.Arc.{arc_value};
    ghost use Rattle.aug_live.specs.LiveHandles.{HandleFacts};
    ghost use Rattle.aug_live.specs.inside.LaneKnowledge.{handle_by};
    ghost use Rattle.aug_live.specs.inside.Looks.{HoldsHandle};
    ghost use Rattle.aug_live.specs.LiveTries.{ids_of};

    ghost Value = { HandleFacts };

    ghost view = { λ h. handle_by h.desk h.lane h.end };

    ghost invariant = { λ h. HoldsHandle h.end (arc_value h.round) h.bits h.lane h.number (ids_of h.desk) × (h.slot ≡ Some (arc_value h.round)) × (h.desk.table ≡ (arc_value h.round).table) };
}

impl<A: Monoid, B: Monoid> Handle<A, B> {
    /// Puts a key in, with the key itself as its weight. True if this call put it in. False if it was a member already, or somebody
    /// else put it in meanwhile; then its weight stays.
    #[inline(always)]
    pub fn insert<R: Wait>(&mut self, rt: &R, k: u32) -> Result<bool, LiveError>
        requires key { k < 2 ^ self.old.half.round.bits }
        ensures made { IfOk result (λ done. Makes 1 (λ a b. OnTrue done (AcceptedUpdate insertion k k a.knows b.knows) × OnFalse done (RefusedUpdate insertion k a.knows b.knows)) self.old self.new) }
        ensures not_made { IfErr result (λ _. Follows self.old self.new) }
        ensures refused { IfErr result (RefusesCall self.new) }
    {
        match self.update(rt, k, Request::Insert)?.outcome {
            Outcome::Accepted => Ok(true),
            _ => Ok(false),
        }
    }

    /// Takes a key out. True if this call took it out. False if it was no member, or somebody else took it out meanwhile.
    #[inline(always)]
    pub fn remove<R: Wait>(&mut self, rt: &R, k: u32) -> Result<bool, LiveError>
        requires key { k < 2 ^ self.old.half.round.bits }
        ensures made { IfOk result (λ done. Makes 1 (λ a b. OnTrue done (AcceptedUpdate removal k 0 a.knows b.knows) × OnFalse done (RefusedUpdate removal k a.knows b.knows)) self.old self.new) }
        ensures not_made { IfErr result (λ _. Follows self.old self.new) }
        ensures refused { IfErr result (RefusesCall self.new) }
    {
        match self.update(rt, k, Request::Remove)?.outcome {
            Outcome::Accepted => Ok(true),
            _ => Ok(false),
        }
    }

    /// Puts a key in with a weight, or gives a member this weight, as `Pass::put` does.
    #[inline(always)]
    pub fn put<R: Wait>(&mut self, rt: &R, k: u32, weight: u32) -> Result<Told, LiveError>
        requires key { k < 2 ^ self.old.half.round.bits }
        ensures made { IfOk result (λ told. Makes 1 (λ a b. Updates (asked.Put weight) k told a.knows b.knows) self.old self.new) }
        ensures not_made { IfErr result (λ _. Follows self.old self.new) }
        ensures refused { IfErr result (RefusesCall self.new) }
    {
        self.update(rt, k, Request::Put(weight))
    }

    /// Adds an amount to the weight of a key, as `Pass::add` does, and again if another change of the key came in between: so it is never
    /// `Refused`. That is lock-free, and no more: it goes around only after another call changed the key, and each time makes one more update.
    pub fn add<R: Wait>(&mut self, rt: &R, k: u32, amount: u32) -> Result<Told, LiveError>
        requires key { k < 2 ^ self.old.half.round.bits }
        ensures made { IfOk result (λ told. Makes 1 (λ a b. Updates (asked.Add amount) k told a.knows b.knows) self.old self.new) }
        ensures made_at_last { IfOk result (λ told. told.outcome ≢ Outcome.Refused) }
        ensures not_made { IfErr result (λ _. Follows self.old self.new) }
        ensures refused { IfErr result (RefusesCall self.new) }
    {
        self.until_made(rt, k, Request::Add(amount))
    }

    /// Takes an amount from the weight of a member, as `Pass::sub` does, and again as `add`.
    pub fn sub<R: Wait>(&mut self, rt: &R, k: u32, amount: u32) -> Result<Told, LiveError>
        requires key { k < 2 ^ self.old.half.round.bits }
        ensures made { IfOk result (λ told. Makes 1 (λ a b. Updates (asked.Sub amount) k told a.knows b.knows) self.old self.new) }
        ensures made_at_last { IfOk result (λ told. told.outcome ≢ Outcome.Refused) }
        ensures not_made { IfErr result (λ _. Follows self.old self.new) }
        ensures refused { IfErr result (RefusesCall self.new) }
    {
        self.until_made(rt, k, Request::Sub(amount))
    }

    // Makes an update, and makes it again while another change of its key comes in between.
    fn until_made<R: Wait>(&mut self, rt: &R, k: u32, request: Request) -> Result<Told, LiveError>
        requires key { k < 2 ^ self.old.half.round.bits }
        ensures made { IfOk result (λ told. Makes 1 (λ a b. Updates request k told a.knows b.knows) self.old self.new) }
        ensures made_at_last { IfOk result (λ told. told.outcome ≢ Outcome.Refused) }
        ensures not_made { IfErr result (λ _. Follows self.old self.new) }
        ensures refused { IfErr result (RefusesCall self.new) }
    {
        for _ in rt.forever() {
            let told = self.update(rt, k, request)?;
            match told.outcome {
                Outcome::Refused => {}
                _ => return Ok(told),
            }
        }
        unreachable!()
    }

    /// Makes an update of a key, which comes to what `Pass::update` says, and rolls the round over if it must.
    #[inline(always)]
    pub fn update<R: Wait>(&mut self, rt: &R, k: u32, request: Request) -> Result<Told, LiveError>
        requires key { k < 2 ^ self.old.half.round.bits }
        ensures made { IfOk result (λ told. Makes 1 (λ a b. Updates request k told a.knows b.knows) self.old self.new) }
        ensures not_made { IfErr result (λ _. Follows self.old self.new) }
        ensures refused { IfErr result (RefusesCall self.new) }
    {
        self.make(rt, &mut OneUpdate(k, request))
    }

    /// The same, and waits for nobody. `Again` if the lane is spent and somebody has the desk, or if a roll-over is due and another handle is in a
    /// call. Then the lanes that the roll-over took wait for it, and whoever calls again goes on with it.
    #[inline(always)]
    pub fn try_update(&mut self, k: u32, request: Request) -> Result<Told, TryError<Busy>>
        requires key { k < 2 ^ self.old.half.round.bits }
        ensures made { IfOk result (λ told. Makes 1 (λ a b. Updates request k told a.knows b.knows) self.old self.new) }
        ensures not_made { IfErr result (λ _. Follows self.old self.new) }
        ensures refused { IfErr result (IfRefused (RefusesCall self.new)) }
    {
        // Each has a value of its own, so that the first one need not lie in memory.
        match self.attempt(&mut OneUpdate(k, request)) {
            Ok(told) => {
                self.count(1);
                Ok(told)
            }
            Err(obstacle) => self.try_again(&mut OneUpdate(k, request), obstacle),
        }
    }

    /// Makes an update of each of the first keys by the request that has its index, puts what it came to into the place with its index, and tells how many
    /// keys these are: at least one if there is one, and as many as the lane has updates left. Each is accepted or refused by itself, and all of them show
    /// in each later look. Of rising keys each node above some of them is brought up to its children once, and not for each key.
    pub fn update_all<R: Wait>(
        &mut self,
        rt: &R,
        keys: &[u32],
        requests: &[Request],
        outcomes: &mut [Outcome],
    ) -> Result<usize, LiveError>
        requires keys { All (λ k. k < 2 ^ self.old.half.round.bits) keys.now }
        requires requests { length keys.now ≤ length requests.now }
        requires outcomes { length keys.now ≤ length outcomes.old }
        ensures made { IfOk result (λ count. Makes count (DoesBatch requests.now (take count keys.now) outcomes.new) self.old self.new) }
        ensures some { IfOk result (λ count. IsSomeOf (length keys.now) count) }
        ensures all { IfOk result (λ count. AllOrSpent (length keys.now) count self.new.half) }
        ensures not_made { IfErr result (λ _. Follows self.old self.new) }
        ensures refused { IfErr result (RefusesCall self.new) }
    {
        let mut batch = Batch {
            keys,
            requests,
            outcomes,
        };
        self.make(rt, &mut batch)
    }

    /// The same, and waits for nobody, as `try_update`.
    pub fn try_update_all(
        &mut self,
        keys: &[u32],
        requests: &[Request],
        outcomes: &mut [Outcome],
    ) -> Result<usize, TryError<Busy>>
        requires keys { All (λ k. k < 2 ^ self.old.half.round.bits) keys.now }
        requires requests { length keys.now ≤ length requests.now }
        requires outcomes { length keys.now ≤ length outcomes.old }
        ensures made { IfOk result (λ count. Makes count (DoesBatch requests.now (take count keys.now) outcomes.new) self.old self.new) }
        ensures some { IfOk result (λ count. IsSomeOf (length keys.now) count) }
        ensures all { IfOk result (λ count. AllOrSpent (length keys.now) count self.new.half) }
        ensures not_made { IfErr result (λ _. Follows self.old self.new) }
        ensures refused { IfErr result (IfRefused (RefusesCall self.new)) }
    {
        let mut batch = Batch {
            keys,
            requests,
            outcomes,
        };
        self.try_make(&mut batch)
    }

    /// Takes a snapshot to query: a look, which is independent of the handle. It shows the same for as long as it is there, while this handle and all others
    /// make updates and rounds roll over, and it may go to another thread. A handle has one look at a time: as long as one of its lane is open, the next one is
    /// refused with `Looking`.
    pub fn look<R: Wait>(&mut self, rt: &R) -> Result<Look<A, B>, LiveError>
        ensures looks { IfOk result (λ look. OpensLook self.old self.new look) }
        ensures not_made { IfErr result (λ _. Follows self.old self.new) }
        ensures refused { IfErr result (RefusesLook self.new) }
    {
        let (out, slot) = match self.take_slot(&Waits(rt)) {
            Ok(taken) => taken,
            Err(TryError::Refused(cause)) => return Err(cause),
            Err(TryError::Again(never)) => match never {},
        };
        let Slot { reader, round, era } = slot;
        let mut show = Show::after(reader, era);
        match self.show(rt, &mut show) {
            Ok(held) => Ok(Look::of(out, round, show, held, self.lane)),
            Err(cause) => {
                leave(out, round, show);
                Err(cause)
            }
        }
    }

    /// The same, and waits for nobody, as `try_update`.
    #[inline(always)]
    pub fn try_look(&mut self) -> Result<Look<A, B>, TryError<Busy>>
        ensures looks { IfOk result (λ look. OpensLook self.old self.new look) }
        ensures not_made { IfErr result (λ _. Follows self.old self.new) }
        ensures refused { IfErr result (IfRefused (RefusesLook self.new)) }
    {
        let (out, slot) = match self.take_slot(&Tries) {
            Ok(taken) => taken,
            Err(TryError::Refused(cause)) => return Err(TryError::Refused(cause)),
            Err(TryError::Again(lock)) => return Err(TryError::Again(Busy::Lock(lock))),
        };
        let Slot { reader, round, era } = slot;
        let mut show = Show::after(reader, era);
        match self.try_show(&mut show) {
            Ok(held) => Ok(Look::of(out, round, show, held, self.lane)),
            Err(cause) => {
                leave(out, round, show);
                Err(cause)
            }
        }
    }

    /// Makes a note of all that the handle knows, its own updates among it, for another handle of this trie to learn. It goes with a message to
    /// another thread, and tells in each later round too.
    pub fn note<R: Wait>(&mut self, rt: &R) -> Result<Note<A, B>, LiveError>
        ensures note { IfOk result (λ note. note ≡ note_at self.new.half) }
        ensures follows { Follows self.old self.new }
        ensures refused { IfErr result (RefusesCall self.new) }
    {
        self.make(rt, &mut MakeNote)
    }

    /// Learns a note of this trie: what the note says shows in each look of this handle from then on, whatever rounds came between. After a refusal
    /// the note comes back.
    pub fn learn<R: Wait>(
        &mut self,
        rt: &R,
        note: Note<A, B>,
    ) -> Result<(), (Note<A, B>, LiveError)>
        requires trie { note.round.table ≡ self.old.half.round.table }
        ensures learns { IfOk result (λ _. IsPart (chain_of_note note) (chain_of self.new.half)) }
        ensures follows { Follows self.old self.new }
        ensures kept { IfErr result (λ e. e.0 ≡ note) }
        ensures refused { IfErr result (λ e. RefusesCall self.new e.1) }
    {
        let mut learn = LearnNote(Some(note));
        match self.make(rt, &mut learn) {
            Ok(()) => Ok(()),
            Err(cause) => match learn.0 {
                Some(note) => Err((note, cause)),
                None => unreachable!(),
            },
        }
    }

    /// How many updates are left to the lane of the handle in this round: the one after them takes a spare lane, or rolls the round over. It makes none of
    /// them, and waits as an update does while a roll-over has the lane.
    pub fn room<R: Wait>(&mut self, rt: &R) -> Result<u32, LiveError>
        ensures left { IfOk result (λ left. IsRoom left self.new.half) }
        ensures follows { Follows self.old self.new }
        ensures refused { IfErr result (RefusesCall self.new) }
    {
        self.make(rt, &mut TellRoom)
    }

    /// The same, and waits for nobody, as `try_update`.
    pub fn try_room(&mut self) -> Result<u32, TryError<Busy>>
        ensures left { IfOk result (λ left. IsRoom left self.new.half) }
        ensures follows { Follows self.old self.new }
        ensures refused { IfErr result (IfRefused (RefusesCall self.new)) }
    {
        self.try_make(&mut TellRoom)
    }

    /// How many keys there are: `2^bits`. The keys are the numbers below it.
    #[inline(always)]
    pub fn universe(&self) -> u32
        ensures { result ≡ 2 ^ self.now.half.round.bits }
    {
        1 << self.bits
    }

    // Runs an operation, and waits until nothing is in its way any more.
    #[inline(always)]
    fn make<R: Wait, O: Operation<A, B>>(
        &mut self,
        rt: &R,
        op: &mut O,
    ) -> Result<O::Answer, LiveError>
        requires needs { O.Needs op.old self.old.half.round.table self.old.half.round.bits }
        ensures made { IfOk result (λ answer. Runs (O.Does op.old op.new answer) self.old self.new) }
        ensures not_made { IfErr result (λ _. Follows self.old self.new) }
        ensures kept { IfErr result (λ _. op.new ≡ op.old) }
        ensures refused { IfErr result (RefusesCall self.new) }
    {
        for _ in rt.forever() {
            let obstacle = match self.attempt(op) {
                Ok(answer) => {
                    self.count(op.updates(&answer));
                    return Ok(answer);
                }
                Err(obstacle) => obstacle,
            };
            if let Err(cause) = self.wait_to_refill(rt, obstacle) {
                return Err(cause);
            }
        }
        unreachable!()
    }

    // Runs an operation, and waits for nobody.
    fn try_make<O: Operation<A, B>>(&mut self, op: &mut O) -> Result<O::Answer, TryError<Busy>>
        requires needs { O.Needs op.old self.old.half.round.table self.old.half.round.bits }
        ensures made { IfOk result (λ answer. Runs (O.Does op.old op.new answer) self.old self.new) }
        ensures not_made { IfErr result (λ _. Follows self.old self.new) }
        ensures kept { IfErr result (λ _. op.new ≡ op.old) }
        ensures refused { IfErr result (IfRefused (RefusesCall self.new)) }
    {
        match self.attempt(op) {
            Ok(answer) => {
                self.count(op.updates(&answer));
                Ok(answer)
            }
            Err(obstacle) => self.try_again(op, obstacle),
        }
    }

    // Sees to it that the lane can go on, and runs the operation then, unless it would have to wait. That is seldom, so it stands out of line.
    #[inline(never)]
    fn try_again<O: Operation<A, B>>(
        &mut self,
        op: &mut O,
        obstacle: Obstacle,
    ) -> Result<O::Answer, TryError<Busy>>
        requires needs { O.Needs op.old self.old.half.round.table self.old.half.round.bits }
        requires seen { Seen obstacle self.old.who.replaced }
        ensures made { IfOk result (λ answer. Runs (O.Does op.old op.new answer) self.old self.new) }
        ensures not_made { IfErr result (λ _. Follows self.old self.new) }
        ensures kept { IfErr result (λ _. op.new ≡ op.old) }
        ensures refused { IfErr result (IfRefused (RefusesCall self.new)) }
    {
        if let Err(cause) = self.try_to_refill(obstacle) {
            return Err(cause);
        }
        match self.attempt(op) {
            Ok(answer) => {
                self.count(op.updates(&answer));
                Ok(answer)
            }
            Err(obstacle) => Err(self.still(obstacle)),
        }
    }

    // Runs an operation, unless the lane is held, the round has to roll over first, or a newer handle has the lane.
    #[inline(always)]
    fn attempt<O: Operation<A, B>>(&mut self, op: &mut O) -> Result<O::Answer, Obstacle>
        requires needs { O.Needs op.old self.old.half.round.table self.old.half.round.bits }
        ensures made { IfOk result (λ answer. Runs (O.Does op.old op.new answer) self.old self.new) }
        ensures not_made { IfErr result (λ _. Follows self.old self.new) }
        ensures kept { IfErr result (λ _. op.new ≡ op.old) }
        ensures seen { IfErr result (λ obstacle. Seen obstacle self.new.who.replaced) }
    {
        let Some(end) = self.end.take() else {
            unreachable!()
        };
        let (end, done) = end.run(self.number, &self.round, op);
        self.end = Some(end);
        done
    }

    // Takes what lies in the slot of the lane's reader. While somebody holds the desk, nobody has it but a look. Refused with `Looking` and `TooMany`.
    #[inline(always)]
    fn take_slot<W: Patience>(
        &mut self,
        how: &W,
    ) -> Result<(SlotOut<A, B>, Slot<A, B>), TryError<W::GaveUp>>
        ensures same { self.new ≡ self.old }
        ensures taken { IfOk result (λ t. (t.0 ≡ Some t.1) × (t.1 ≡ table_of self.old.half.round)) }
        ensures refused { IfErr result (IfRefused RefusesSlot) }
    {
        let Ok(mine) = self.slot.another() else {
            return Err(TryError::Refused(LiveError::TooMany));
        };
        match mine.take() {
            Ok(taken) => Ok(taken),
            Err((mine, _)) => self.desk.take_slot(how, mine),
        }
    }

    // Takes a snapshot for a look, and waits until nothing is in its way any more.
    #[inline(always)]
    pub(crate) fn show<R: Wait>(
        &mut self,
        rt: &R,
        show: &mut Show<A, B>,
    ) -> Result<Snapshot, LiveError>
        requires needs { HasReaders show.old.reader show.old.left self.old.half.round.table }
        ensures shows { IfOk result (λ held. HandleShows show.old.reader show.new.reader show.new.era held self.old self.new) }
        ensures not_made { IfErr result (λ _. Follows self.old self.new × (show.new.reader ≡ show.old.reader)) }
        ensures refused { IfErr result (RefusesCall self.new) }
    {
        for _ in rt.forever() {
            let made = self.make(rt, show)?;
            match made {
                Some(held) => return Ok(held),
                None => {}
            }
            let shown = match self.show_at_desk(&Waits(rt), show) {
                Ok(shown) => shown,
                Err(never) => match never {},
            };
            match shown {
                Some(held) => return Ok(held),
                None => {}
            }
        }
        unreachable!()
    }

    // The same, and waits for nobody.
    pub(crate) fn try_show(&mut self, show: &mut Show<A, B>) -> Result<Snapshot, TryError<Busy>>
        requires needs { HasReaders show.old.reader show.old.left self.old.half.round.table }
        ensures shows { IfOk result (λ held. HandleShows show.old.reader show.new.reader show.new.era held self.old self.new) }
        ensures not_made { IfErr result (λ _. Follows self.old self.new × (show.new.reader ≡ show.old.reader)) }
        ensures refused { IfErr result (IfRefused (RefusesCall self.new)) }
    {
        let made = self.try_make(show)?;
        match made {
            Some(held) => return Ok(held),
            None => {}
        }
        match self.show_at_desk(&Tries, show) {
            Ok(shown) => match shown {
                Some(held) => Ok(held),
                None => Err(TryError::Again(Busy::Round)),
            },
            Err(lock) => Err(TryError::Again(Busy::Lock(lock))),
        }
    }

    // Takes a snapshot for a look where the desk is at hand, to which the last reader goes. None if something is in its way.
    #[inline(never)]
    fn show_at_desk<W: Patience>(
        &mut self,
        how: &W,
        show: &mut Show<A, B>,
    ) -> Result<Option<Snapshot>, W::GaveUp>
        requires needs { HasReaders show.old.reader show.old.left self.old.half.round.table }
        ensures shows { IfOk result (λ shown. IfSome shown (λ held. HandleShows show.old.reader show.new.reader show.new.era held self.old self.new)) }
        ensures not_made { IfOk result (λ shown. IfNone shown (Follows self.old self.new × (show.new.reader ≡ show.old.reader) × HasReaders show.new.reader show.new.left self.old.half.round.table)) }
        ensures missed { IfErr result (λ _. (self.new ≡ self.old) × (show.new ≡ show.old)) }
    {
        let Some(end) = self.end.take() else {
            unreachable!()
        };
        let (end, done) = self.desk.show(how, end, self.number, &self.round, show);
        self.end = Some(end);
        done
    }

    // Counts updates that were made, after some of which it has the next round laid out further.
    #[inline(always)]
    fn count(&mut self, updates: i32)
        ensures { self.new ≡ self.old }
    {
        if self.pace.count(updates) {
            self.prepare();
        }
    }

    // Has the next round laid out further, if the desk is to be had; otherwise somebody else does that, or is about to roll the round over.
    #[cold]
    #[inline(never)]
    fn prepare(&mut self)
        ensures { self.new ≡ self.old }
    {
        let after = match self.desk.prepare(&Tries, NODES) {
            Ok(ahead) => ahead.after,
            Err(_) => RETRY,
        };
        self.pace = Pace::after(after);
    }

    // Sees to what is in the way: with the next round, or a spare lane of this one. False if the next round cannot begin, as readers are out.
    fn refill<W: Patience>(
        &mut self,
        how: &W,
        obstacle: Obstacle,
    ) -> Result<bool, TryError<W::GaveUp>>
        requires seen { Seen obstacle self.old.who.replaced }
        ensures follows { Follows self.old self.new }
        ensures refused { IfErr result (IfRefused (RefusesCall self.new)) }
    {
        match obstacle {
            Obstacle::Held(_) => self.desk.refill(how, None),
            Obstacle::Round(era) => self.desk.refill(how, Some((era, self.lane))),
            Obstacle::Replaced => Err(TryError::Refused(LiveError::Replaced)),
        }
    }

    // The same, and waits for whoever has what it takes.
    fn wait_to_refill<R: Wait>(&mut self, rt: &R, obstacle: Obstacle) -> Result<(), LiveError>
        requires seen { Seen obstacle self.old.who.replaced }
        ensures follows { Follows self.old self.new }
        ensures refused { IfErr result (RefusesCall self.new) }
    {
        let refilled = match self.refill(&Waits(rt), obstacle) {
            Ok(refilled) => refilled,
            Err(TryError::Refused(cause)) => return Err(cause),
            Err(TryError::Again(never)) => match never {},
        };
        if !refilled {
            self.desk.pause(rt);
        }
        Ok(())
    }

    // The same, and waits for nobody.
    fn try_to_refill(&mut self, obstacle: Obstacle) -> Result<(), TryError<Busy>>
        requires seen { Seen obstacle self.old.who.replaced }
        ensures follows { Follows self.old self.new }
        ensures refused { IfErr result (IfRefused (RefusesCall self.new)) }
    {
        match self.refill(&Tries, obstacle) {
            Ok(true) => Ok(()),
            Ok(false) => Err(TryError::Again(Busy::Look)),
            Err(TryError::Refused(cause)) => Err(TryError::Refused(cause)),
            Err(TryError::Again(lock)) => Err(TryError::Again(Busy::Lock(lock))),
        }
    }

    // What a call that waits for nobody answers, if something is in its way again.
    fn still(&self, obstacle: Obstacle) -> TryError<Busy>
        requires seen { Seen obstacle self.now.who.replaced }
        ensures { IfRefused (RefusesCall self.now) result }
    {
        match obstacle {
            Obstacle::Held(lock) => TryError::Again(Busy::Lock(lock)),
            Obstacle::Round(_) => TryError::Again(Busy::Round),
            Obstacle::Replaced => TryError::Refused(LiveError::Replaced),
        }
    }
}

impl<A: Monoid> Handle<A, Extent> {
    /// Takes out the member with the least key, and tells that key and its weight; `None` if a snapshot that it took shows no member. Where another call
    /// takes that member or changes it first, it tries again, with a new snapshot. That is lock-free, and no more: it goes around only after another call
    /// changed a key, and each time makes one more update.
    pub fn pop_first<R: Wait>(&mut self, rt: &R) -> Result<Option<(u32, u32)>, LiveError>
        ensures popped { IfOk result (λ taken. Makes (pop_updates (popped taken)) (Pops (summary_of A.parts extent_parts) Side.First (popped taken)) self.old self.new) }
        ensures not_made { IfErr result (λ _. Follows self.old self.new) }
        ensures refused { IfErr result (RefusesCall self.new) }
    {
        self.pop(rt, Side::First)
    }

    /// Takes out the member with the greatest key, as `pop_first`.
    pub fn pop_last<R: Wait>(&mut self, rt: &R) -> Result<Option<(u32, u32)>, LiveError>
        ensures popped { IfOk result (λ taken. Makes (pop_updates (popped taken)) (Pops (summary_of A.parts extent_parts) Side.Last (popped taken)) self.old self.new) }
        ensures not_made { IfErr result (λ _. Follows self.old self.new) }
        ensures refused { IfErr result (RefusesCall self.new) }
    {
        self.pop(rt, Side::Last)
    }

    /// One try of `pop_first`, which waits for nobody, as `try_update`. It is `Refused` if another call took that member or changed it first.
    pub fn try_pop_first(&mut self) -> Result<Pop, TryError<Busy>>
        ensures popped { IfOk result (λ done. Makes (pop_updates done) (Pops (summary_of A.parts extent_parts) Side.First done) self.old self.new) }
        ensures not_made { IfErr result (λ _. Follows self.old self.new) }
        ensures refused { IfErr result (IfRefused (RefusesCall self.new)) }
    {
        self.try_make(&mut PopAt(Side::First))
    }

    /// The same of `pop_last`.
    pub fn try_pop_last(&mut self) -> Result<Pop, TryError<Busy>>
        ensures popped { IfOk result (λ done. Makes (pop_updates done) (Pops (summary_of A.parts extent_parts) Side.Last done) self.old self.new) }
        ensures not_made { IfErr result (λ _. Follows self.old self.new) }
        ensures refused { IfErr result (IfRefused (RefusesCall self.new)) }
    {
        self.try_make(&mut PopAt(Side::Last))
    }

    // Takes out the member at one end, and tries again while another call changes that first.
    fn pop<R: Wait>(&mut self, rt: &R, side: Side) -> Result<Option<(u32, u32)>, LiveError>
        ensures popped { IfOk result (λ taken. Makes (pop_updates (popped taken)) (Pops (summary_of A.parts extent_parts) side (popped taken)) self.old self.new) }
        ensures not_made { IfErr result (λ _. Follows self.old self.new) }
        ensures refused { IfErr result (RefusesCall self.new) }
    {
        for _ in rt.forever() {
            let done = self.make(rt, &mut PopAt(side))?;
            match done {
                Pop::Member(key, weight) => return Ok(Some((key, weight))),
                Pop::Empty => return Ok(None),
                Pop::Refused => {}
            }
        }
        unreachable!()
    }
}
