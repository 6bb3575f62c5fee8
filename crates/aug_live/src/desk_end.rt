//! The desk, and the ends of its lock.
ghost use Rattle.std.specs.Prelude.{◌≡◌, [], ◌∷◌, ◌<◌, IfOk, IfErr, IsSome, None, Some};
ghost use Rattle.std.specs.Arc.{arc_value};
ghost use Rattle.ruled_lock.specs.Locks.{HoldsNothing, IsSameKey, client_of};
ghost use Rattle.aug_trie.specs.Round.{table_of};
ghost use Rattle.aug_live.specs.LiveErrors.{IfRefused, RefusesRoll, RefusesRound, RefusesSlot};
ghost use Rattle.aug_live.specs.LiveTries.{KeepsHandles, KnowsMore};
ghost use Rattle.aug_live.specs.inside.DeskKnowledge.{GoesOnFrom, IsOwner};
ghost use Rattle.aug_live.specs.inside.LaneKnowledge.{IsSameEnd};
ghost use Rattle.aug_live.specs.inside.Looks.{EndShows, HasReaders};
ghost use Rattle.aug_live.specs.declared.known.Whose.TheVariants.{Handle};

use crate::ahead::Ahead;
use crate::desk::Working;
use crate::end::End;
use crate::error::{LiveError, TryError};
use crate::operation::Show;
use crate::slot::{Slot, SlotEnd, SlotOut};
use atomic_table::Split;
use aug_monoid::Monoid;
use aug_trie::{PassHalf, Round, Snapshot};
use ruled_lock::{Key, Lesson, LockRule, Patience, RuledLock, Transition, Tries};
use std::alloc::{AllocError, Global};
use std::marker::Model;
use std::sync::{Arc, Wait};

/// The desk: the round that goes on, unless the trie was closed or is not open yet.
#[derive(Drop)]
pub(crate) struct Desk<A: Monoid, B: Monoid> {
    pub(crate) working: Option<Working<A, B>>,
    pub(crate) opened: bool,
}

/// What an end of the desk knows of its trie. No value of it is made.
pub(crate) struct DeskView<A: Monoid, B: Monoid> {
    closed: bool,
    half: PassHalf<A, B>,
    lanes: Vec<End<A, B>>,
    held: u64,
    given: u64,
}

impl<A: Monoid, B: Monoid> Model for DeskView<A, B> {
    ghost use Rattle.std.specs.Prelude.{map};
    ghost use Rattle.aug_trie.specs.Pass.{chain_of};
    ghost use Rattle.aug_live.specs.LiveTries.{TrieFacts};
    ghost use Rattle.aug_live.specs.inside.LaneKnowledge.{lane_by};

    ghost Value = { TrieFacts };

    ghost view = { λ t. record { closed = t.closed; table = t.half.round.table; bits = t.half.round.bits; lanes = map lane_by t.lanes.items; held = t.held; given = t.given; rounds = chain_of t.half } };
}

/// The rule of the desk's lock: each end knows a part of the rounds of the trie that lies there, and the owner's whether one does.
pub(crate) struct DeskRule;

impl<A: Monoid, B: Monoid> LockRule<Desk<A, B>, DeskView<A, B>> for DeskRule {
    ghost use Rattle.aug_live.specs.inside.DeskKnowledge.{OnDesk};
    ghost use Rattle.aug_live.specs.inside.LaneKnowledge.{no_trie};

    ghost holds = { OnDesk };

    ghost first = { no_trie };
}

/// What an end learns that takes what lies there.
pub(crate) struct Read;

impl<A: Monoid, B: Monoid> Lesson<Desk<A, B>, DeskView<A, B>> for Read {
    ghost use Rattle.aug_live.specs.inside.DeskKnowledge.{KnowsDesk};

    ghost fact = { KnowsDesk };
}

/// What the owner's end learns.
pub(crate) struct ReadOwn;

impl<A: Monoid, B: Monoid> Lesson<Desk<A, B>, DeskView<A, B>> for ReadOwn {
    ghost use Rattle.aug_live.specs.inside.DeskKnowledge.{KnowsOwn};

    ghost fact = { KnowsOwn };
}

/// What an end knows that puts something there.
pub(crate) struct Lay;

impl<A: Monoid, B: Monoid> Transition<Desk<A, B>, DeskView<A, B>> for Lay {
    ghost use Rattle.aug_live.specs.inside.DeskKnowledge.{is_known};

    ghost then = { is_known };
}

/// What an end knows that puts something there and learns nothing from it: what it knew.
pub(crate) struct Keep;

impl<A: Monoid, B: Monoid> Transition<Desk<A, B>, DeskView<A, B>> for Keep {
    ghost then = { λ v old new w. w ≡ v };
}

/// One more end, which knows the same.
pub(crate) struct Same;

impl<A: Monoid, B: Monoid> Split<DeskView<A, B>> for Same {
    ghost left = { λ v. v };

    ghost right = { λ v. v };
}

/// The lock of the desk.
pub(crate) type DeskLock<A, B> = RuledLock<Desk<A, B>, DeskView<A, B>, DeskRule>;

/// A key of that lock.
pub(crate) type DeskKey<A, B> = Key<Desk<A, B>, DeskView<A, B>>;

/// A handle's end of the desk's lock.
#[derive(Drop)]
pub(crate) struct DeskEnd<A: Monoid, B: Monoid> {
    pub(crate) lock: Arc<DeskLock<A, B>, Global>,
    pub(crate) key: DeskKey<A, B>,
}

impl<A: Monoid, B: Monoid> Model for DeskEnd<A, B> {
    ghost use Rattle.std.specs.Prelude.{◌≡◌};
    ghost use Rattle.std.specs.Arc.{arc_value};
    ghost use Rattle.ruled_lock.specs.Locks.{client_of, HoldsNothing};
    ghost use Rattle.aug_live.specs.LiveTries.{TrieFacts};

    ghost Value = { TrieFacts };

    ghost view = { λ e. client_of e.key };

    ghost invariant = { λ e. (e.key.table_id ≡ (arc_value e.lock).table.shared.table_id) × HoldsNothing e.key };
}

/// The desk of a trie to come, of which the owner's key took out that nothing lies there.
#[derive(Drop)]
pub(crate) struct NewDesk<A: Monoid, B: Monoid> {
    pub(crate) lock: Arc<DeskLock<A, B>, Global>,
    key: DeskKey<A, B>,
    ghost of: { key.table_id ≡ (arc_value lock).table.shared.table_id },
    ghost first: { key.id ≡ 0 },
    ghost out: { IsSome key.me.0.taken × (key.me.1 ≡ (8, None) ∷ []) },
    ghost no_trie: { (client_of key).bits ≡ 0 },
}

impl<A: Monoid, B: Monoid> NewDesk<A, B> {
    pub(crate) fn new(alloc: Global) -> Result<NewDesk<A, B>, AllocError> {
        let desk = Desk {
            working: None,
            opened: false,
        };
        let (lock, mut key) = RuledLock::new(alloc, desk)?;
        let Ok(lock) = Arc::new(alloc, lock) else {
            return Err(AllocError);
        };
        match lock.take::<Read, Tries>(&Tries, &mut key) {
            Ok(_) => Ok(NewDesk { lock, key }),
            Err(_) => Err(AllocError),
        }
    }

    /// Lays the first round there.
    pub(crate) fn place(
        self,
        working: Working<A, B>,
    ) -> (Arc<DeskLock<A, B>, Global>, DeskKey<A, B>)
        requires some { 0 < working.bits }
        ensures lock { result.0 ≡ self.lock }
        ensures of { result.1.table_id ≡ (arc_value self.lock).table.shared.table_id }
        ensures free { HoldsNothing result.1 }
        ensures owner { IsOwner result.1.id (client_of result.1) }
        ensures knows { client_of result.1 ≡ working }
    {
        let NewDesk { lock, mut key } = self;
        let _bits = working.bits;
        let desk = Desk {
            working: Some(working),
            opened: true,
        };
        lock.put::<Lay>(&mut key, desk);
        (lock, key)
    }
}

impl<A: Monoid, B: Monoid> DeskEnd<A, B> {
    /// Rolls the round over if that was begun, and then sees to it that a lane has a pass, if it was spent in this era, as `Working::refill` does. Refused
    /// with `Closed` if there is no round, and with `Exhausted`. False as there.
    pub(crate) fn refill<W: Patience>(
        &mut self,
        how: &W,
        spent: Option<(u64, usize)>,
    ) -> Result<bool, TryError<W::GaveUp>>
        ensures more { KnowsMore self.old self.new }
        ensures refused { IfErr result (IfRefused (RefusesRound self.new)) }
    {
        match self.lock.take::<Read, W>(how, &mut self.key) {
            Ok(Desk { working, opened }) => match working {
                Some(working) => {
                    let (working, done) = working.refill(how, spent);
                    lay_on(&self.lock, &mut self.key, working);
                    done
                }
                None => {
                    let none = Desk {
                        working: None,
                        opened,
                    };
                    self.lock.put::<Lay>(&mut self.key, none);
                    Err(TryError::Refused(LiveError::Closed))
                }
            },
            Err(missed) => Err(TryError::Again(missed)),
        }
    }
}

impl<A: Monoid, B: Monoid> DeskEnd<A, B> {
    /// Has the next round laid out further, as `prepare_on` does. All that is known of the trie stays as it is.
    pub(crate) fn prepare<W: Patience>(&mut self, how: &W, nodes: u32) -> Result<Ahead, W::GaveUp>
        ensures { self.new ≡ self.old }
    {
        prepare_on(how, &self.lock, &mut self.key, nodes)
    }

    /// Takes what lies in a slot where the desk is at hand, which whoever collects readers has. Refused with `Looking` if a look has it.
    #[inline(never)]
    pub(crate) fn take_slot<W: Patience>(
        &mut self,
        how: &W,
        slot: SlotEnd<A, B>,
    ) -> Result<(SlotOut<A, B>, Slot<A, B>), TryError<W::GaveUp>>
        requires { IsSome slot }
        ensures same { self.new ≡ self.old }
        ensures taken { IfOk result (λ t. (t.0 ≡ slot) × (Some t.1 ≡ slot)) }
        ensures refused { IfErr result (IfRefused RefusesSlot) }
    {
        match self.lock.take::<Read, W>(how, &mut self.key) {
            Ok(desk) => {
                let taken = slot.take();
                self.lock.put::<Keep>(&mut self.key, desk);
                match taken {
                    Ok(taken) => Ok(taken),
                    Err((_, lock)) => Err(TryError::Refused(LiveError::Looking(lock))),
                }
            }
            Err(missed) => Err(TryError::Again(missed)),
        }
    }

    /// Takes a snapshot for a look with the end of a lane, where the desk is at hand, as `Working::show` does. None if no round lies there.
    pub(crate) fn show<W: Patience>(
        &mut self,
        how: &W,
        end: End<A, B>,
        number: u64,
        round: &Round<A, B>,
        show: &mut Show<A, B>,
    ) -> (End<A, B>, Result<Option<Snapshot>, W::GaveUp>)
        requires handle { end.known.whose ≡ Handle }
        requires some { 0 < end.known.at.era }
        requires number { end.known.number ≡ number }
        requires together { table_of end.known.at.half.round ≡ round.now }
        requires table { self.old.table ≡ round.now.table }
        requires readers { HasReaders show.old.reader show.old.left round.now.table }
        ensures desk { self.new ≡ self.old }
        ensures same { IsSameEnd end result.0 }
        ensures shows { IfOk result.1 (λ shown. EndShows show.old.reader show.new.reader show.new.left show.new.era shown end result.0) }
        ensures missed { IfErr result.1 (λ _. (result.0 ≡ end) × (show.new ≡ show.old)) }
    {
        match self.lock.take::<Read, W>(how, &mut self.key) {
            Ok(Desk { working, opened }) => match working {
                Some(working) => {
                    let mut working = working;
                    let (end, shown) = working.show(end, number, round, show);
                    let desk = Desk {
                        working: Some(working),
                        opened,
                    };
                    self.lock.put::<Keep>(&mut self.key, desk);
                    (end, Ok(shown))
                }
                None => {
                    let none = Desk {
                        working: None,
                        opened,
                    };
                    self.lock.put::<Keep>(&mut self.key, none);
                    (end, Ok(None))
                }
            },
            Err(missed) => (end, Err(missed)),
        }
    }

    /// Sleeps for a while, unless somebody has the desk.
    pub(crate) fn pause<R: Wait>(&self, rt: &R) {
        self.lock.pause(rt);
    }
}

/// Has the crew of the round that lies on the desk lay the next one out further, as `Working::prepare` does.
pub(crate) fn prepare_on<W: Patience, A: Monoid, B: Monoid>(
    how: &W,
    lock: &DeskLock<A, B>,
    key: &mut DeskKey<A, B>,
    nodes: u32,
) -> Result<Ahead, W::GaveUp>
    requires lock { key.old.table_id ≡ lock.now.table.shared.table_id }
    requires free { HoldsNothing key.old }
    ensures same { IsSameKey key.old key.new }
    ensures free { HoldsNothing key.new }
    ensures view { client_of key.new ≡ client_of key.old }
{
    match lock.take::<Read, W>(how, key) {
        Ok(Desk { working, opened }) => match working {
            Some(working) => {
                let mut working = working;
                let ahead = working.prepare(nodes);
                let desk = Desk {
                    working: Some(working),
                    opened,
                };
                lock.put::<Keep>(key, desk);
                Ok(ahead)
            }
            None => {
                let none = Desk {
                    working: None,
                    opened,
                };
                lock.put::<Keep>(key, none);
                Ok(Ahead {
                    after: u32::MAX,
                    more: false,
                })
            }
        },
        Err(missed) => Err(missed),
    }
}

/// Takes the round off the desk for the trie's owner, whose trie is open.
pub(crate) fn take_own<W: Patience, A: Monoid, B: Monoid>(
    how: &W,
    lock: &DeskLock<A, B>,
    key: &mut DeskKey<A, B>,
) -> Result<Working<A, B>, W::GaveUp>
    requires lock { key.old.table_id ≡ lock.now.table.shared.table_id }
    requires free { HoldsNothing key.old }
    requires owner { IsOwner key.old.id (client_of key.old) }
    ensures same { IsSameKey key.old key.new }
    ensures view { client_of key.new ≡ client_of key.old }
    ensures takes { IfOk result (GoesOnFrom key.new) }
    ensures goes_on { IfOk result (KeepsHandles (client_of key.old)) }
    ensures free { IfErr result (λ _. HoldsNothing key.new) }
{
    match lock.take::<ReadOwn, W>(how, key) {
        Ok(Desk { working, .. }) => match working {
            Some(working) => Ok(working),
            None => unreachable!(),
        },
        Err(missed) => Err(missed),
    }
}

/// The same, and rolls the round over if that was begun.
pub(crate) fn take_settled<W: Patience, A: Monoid, B: Monoid>(
    how: &W,
    lock: &DeskLock<A, B>,
    key: &mut DeskKey<A, B>,
) -> Result<Working<A, B>, TryError<W::GaveUp>>
    requires lock { key.old.table_id ≡ lock.now.table.shared.table_id }
    requires free { HoldsNothing key.old }
    requires owner { IsOwner key.old.id (client_of key.old) }
    ensures same { IsSameKey key.old key.new }
    ensures owner { IsOwner key.new.id (client_of key.new) }
    ensures takes { IfOk result (GoesOnFrom key.new) }
    ensures settled { IfOk result (λ t. KeepsHandles (client_of key.old) t × (t.held ≡ 0)) }
    ensures free { IfErr result (λ _. HoldsNothing key.new × KeepsHandles (client_of key.old) (client_of key.new)) }
    ensures refused { IfErr result (IfRefused (RefusesRoll (client_of key.new))) }
{
    match take_own(how, lock, key) {
        Ok(working) => {
            let (working, settled) = working.settle(how);
            match settled {
                Ok(()) => Ok(working),
                Err(cause) => {
                    lay_on(lock, key, working);
                    Err(cause)
                }
            }
        }
        Err(missed) => Err(TryError::Again(missed)),
    }
}

/// Lays the round there again, or the next one. Only the owner may have made a handle meanwhile.
pub(crate) fn lay_on<A: Monoid, B: Monoid>(
    lock: &DeskLock<A, B>,
    key: &mut DeskKey<A, B>,
    working: Working<A, B>,
)
    requires lock { key.old.table_id ≡ lock.now.table.shared.table_id }
    requires goes_on { GoesOnFrom key.old working }
    ensures same { IsSameKey key.old key.new }
    ensures free { HoldsNothing key.new }
    ensures view { client_of key.new ≡ working }
    ensures owner { IsOwner key.old.id (client_of key.old) → IsOwner key.new.id (client_of key.new) }
    ensures more { KnowsMore (client_of key.old) (client_of key.new) }
{
    let _bits = working.bits;
    let desk = Desk {
        working: Some(working),
        opened: true,
    };
    lock.put::<Lay>(key, desk);
}
