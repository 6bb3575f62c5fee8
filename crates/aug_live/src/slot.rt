//! Where the reader of a lane lies while no look has it.
ghost use Rattle.std.specs.Prelude.{◌≡◌, ◌<◌, ◌≤◌, ◌^◌, All, IfErr, IfOk, IfSome, IsSome, Some, vec_len};
ghost use Rattle.std.specs.Arc.{arc_value};
ghost use Rattle.aug_trie.specs.Round.{table_of};

use crate::work::SharedRound;
use atomic_table::Split;
use aug_monoid::Monoid;
use aug_trie::{Crew, Reader, Round};
use ruled_lock::{Key, Lesson, LockRule, RuledLock, Transition, Tries, WasOut};
use std::alloc::{AllocError, Global};
use std::marker::Model;
use std::sync::Arc;

/// What lies in a slot: the reader of the lane's last look, unless it was given back, and the round, which a look takes along. The reader is of the round
/// of this number, counted from 1.
#[derive(Drop)]
pub(crate) struct Slot<A: Monoid, B: Monoid> {
    pub(crate) reader: Option<Reader<A, B>>,
    pub(crate) round: SharedRound<A, B>,
    pub(crate) era: u64,
}

impl<A: Monoid, B: Monoid> Model for Slot<A, B> {
    ghost use Rattle.std.specs.Prelude.{◌≡◌, IfSome};
    ghost use Rattle.std.specs.Arc.{arc_value};
    ghost use Rattle.aug_trie.specs.Round.{TableFacts, table_of};

    ghost Value = { TableFacts };

    ghost view = { λ s. arc_value s.round };

    ghost invariant = { λ s. IfSome s.reader (λ r. table_of r.round ≡ arc_value s.round) };
}

/// The rule of a slot's lock: each end knows the table, but for the first one, as long as it is alone.
pub(crate) struct SlotRule;

impl<A: Monoid, B: Monoid> LockRule<Slot<A, B>, Option<Round<A, B>>> for SlotRule {
    ghost use Rattle.std.specs.Prelude.{None};
    ghost use Rattle.aug_live.specs.inside.Slots.{OnSlot};

    ghost holds = { OnSlot };

    ghost first = { None };
}

/// What an end learns that takes what lies there.
pub(crate) struct ReadSlot;

impl<A: Monoid, B: Monoid> Lesson<Slot<A, B>, Option<Round<A, B>>> for ReadSlot {
    ghost use Rattle.std.specs.Prelude.{◌≡◌, IfSome};

    ghost fact = { λ v slot. IfSome v (λ table. slot ≡ table) };
}

/// What an end knows that puts something there.
pub(crate) struct Fill;

impl<A: Monoid, B: Monoid> Transition<Slot<A, B>, Option<Round<A, B>>> for Fill {
    ghost use Rattle.std.specs.Prelude.{◌≡◌, Some};

    ghost then = { λ v old new w. w ≡ Some new };
}

/// One more end, which knows the same.
pub(crate) struct OneMore;

impl<A: Monoid, B: Monoid> Split<Option<Round<A, B>>> for OneMore {
    ghost left = { λ v. v };

    ghost right = { λ v. v };
}

/// The lock of a slot.
pub(crate) type SlotLock<A, B> = RuledLock<Slot<A, B>, Option<Round<A, B>>, SlotRule>;

/// A key of that lock.
pub(crate) type SlotKey<A, B> = Key<Slot<A, B>, Option<Round<A, B>>>;

/// An end of a slot: that of its lane's handle, and that of the desk.
#[derive(Drop)]
pub(crate) struct SlotEnd<A: Monoid, B: Monoid> {
    lock: Arc<SlotLock<A, B>, Global>,
    key: SlotKey<A, B>,
}

impl<A: Monoid, B: Monoid> Model for SlotEnd<A, B> {
    ghost use Rattle.std.specs.Prelude.{◌≡◌, Option};
    ghost use Rattle.std.specs.Arc.{arc_value};
    ghost use Rattle.ruled_lock.specs.Locks.{client_of, HoldsNothing};
    ghost use Rattle.aug_trie.specs.Round.{TableFacts};

    ghost Value = { Option TableFacts };

    ghost view = { λ e. client_of e.key };

    ghost invariant = { λ e. (e.key.table_id ≡ (arc_value e.lock).table.shared.table_id) × HoldsNothing e.key };
}

/// The same while a look has what lies there.
#[derive(Drop)]
pub(crate) struct SlotOut<A: Monoid, B: Monoid> {
    lock: Arc<SlotLock<A, B>, Global>,
    key: SlotKey<A, B>,
}

impl<A: Monoid, B: Monoid> Model for SlotOut<A, B> {
    ghost use Rattle.std.specs.Prelude.{◌≡◌, IsSome, None, Option, [], ◌∷◌};
    ghost use Rattle.std.specs.Arc.{arc_value};
    ghost use Rattle.ruled_lock.specs.Locks.{client_of};
    ghost use Rattle.aug_trie.specs.Round.{TableFacts};

    ghost Value = { Option TableFacts };

    ghost view = { λ o. client_of o.key };

    ghost invariant = { λ o. (o.key.table_id ≡ (arc_value o.lock).table.shared.table_id) × IsSome (client_of o.key) × (o.key.me.0.taken ≡ client_of o.key) × (o.key.me.1 ≡ (8, None) ∷ []) };
}

impl<A: Monoid, B: Monoid> SlotEnd<A, B> {
    /// The two ends of a new slot, in which no reader lies.
    pub(crate) fn pair(
        alloc: Global,
        round: &SharedRound<A, B>,
    ) -> Result<(SlotEnd<A, B>, SlotEnd<A, B>), AllocError>
        ensures ours { IfOk result (λ t. t.0 ≡ Some (arc_value round.now)) }
        ensures theirs { IfOk result (λ t. t.1 ≡ Some (arc_value round.now)) }
    {
        let slot = Slot {
            reader: None,
            round: Arc::try_clone(round)?,
            era: 0,
        };
        let first = Slot {
            reader: None,
            round: Arc::try_clone(round)?,
            era: 0,
        };
        let (lock, mut key) = RuledLock::new(alloc, first)?;
        let Ok(lock) = Arc::new(alloc, lock) else {
            return Err(AllocError);
        };
        let theirs = Arc::try_clone(&lock)?;
        // The first key knows nothing of what lies there, but of what it puts there.
        match lock.take::<ReadSlot, Tries>(&Tries, &mut key) {
            Ok(nothing) => {
                drop(nothing);
                lock.put::<Fill>(&mut key, slot);
            }
            Err(_) => return Err(AllocError),
        }
        let other = lock.another::<OneMore>(&mut key);
        Ok((
            SlotEnd { lock, key },
            SlotEnd {
                lock: theirs,
                key: other,
            },
        ))
    }

    /// One more end of the slot.
    #[inline(always)]
    pub(crate) fn another(&mut self) -> Result<SlotEnd<A, B>, AllocError>
        requires { IsSome self.old }
        ensures same { self.new ≡ self.old }
        ensures other { IfOk result (λ e. e ≡ self.old) }
    {
        let lock = Arc::try_clone(&self.lock)?;
        let key = self.lock.another::<OneMore>(&mut self.key);
        Ok(SlotEnd { lock, key })
    }

    /// Takes out what lies there, unless somebody else has it.
    #[inline(always)]
    pub(crate) fn take(self) -> Result<(SlotOut<A, B>, Slot<A, B>), (SlotEnd<A, B>, WasOut)>
        requires { IsSome self }
        ensures end { IfOk result (λ t. t.0 ≡ self) }
        ensures slot { IfOk result (λ t. Some t.1 ≡ self) }
        ensures same { IfErr result (λ e. e.0 ≡ self) }
    {
        let SlotEnd { lock, mut key } = self;
        match lock.take::<ReadSlot, Tries>(&Tries, &mut key) {
            Ok(slot) => Ok((SlotOut { lock, key }, slot)),
            Err(missed) => Err((SlotEnd { lock, key }, missed)),
        }
    }

    /// Gives the crew the reader that lies there, unless it is of the round of this number, the one at work: its pass may be out, and the crew answers for
    /// readers without telling one from another. While a look has it nothing lies there.
    pub(crate) fn collect(&mut self, round: &Round<A, B>, crew: &mut Crew<A, B>, at_work: u64)
        requires slot { self.old ≡ Some round.now }
        requires together { table_of crew.old.round ≡ round.now }
        ensures same { self.new ≡ self.old }
        ensures crew { crew.new ≡ crew.old }
    {
        match self.lock.take::<ReadSlot, Tries>(&Tries, &mut self.key) {
            Ok(slot) => {
                let Slot {
                    reader,
                    round: own,
                    era,
                } = slot;
                let reader = give_to(crew, round, reader, era == at_work);
                let slot = Slot {
                    reader,
                    round: own,
                    era,
                };
                self.lock.put::<Fill>(&mut self.key, slot);
            }
            Err(_) => {}
        }
    }
}

// Gives a reader to the crew, unless it stays. It comes back if its pass is still out.
fn give_to<A: Monoid, B: Monoid>(
    crew: &mut Crew<A, B>,
    round: &Round<A, B>,
    reader: Option<Reader<A, B>>,
    stays: bool,
) -> Option<Reader<A, B>>
    requires together { table_of crew.old.round ≡ round.now }
    requires table { IfSome reader (λ r. table_of r.round ≡ round.now) }
    ensures crew { crew.new ≡ crew.old }
    ensures same { IfSome result (λ r. table_of r.round ≡ round.now) }
{
    match reader {
        Some(reader) => {
            if stays {
                return Some(reader);
            }
            match crew.take_reader(round, reader) {
                Ok(()) => None,
                Err(reader) => Some(reader),
            }
        }
        None => None,
    }
}

impl<A: Monoid, B: Monoid> SlotOut<A, B> {
    /// Puts a reader there, or none.
    #[inline(always)]
    pub(crate) fn put(self, slot: Slot<A, B>) -> SlotEnd<A, B>
        requires { Some slot ≡ self }
        ensures { result ≡ self }
    {
        let SlotOut { lock, mut key } = self;
        lock.put::<Fill>(&mut key, slot);
        SlotEnd { lock, key }
    }
}

/// Whether the round after that of this number can begin, as the crew says once it has the readers of earlier ones that lie in the slots.
pub(crate) fn may_renew<A: Monoid, B: Monoid>(
    round: &Round<A, B>,
    crew: &mut Crew<A, B>,
    slots: &mut Vec<SlotEnd<A, B>>,
    at_work: u64,
) -> bool
    requires together { table_of crew.old.round ≡ round.now }
    requires room { 2 ^ crew.old.round.bits ≤ crew.old.round.room }
    requires slots { All (λ s. s ≡ Some round.now) slots.old.items }
    ensures crew { crew.new ≡ record crew.old { free = result } }
    ensures slots { All (λ s. s ≡ Some round.now) slots.new.items }
    ensures len { vec_len slots.new ≡ vec_len slots.old }
{
    if crew.may_renew(round) {
        return true;
    }
    collect_all(round, crew, slots, at_work);
    crew.may_renew(round)
}

// Gives the crew the readers of rounds before that of this number that lie in the slots.
fn collect_all<A: Monoid, B: Monoid>(
    round: &Round<A, B>,
    crew: &mut Crew<A, B>,
    slots: &mut Vec<SlotEnd<A, B>>,
    at_work: u64,
)
    requires together { table_of crew.old.round ≡ round.now }
    requires slots { All (λ s. s ≡ Some round.now) slots.old.items }
    ensures crew { crew.new ≡ crew.old }
    ensures slots { All (λ s. s ≡ Some round.now) slots.new.items }
    ensures len { vec_len slots.new ≡ vec_len slots.old }
{
    for i in 0..slots.len() {
        slots[i].collect(round, crew, at_work);
    }
}

/// One more end of the slot of the lane with this number. The first lane has the last slot.
pub(crate) fn end_of<A: Monoid, B: Monoid>(
    round: &Round<A, B>,
    slots: &mut Vec<SlotEnd<A, B>>,
    lane: usize,
) -> Result<SlotEnd<A, B>, AllocError>
    requires slots { All (λ s. s ≡ Some round.now) slots.old.items }
    requires low { lane < vec_len slots.old }
    ensures slots { All (λ s. s ≡ Some round.now) slots.new.items }
    ensures len { vec_len slots.new ≡ vec_len slots.old }
    ensures end { IfOk result (λ e. e ≡ Some round.now) }
{
    // For the proof alone: which round it is.
    let _ = round;
    let place = slots.len() - 1 - lane;
    slots[place].another()
}
