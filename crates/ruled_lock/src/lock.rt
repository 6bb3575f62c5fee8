//! The lock.
ghost use Rattle.std.specs.Prelude.{◌≡◌, ◌≢◌, ◌+◌, ◌<◌, ◌≤◌, ◌++◌, [], ◌∷◌, IfErr, IfOk, IfSome, IsSome, None, Some, vec_capacity, vec_len};
ghost use Rattle.ruled_lock.specs.Locks.{client_of, missed_of, IsSameKey, HoldsNothing, Holds, Learns, TurnsAt, Forks, Meets};

use crate::effects::{Both, Cut, Give, Try};
use crate::holding::Holding;
use crate::patience::Patience;
use crate::rule::{Lesson, LockRule, Transition};
use atomic_table::{Join, Seat, Split, Table, TableRule};
use std::alloc::{AllocError, Global};
use std::marker::PhantomData;
use std::sync::Wait;
use std::thread;
use std::time::Duration;

// How often a thread that waits yields before it sleeps.
const YIELDS: u32 = 256;

// How many microseconds it sleeps at a time.
const PAUSE: u64 = 50;

// Whoever takes the lock writes the word and the slot, which slows down each thread that uses anything else on their cache lines. So 128 unused
// bytes lie on each side of the word, and 8 unused slots, of 16 bytes or more, on each side of the slot.
const WORDS: usize = 33;

const WORD: usize = 16;

const SLOTS: usize = 17;

const SLOT: usize = 8;

// Adds 8 slots that nobody uses.
fn leave_room<T: Drop>(slots: &mut Vec<Option<T>, Global>)
    requires { vec_len slots.old + 8 ≤ vec_capacity slots.old }
    ensures items { slots.new.items ≡ slots.old.items ++ (None ∷ None ∷ None ∷ None ∷ None ∷ None ∷ None ∷ None ∷ []) }
    ensures len { vec_len slots.new ≡ vec_len slots.old + 8 }
    ensures capacity { vec_capacity slots.new ≡ vec_capacity slots.old }
{
    slots.push_reserved(None);
    slots.push_reserved(None);
    slots.push_reserved(None);
    slots.push_reserved(None);
    slots.push_reserved(None);
    slots.push_reserved(None);
    slots.push_reserved(None);
    slots.push_reserved(None);
}

/// The rule of a lock's table: `P` is the caller's rule, which holds for the value whenever the lock is free.
pub struct Locked<P> {
    rule: PhantomData<P>,
}

impl<T, V, P: LockRule<T, V>> TableRule<Option<T>, Holding<T, V>, ()> for Locked<P> {
    ghost use Rattle.ruled_lock.specs.inside.LockState.{IsLocked, idle};

    ghost holds = { λ _. IsLocked P.holds };

    ghost first = { λ _. idle P.first };
}

/// A key of a lock. It has no bytes, and its view is what the caller's rule sees of it.
pub type Key<T, V> = Seat<Option<T>, Holding<T, V>>;

/// A value that one thread at a time holds, under a rule of the caller's.
pub struct RuledLock<T, V, P: LockRule<T, V>> {
    // The word that is used is 0 if the value is in the lock, and 1 if a key holds it.
    pub table: Table<Option<T>, Holding<T, V>, (), Locked<P>, Global>,
    ghost counts: { (table.shared.table_id.words ≡ 33) × (table.shared.table_id.slots ≡ 17) },
}

impl<T: Drop, V, P: LockRule<T, V>> Drop for RuledLock<T, V, P> {
    fn drop(self) {
        let RuledLock { table } = self;
        drop(table);
    }
}

impl<T, V, P: LockRule<T, V>> RuledLock<T, V, P> {
    /// A lock of this value, and its first key.
    pub fn new(alloc: Global, value: T) -> Result<(RuledLock<T, V, P>, Key<T, V>), AllocError>
    where
        T: Drop,
        requires rule { P.holds value (P.first ∷ []) }
        ensures { IfOk result (λ l. (l.1.table_id ≡ l.0.table.shared.table_id) × (l.1.id ≡ 0) × HoldsNothing l.1 × (client_of l.1 ≡ P.first)) }
    {
        let mut slots = Vec::with_capacity(alloc, SLOTS)?;
        leave_room(&mut slots);
        slots.push_reserved(Some(value));
        leave_room(&mut slots);
        match Table::new(alloc, &[0; WORDS], slots, &()) {
            Ok((table, key)) => Ok((RuledLock { table }, key)),
            Err(_) => Err(AllocError),
        }
    }

    /// Cuts a view in two: one more key.
    pub fn another<M: Split<V>>(&self, key: &mut Key<T, V>) -> Key<T, V>
        requires lock { key.old.table_id ≡ self.now.table.shared.table_id }
        requires rule { Forks P.holds key.old.id (client_of key.old) (M.left (client_of key.old)) (M.right (client_of key.old)) }
        ensures same { IsSameKey key.old key.new }
        ensures free { HoldsNothing key.old → HoldsNothing key.new }
        ensures left { client_of key.new ≡ M.left (client_of key.old) }
        ensures new { (result.table_id ≡ key.old.table_id) × HoldsNothing result × (client_of result ≡ M.right (client_of key.old)) }
    {
        self.table.shared.split_seat::<Cut<M>>(key)
    }

    /// Takes in what another key of this lock knows, and ends that key.
    pub fn join<M: Join<V>>(&self, key: &mut Key<T, V>, other: Key<T, V>)
        requires lock { key.old.table_id ≡ self.now.table.shared.table_id }
        requires same_lock { other.table_id ≡ self.now.table.shared.table_id }
        requires free { HoldsNothing other }
        requires rule { Meets P.holds key.old.id (client_of key.old) other.id (client_of other) (M.both (client_of key.old) (client_of other)) M.spent }
        ensures same { IsSameKey key.old key.new }
        ensures taken { key.new.me.0.taken ≡ key.old.me.0.taken }
        ensures slots { key.new.me.1 ≡ key.old.me.1 }
        ensures both { client_of key.new ≡ M.both (client_of key.old) (client_of other) }
    {
        self.table.shared.join_seat::<Both<M>>(key, other);
    }

    /// Takes the value out. If another key has it, the call waits or gives up, as its patience says. It gives up only where it found the value
    /// out.
    #[inline(always)]
    pub fn take<M: Lesson<T, V>, W: Patience>(
        &self,
        how: &W,
        key: &mut Key<T, V>,
    ) -> Result<T, W::GaveUp>
        requires lock { key.old.table_id ≡ self.now.table.shared.table_id }
        requires free { HoldsNothing key.old }
        requires rule { Learns P.holds key.old.id (client_of key.old) M.fact }
        ensures same { IsSameKey key.old key.new }
        ensures view { client_of key.new ≡ client_of key.old }
        ensures holds { IfOk result (λ t. Holds t None key.new) }
        ensures fact { IfOk result (λ t. M.fact (client_of key.old) t) }
        ensures free { IfErr result (λ _. HoldsNothing key.new) }
        ensures missed { IfErr result (λ _. missed_of key.old < missed_of key.new) }
    {
        match how.acquire::<T, V, P, M>(self, key) {
            Ok(()) => match self.table.shared.exchange(key, SLOT, None) {
                Some(value) => Ok(value),
                None => unreachable!(),
            },
            Err(missed) => Err(missed),
        }
    }

    // Takes the slot, unless another key has it: the word as it was, which is then not 0.
    #[inline(always)]
    pub(crate) fn try_for<M: Lesson<T, V>>(&self, key: &mut Key<T, V>) -> u64
        requires lock { key.old.table_id ≡ self.now.table.shared.table_id }
        requires free { HoldsNothing key.old }
        requires rule { Learns P.holds key.old.id (client_of key.old) M.fact }
        ensures same { IsSameKey key.old key.new }
        ensures view { client_of key.new ≡ client_of key.old }
        ensures holds { result ≡ 0 → (t : T) × Holds t (Some t) key.new × M.fact (client_of key.old) t }
        ensures free { result ≢ 0 → HoldsNothing key.new }
        ensures missed { result ≢ 0 → missed_of key.new ≡ missed_of key.old + 1 }
    {
        self.table
            .shared
            .compare_exchange::<Try<M>>(key, WORD, 0, 1)
    }

    // Takes the slot. As long as another key has it, it tries again: at first it yields in between, and then it sleeps. Nobody wakes it: a static library,
    // which may wake nobody, can put values back too.
    #[inline(always)]
    pub(crate) fn wait_for<M: Lesson<T, V>, R: Wait>(&self, rt: &R, key: &mut Key<T, V>)
        requires lock { key.old.table_id ≡ self.now.table.shared.table_id }
        requires free { HoldsNothing key.old }
        requires rule { Learns P.holds key.old.id (client_of key.old) M.fact }
        ensures same { IsSameKey key.old key.new }
        ensures view { client_of key.new ≡ client_of key.old }
        ensures holds { (t : T) × Holds t (Some t) key.new × M.fact (client_of key.old) t }
    {
        let mut yields = 0;
        for _ in rt.forever() {
            if self.try_for::<M>(key) == 0 {
                return;
            }
            if yields < YIELDS {
                yields += 1;
                thread::yield_now();
            } else {
                let pause = Duration::from_micros(PAUSE);
                self.table.shared.park_timeout(rt, WORD, 1, pause);
            }
        }
        unreachable!()
    }

    /// Sleeps for a while, unless a key has the value.
    pub fn pause<R: Wait>(&self, rt: &R) {
        let pause = Duration::from_micros(PAUSE);
        self.table.shared.park_timeout(rt, WORD, 0, pause);
    }

    /// Puts a value back, in the place of the one that was taken.
    #[inline(always)]
    pub fn put<M: Transition<T, V>>(&self, key: &mut Key<T, V>, value: T)
        requires lock { key.old.table_id ≡ self.now.table.shared.table_id }
        requires holds { (t : T) × Holds t None key.old × TurnsAt P.holds key.old.id (client_of key.old) t value M.then }
        ensures same { IsSameKey key.old key.new }
        ensures free { HoldsNothing key.new }
        ensures then { IfSome key.old.me.0.taken (λ t. M.then (client_of key.old) t value (client_of key.new)) }
    {
        match self.table.shared.exchange(key, SLOT, Some(value)) {
            Some(_) => unreachable!(),
            None => {}
        }
        self.table.shared.swap::<Give<M>>(key, WORD, 0);
    }
}
