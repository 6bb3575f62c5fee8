//! Tries that take a value or miss it, and a thread that waits for a lock, and nobody but the one that has it to wake it.
ghost use Rattle.std.specs.Prelude.{◌≡◌, None};
ghost use Rattle.ruled_lock.specs.Locks.{Holds, HoldsNothing};

use crate::assertions::equal;
use atomic_table::Split;
use ruled_lock::{Key, Lesson, LockRule, RuledLock, Transition, Tries, Waits, WasOut};
use std::alloc::AllocError;
use std::process::Abort;
use std::sync::Wait;
use std::sync::atomic::AtomicU64;
use std::sync::atomic::Ordering::SeqCst;
use std::thread;
use std::time::{Clock, Duration};

// A rule that says nothing.
struct Anything;

impl LockRule<u64, ()> for Anything {
    ghost holds = { λ _ _. Unit {0} };

    ghost first = { tt };
}

impl Lesson<u64, ()> for Anything {
    ghost fact = { λ _ _. Unit {0} };
}

impl Transition<u64, ()> for Anything {
    ghost then = { λ _ _ _ _. Unit {0} };
}

impl Split<()> for Anything {
    ghost left = { λ v. v };

    ghost right = { λ v. v };
}

// A count behind a lock.
type Lock = RuledLock<u64, (), Anything>;

// A key of the lock.
#[derive(Drop)]
struct End<'l> {
    lock: &'l Lock,
    key: Key<u64, ()>,
    ghost of: { key.table_id ≡ lock.now.table.shared.table_id },
    ghost free: { HoldsNothing key },
}

// The same while it has the count.
struct Held<'l> {
    lock: &'l Lock,
    key: Key<u64, ()>,
    count: u64,
    ghost of: { key.table_id ≡ lock.now.table.shared.table_id },
    ghost holds: { Holds count None key },
}

impl<'l> End<'l> {
    // Takes the count, and waits while the other end has it.
    fn take<R: Wait>(self, rt: &R) -> Held<'l> {
        let End { lock, mut key } = self;
        match lock.take::<Anything, Waits<'_, R>>(&Waits(rt), &mut key) {
            Ok(count) => Held { lock, key, count },
            Err(never) => match never {},
        }
    }

    // Takes the count, unless another end has it.
    fn try_take(self) -> Result<Held<'l>, (End<'l>, WasOut)> {
        let End { lock, mut key } = self;
        match lock.take::<Anything, Tries>(&Tries, &mut key) {
            Ok(count) => Ok(Held { lock, key, count }),
            Err(missed) => Err((End { lock, key }, missed)),
        }
    }
}

impl<'l> Held<'l> {
    // Puts the count back, with one more.
    fn put(self) -> End<'l> {
        let Held {
            lock,
            mut key,
            count,
        } = self;
        lock.put::<Anything>(&mut key, count.wrapping_add(1));
        End { lock, key }
    }
}

// Three ends of a lock, of its first key.
fn ends<'l>(lock: &'l Lock, first: Key<u64, ()>) -> (End<'l>, End<'l>, End<'l>)
    requires of { first.table_id ≡ lock.now.table.shared.table_id }
    requires free { HoldsNothing first }
{
    let mut key = first;
    let other = lock.another::<Anything>(&mut key);
    let third = lock.another::<Anything>(&mut key);
    (
        End { lock, key },
        End { lock, key: other },
        End { lock, key: third },
    )
}

// Tries to take the count, while another end has it.
fn misses<'l>(rt: &impl Abort, end: End<'l>) -> End<'l> {
    match end.try_take() {
        Ok(held) => {
            drop(held.put());
            panic!(rt; "taken, while it was out");
        }
        Err((end, _)) => end,
    }
}

// Tries to take the count, while no other end has it, and puts it back with one more.
fn raises<'l>(rt: &impl Abort, end: End<'l>, count: u64) -> End<'l> {
    let held = end.try_take().ok().expect(rt, "the count");
    equal(rt, held.count, count);
    held.put()
}

#[test]
fn a_try_takes_the_value_unless_it_is_out(rt: HostRuntime) -> Result<(), AllocError> {
    let (lock, first): (Lock, Key<u64, ()>) = RuledLock::new(rt.alloc(), 7)?;
    let (one, other, third) = ends(&lock, first);
    let other = raises(&rt, other, 7);
    let held = one.take(&rt);
    equal(&rt, held.count, 8);
    let (other, third) = (misses(&rt, other), misses(&rt, third));
    let other = misses(&rt, other);
    let one = held.put();
    let other = raises(&rt, other, 9);
    let one = raises(&rt, one, 10);
    let held = third.try_take().ok().expect(&rt, "the count");
    drop((misses(&rt, one), misses(&rt, other)));
    let held = held.put().take(&rt);
    equal(&rt, held.count, 12);
    drop(held.put());
    Ok(())
}

// How far two threads have come, each of which waits for the other.
#[derive(Drop)]
struct Turns {
    count: AtomicU64,
}

impl Turns {
    fn raise(&self) {
        self.count.fetch_add(1, SeqCst);
    }

    fn wait_for<R: Wait>(&self, rt: &R, count: u64) {
        for _ in rt.forever() {
            if self.count.load(SeqCst) >= count {
                return;
            }
            thread::yield_now();
        }
    }
}

const TIMES: u64 = 1_000;

// Takes the lock, puts the count back once the other thread waits and had time to fall asleep, and takes the lock again only once that one has
// had it. Meanwhile a third end tries to take the lock, which costs the other thread nothing. The count at the end.
fn lends<R: Wait + Clock + Abort>(rt: &R, end: End<'_>, third: End<'_>, turns: &Turns) -> u64 {
    let (mut end, mut third) = (end, third);
    for i in 0..TIMES {
        let held = end.take(rt);
        turns.raise();
        turns.wait_for(rt, 3 * i + 2);
        thread::sleep(rt, Duration::from_micros(200));
        third = misses(rt, third);
        end = held.put();
        turns.wait_for(rt, 3 * i + 3);
    }
    let held = end.take(rt);
    let count = held.count;
    drop(held.put());
    count
}

// Takes the lock each time that the other thread has it.
fn borrows<R: Wait>(rt: &R, end: End<'_>, turns: &Turns) {
    let mut end = end;
    for i in 0..TIMES {
        turns.wait_for(rt, 3 * i + 1);
        turns.raise();
        end = end.take(rt).put();
        turns.raise();
    }
}

#[test]
fn a_thread_that_waits_is_woken_1000_times_by_one_release(
    rt: HostRuntime,
) -> Result<(), AllocError> {
    let (lock, first): (Lock, Key<u64, ()>) = RuledLock::new(rt.alloc(), 0)?;
    let (one, other, third) = ends(&lock, first);
    let turns = Turns {
        count: AtomicU64::new(0),
    };
    let (r, t) = (&rt, &turns);
    let (count, ()) = thread::join(
        r,
        move || lends(r, one, third, t),
        move || borrows(r, other, t),
    );
    equal(r, count, 2 * TIMES);
    Ok(())
}
