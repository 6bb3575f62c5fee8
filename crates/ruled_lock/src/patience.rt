//! How a call meets a lock whose value is out.
ghost use Rattle.std.specs.Prelude.{◌≡◌, ◌<◌, IfErr, IfOk, Some};
ghost use Rattle.ruled_lock.specs.Locks.{client_of, missed_of, IsSameKey, HoldsNothing, Holds, Learns};

use crate::lock::{Key, RuledLock};
use crate::rule::{Lesson, LockRule};
use std::sync::Wait;

/// How long a call waits for a value that another key has.
pub trait Patience {
    /// What shows that the call gave up.
    type GaveUp;

    /// Takes the slot of a lock. It gives up only where it found the value out, and then nothing else has changed.
    fn acquire<T, V, P: LockRule<T, V>, M: Lesson<T, V>>(
        &self,
        lock: &RuledLock<T, V, P>,
        key: &mut Key<T, V>,
    ) -> Result<(), Self::GaveUp>
        requires lock { key.old.table_id ≡ lock.now.table.shared.table_id }
        requires free { HoldsNothing key.old }
        requires rule { Learns P.holds key.old.id (client_of key.old) M.fact }
        ensures same { IsSameKey key.old key.new }
        ensures view { client_of key.new ≡ client_of key.old }
        ensures holds { IfOk result (λ _. (t : T) × Holds t (Some t) key.new × M.fact (client_of key.old) t) }
        ensures free { IfErr result (λ _. HoldsNothing key.new) }
        ensures missed { IfErr result (λ _. missed_of key.old < missed_of key.new) };
}

/// It waits until the value is back, and gives up never.
#[derive(Drop)]
pub struct Waits<'r, R: Wait>(pub &'r R);

/// There is no value of it.
#[derive(Drop)]
pub enum Never {}

impl<R: Wait> Patience for Waits<'_, R> {
    type GaveUp = Never;

    #[inline(always)]
    fn acquire<T, V, P: LockRule<T, V>, M: Lesson<T, V>>(
        &self,
        lock: &RuledLock<T, V, P>,
        key: &mut Key<T, V>,
    ) -> Result<(), Never> {
        lock.wait_for::<M, R>(self.0, key);
        Ok(())
    }
}

/// It waits for nobody.
#[derive(Drop)]
pub struct Tries;

/// Shows that a value was out when a call tried to take it. Only `Tries` makes it.
#[derive(Clone, Copy, Debug, PartialEq, Eq)]
pub struct WasOut {
    found: (),
}

impl Patience for Tries {
    type GaveUp = WasOut;

    #[inline(always)]
    fn acquire<T, V, P: LockRule<T, V>, M: Lesson<T, V>>(
        &self,
        lock: &RuledLock<T, V, P>,
        key: &mut Key<T, V>,
    ) -> Result<(), WasOut> {
        if lock.try_for::<M>(key) == 0 {
            Ok(())
        } else {
            Err(WasOut { found: () })
        }
    }
}
