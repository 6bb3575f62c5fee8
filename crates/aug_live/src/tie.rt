//! The rule of a lane's lock.
ghost use Rattle.std.specs.Prelude.{◌≡◌};
ghost use Rattle.aug_live.specs.inside.LaneKnowledge.{Learnt, dealt, given_out, handed, knows_nothing, left, passed_by, renumbered, settled, taken_in, worked};
ghost use Rattle.aug_live.specs.declared.known.Whose.TheVariants.{Gone};

use crate::known::Known;
use crate::lane::Lane;
use atomic_table::{Join, Split};
use aug_monoid::Monoid;
use ruled_lock::{Lesson, LockRule, Transition};

/// The rule of a lane's lock: the roller's pass knows the round that the lane is of, and the handle's what it left there.
pub(crate) struct Tie;

impl<A: Monoid, B: Monoid> LockRule<Lane<A, B>, Known<A, B>> for Tie {
    ghost use Rattle.aug_live.specs.inside.LaneKnowledge.{Ties, knows_nothing};
    ghost use Rattle.aug_live.specs.declared.known.Whose.TheVariants.{Alone};

    ghost holds = { Ties };

    ghost first = { knows_nothing Alone };
}

/// What a pass learns that takes the lane.
pub(crate) struct Learn;

impl<A: Monoid, B: Monoid> Lesson<Lane<A, B>, Known<A, B>> for Learn {
    ghost fact = { Learnt };
}

/// What a handle's pass knows that puts a lane back.
pub(crate) struct Work;

impl<A: Monoid, B: Monoid> Transition<Lane<A, B>, Known<A, B>> for Work {
    ghost then = { λ v old new w. w ≡ worked v old new };
}

/// What a pass knows that puts a lane back as it was: what it knew.
pub(crate) struct Keep;

impl<A: Monoid, B: Monoid> Transition<Lane<A, B>, Known<A, B>> for Keep {
    ghost then = { λ v old new w. w ≡ v };
}

/// What a handle's pass knows that puts a lane back in which it found a newer handle.
pub(crate) struct PassBy;

impl<A: Monoid, B: Monoid> Transition<Lane<A, B>, Known<A, B>> for PassBy {
    ghost then = { λ v old new w. w ≡ passed_by v };
}

/// What the roller's knows that puts a lane back with the pass that it had, or with none.
pub(crate) struct Leave;

impl<A: Monoid, B: Monoid> Transition<Lane<A, B>, Known<A, B>> for Leave {
    ghost then = { λ v old new w. w ≡ left v new };
}

/// What the roller's knows that marks a lane whose handle came back.
pub(crate) struct Settle;

impl<A: Monoid, B: Monoid> Transition<Lane<A, B>, Known<A, B>> for Settle {
    ghost then = { λ v old new w. w ≡ settled v new };
}

/// What the roller's knows that puts a new pass into a lane.
pub(crate) struct Deal;

impl<A: Monoid, B: Monoid> Transition<Lane<A, B>, Known<A, B>> for Deal {
    ghost then = { λ v old new w. w ≡ dealt v old new };
}

/// What the roller's knows that gives a lane a number which no handle has.
pub(crate) struct Renumber;

impl<A: Monoid, B: Monoid> Transition<Lane<A, B>, Known<A, B>> for Renumber {
    ghost then = { λ v old new w. w ≡ renumbered v new };
}

/// The pass that is alone becomes the roller's, and makes the handle's.
pub(crate) struct Parts;

impl<A: Monoid, B: Monoid> Split<Known<A, B>> for Parts {
    ghost left = { given_out };

    ghost right = { handed };
}

/// The roller's takes in the handle's.
pub(crate) struct Meet;

impl<A: Monoid, B: Monoid> Join<Known<A, B>> for Meet {
    ghost both = { taken_in };

    ghost spent = { knows_nothing Gone };
}
