//! What a pass of a lane's lock knows.

use aug_core::Change;
use aug_monoid::Monoid;
use aug_trie::PassHalf;
use std::marker::Model;

/// Whose a pass of a lane's lock is. No value of it is made.
pub(crate) enum Whose {
    /// The roller's, and no handle has the number of the lane.
    Alone,
    /// The roller's, and a handle has the number of the lane.
    Roller,
    /// The roller's, which took in the pass of the handle that had the number.
    Free,
    /// The same, and the lane is marked so.
    Idle,
    /// A handle's.
    Handle,
    /// Nobody's: the roller's took it in.
    Gone,
}

/// What a pass of a lane's lock knows: whose it is, the number of the lane's handle, whether it saw a newer one there, how the lane was when it put it back,
/// the handles of the lane that are done with what was made through each, what was made with the passes that are back, and what was made through its own
/// handle. No value of it is made.
pub(crate) struct Known<A: Monoid, B: Monoid> {
    pub(crate) whose: Whose,
    pub(crate) number: u64,
    pub(crate) replaced: bool,
    pub(crate) works: bool,
    pub(crate) era: u64,
    pub(crate) half: PassHalf<A, B>,
    pub(crate) done: Vec<(bool, Vec<(u64, Change)>)>,
    pub(crate) before: Vec<(u64, Change)>,
    pub(crate) made: Vec<(u64, Change)>,
}

impl<A: Monoid, B: Monoid> Model for Known<A, B> {
    ghost use Rattle.std.specs.Prelude.{map};
    ghost use Rattle.aug_live.specs.inside.LaneKnowledge.{KnownFacts, stands};

    ghost Value = { KnownFacts };

    ghost view = { λ k. record { whose = k.whose; number = k.number; replaced = k.replaced; works = k.works; at = stands k.era k.half; done = map (λ d. (d.0, d.1.items)) k.done.items; before = k.before.items; made = k.made.items } };
}
