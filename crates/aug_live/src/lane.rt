//! What lies in a lane.
ghost use Rattle.std.specs.Prelude.{◌≡◌, ◌+◌, ◌^◌, ◌<◌, IfOk, IfErr, IsSome, Some, None, true, false};
ghost use Rattle.std.specs.Option.{is_some};
ghost use Rattle.aug_trie.specs.Round.{table_of};
ghost use Rattle.aug_live.specs.inside.LaneKnowledge.{IsDated, LacksUpdates, RunsHere, Seen, Worked, half_in, stands};

use crate::ghost_value::GhostValue;
use crate::operation::Operation;
use aug_monoid::Monoid;
use aug_trie::{PassHalf, Round};
use ruled_lock::WasOut;
use std::alloc::{AllocError, Global};
use std::marker::Model;

/// What lies in a lane: the number of its round, counted from 1, the number of its handle, whether that is out, what its last pass knew,
/// and the half of that pass, unless the round is rolling over or the trie was closed. The round itself is with the handles and on the desk.
#[derive(Drop)]
pub(crate) struct Parts<A: Monoid, B: Monoid> {
    pub(crate) before: Unused,
    pub(crate) era: u64,
    pub(crate) number: u64,
    pub(crate) is_out: bool,
    pub(crate) last: GhostValue<Option<PassHalf<A, B>>>,
    pub(crate) work: Option<PassHalf<A, B>>,
    pub(crate) after: Unused,
}

/// Room beside what one thread writes at each call, so that nothing which another thread uses lies on the same cache lines.
#[derive(Drop)]
pub(crate) struct Unused {
    words: [u64; 16],
}

/// A box with that, so that whoever takes it out of the lane moves a pointer.
#[derive(Drop)]
pub(crate) struct Lane<A: Monoid, B: Monoid> {
    pub(crate) parts: Box<Parts<A, B>, Global>,
}

/// Why a handle makes no update and no look: the lane is taken, the round of this number has to roll over, or a newer handle has the lane.
#[derive(Drop)]
pub(crate) enum Obstacle {
    Held(WasOut),
    Round(u64),
    Replaced,
}

impl<A: Monoid, B: Monoid> Model for Lane<A, B> {
    ghost use Rattle.std.specs.Prelude.{◌≡◌, IfSome};
    ghost use Rattle.std.specs.Option.{is_some};
    ghost use Rattle.aug_live.specs.inside.LaneKnowledge.{IsDated, LaneFacts, half_in, stands};

    ghost Value = { LaneFacts };

    ghost view = { λ l. record { works = is_some l.parts.value.work; number = l.parts.value.number; is_out = l.parts.value.is_out; at = stands l.parts.value.era (half_in l.parts.value.last.value) } };

    ghost invariant = { λ l. IfSome l.parts.value.work (λ w. w ≡ half_in l.parts.value.last.value) × IsDated l.parts.value.era (half_in l.parts.value.last.value) };
}

impl<A: Monoid, B: Monoid> Parts<A, B> {
    /// Puts a pass in, where none is.
    #[inline(always)]
    pub(crate) fn put(&mut self, work: PassHalf<A, B>)
        requires { self.old.work ≡ None }
        ensures { self.new ≡ record self.old { work = Some work } }
    {
        match self.work.replace(work) {
            Some(_) => unreachable!(),
            None => {}
        }
    }
}

impl<A: Monoid, B: Monoid> Lane<A, B> {
    /// A lane before the first round.
    pub(crate) fn new(alloc: Global) -> Result<Lane<A, B>, AllocError>
        ensures { IfOk result (λ lane. lane.number ≡ 0) }
    {
        let none: Option<PassHalf<A, B>> = None;
        let parts = Parts {
            before: Unused { words: [0; 16] },
            era: 0,
            number: 0,
            is_out: false,
            last: GhostValue::of(&none),
            work: none,
            after: Unused { words: [0; 16] },
        };
        match Box::new(alloc, parts) {
            Ok(parts) => Ok(Lane { parts }),
            Err(_) => Err(AllocError),
        }
    }

    // The lane of these parts, with the pass in them.
    #[inline(always)]
    fn of(parts: Box<Parts<A, B>, Global>) -> Lane<A, B>
        requires { IsDated parts.value.era (half_in parts.value.work) }
        ensures { result ≡ record { works = is_some parts.value.work; number = parts.value.number; is_out = parts.value.is_out; at = stands parts.value.era (half_in parts.value.work) } }
    {
        let mut parts = parts;
        parts.last = GhostValue::of(&parts.work);
        Lane { parts }
    }

    /// Takes the pass out, and leaves what it knew.
    #[inline(always)]
    pub(crate) fn into_work(self) -> (PassHalf<A, B>, Lane<A, B>)
        requires { self.works ≡ true }
        ensures work { result.0 ≡ self.at.half }
        ensures rest { result.1 ≡ record self { works = false } }
    {
        let Lane { mut parts } = self;
        let Some(work) = parts.work.take() else {
            unreachable!()
        };
        (work, Lane { parts })
    }

    /// The same lane, whose handle came back.
    pub(crate) fn settled(self) -> Lane<A, B>
        ensures { result ≡ record self { is_out = false } }
    {
        let Lane { mut parts } = self;
        parts.is_out = false;
        Lane { parts }
    }

    /// The same lane with this pass, where none is.
    #[inline(always)]
    pub(crate) fn with(self, work: PassHalf<A, B>) -> Lane<A, B>
        requires none { self.works ≡ false }
        requires round { work.round.era ≡ self.at.half.round.era }
        ensures { result ≡ record self { works = true; at = record self.at { half = work } } }
    {
        let Lane { mut parts } = self;
        parts.put(work);
        Lane::of(parts)
    }

    /// The same lane in the next round, with this pass.
    pub(crate) fn next(self, work: PassHalf<A, B>) -> Lane<A, B>
        requires none { self.works ≡ false }
        requires small { self.at.era + 1 < 2 ^ 64 }
        requires round { work.round.era ≡ self.at.era }
        ensures { result ≡ record self { works = true; at = record self.at { era = self.at.era + 1; half = work } } }
    {
        let Lane { mut parts } = self;
        parts.era += 1;
        parts.put(work);
        Lane::of(parts)
    }

    /// The lane with this pass, for a handle of this number in a round of this era.
    pub(crate) fn working(self, era: u64, number: u64, work: PassHalf<A, B>) -> Lane<A, B>
        requires { IsDated era work }
        ensures { result ≡ record { works = true; number = number; is_out = true; at = stands era work } }
    {
        let Lane { mut parts } = self;
        parts.era = era;
        parts.number = number;
        parts.is_out = true;
        parts.work = Some(work);
        Lane::of(parts)
    }

    /// Does this with its pass, unless no pass lies in the lane, or one that has too few updates left for it.
    #[inline(always)]
    pub(crate) fn run<O: Operation<A, B>>(
        self,
        round: &Round<A, B>,
        op: &mut O,
    ) -> (Lane<A, B>, Result<O::Answer, Obstacle>)
        requires together { table_of self.at.half.round ≡ round.now }
        requires some { 0 < self.at.era }
        requires needs { O.Needs op.old self.at.half.round.table self.at.half.round.bits }
        ensures made { IfOk result.1 (λ answer. RunsHere (O.Does op.old op.new answer) self.at result.0.at) }
        ensures same { IfErr result.1 (λ _. result.0.at ≡ self.at) }
        ensures kept { IfErr result.1 (λ _. op.new ≡ op.old) }
        ensures spent { IfErr result.1 (λ _. LacksUpdates O.least self) }
        ensures seen { IfErr result.1 (λ obstacle. Seen obstacle false) }
        ensures worked { Worked self result.0 }
    {
        if self.parts.work.is_none() {
            let obstacle = Obstacle::Round(self.parts.era);
            return (self, Err(obstacle));
        }
        let era = self.parts.era;
        let (work, rest) = self.into_work();
        if work.budget() < op.least() {
            return (rest.with(work), Err(Obstacle::Round(era)));
        }
        let mut pass = round.pass(work);
        let answer = op.run(era, &mut pass);
        (rest.with(pass.into_half()), Ok(answer))
    }
}
