//! Updates by single turns.
ghost use Rattle.std.specs.Prelude.{◌≡◌, ℕ, ◌+◌, ◌-◌, ◌*◌, ◌^◌, ◌<◌, ◌≤◌};
ghost use Rattle.aug_model.specs.Folds.{summary_of};
ghost use Rattle.aug_model.specs.declared.outcome.Outcome.{Outcome as OutcomeFacts};
ghost use Rattle.aug_core.specs.Layout.{IsWithin};
ghost use Rattle.aug_trie.specs.Pass.{PassFacts, most_update_steps};
ghost use Rattle.aug_trie.specs.inside.Goes.{part_words, try_steps};
ghost use Rattle.aug_trie.specs.Node.{Keeps};
ghost use Rattle.aug_trie.specs.inside.Points.{point_turns};
ghost use Rattle.aug_trie.specs.inside.Climbing.{FitsRequest};
ghost use Rattle.aug_trie.specs.inside.Stages.{ascent_turns, part_above};
ghost use Rattle.aug_trie.specs.Climb.{ClimbFacts, BeginsClimb, Finishes, MayUpdate, TurnsOn};

use crate::rounds::account::Account;
use crate::rounds::pass::Pass;
use crate::turns::ascents::Ascent;
use crate::turns::points::{Point, READING_WORDS};
use crate::turns::stages::{Next, Stage, next_stage};
use crate::updates::parts::PART_WORDS;
use crate::updates::refreshing::PUBLISH_STEPS;
use crate::updates::request::Request;
use aug_model::Outcome;
use aug_monoid::Monoid;
use aug_words::WordPass;
use std::marker::Model;

/// An update that is made turn by turn, one atomic step each. It holds its pass meanwhile. If it is dropped, the pass is
/// given up with its lane. That harms no other pass, and the change may or may not be shown.
#[derive(Drop)]
pub struct Climb<'r, A: Monoid, B: Monoid> {
    pub(crate) words: WordPass<'r, A, B>,
    // As it was before the update.
    pub(crate) account: Account,
    pub(crate) key: u32,
    pub(crate) request: Request,
    pub(crate) stage: Stage,
}

impl<'r, A: Monoid, B: Monoid> Model for Climb<'r, A, B> {
    ghost use Rattle.aug_core.specs.Faces.{face};
    ghost use Rattle.aug_trie.specs.Climb.{ClimbFacts};
    ghost use Rattle.aug_trie.specs.inside.ClimbState.{climb_facts, HoldsClimb};

    ghost Value = { ClimbFacts };

    ghost view = { λ c. climb_facts c.words c.account.bits c.account.left c.key c.request c.stage };

    ghost invariant = { λ c. HoldsClimb (face A.parts B.parts) c.words.view c.account.leaves c.account.bits c.account.next c.account.left c.account.inserts c.account.removals c.key c.request c.stage };
}

/// The result of a turn.
#[derive(Drop)]
pub enum Turn<'r, A: Monoid, B: Monoid> {
    /// There is more to do.
    More(Climb<'r, A, B>),
    /// The update is done: its pass, and its outcome.
    Done(Pass<'r, A, B>, Outcome),
}

impl<'r, A: Monoid, B: Monoid> Pass<'r, A, B> {
    /// Begins to put a key in, with the key itself as its weight, turn by turn. No step is made yet.
    pub fn start_insert(self, k: u32) -> Climb<'r, A, B>
        requires { MayUpdate self k }
        ensures { BeginsClimb Request.Insert k self.entry result }
    {
        start(self, k, Request::Insert)
    }

    /// Begins to take a key out, turn by turn. No step is made yet.
    pub fn start_remove(self, k: u32) -> Climb<'r, A, B>
        requires { MayUpdate self k }
        ensures { BeginsClimb Request.Remove k self.entry result }
    {
        start(self, k, Request::Remove)
    }

    /// Begins to put a key in with a weight, as `put`, turn by turn. No step is made yet.
    pub fn start_put(self, k: u32, weight: u32) -> Climb<'r, A, B>
        requires { MayUpdate self k }
        ensures { BeginsClimb (Request.Put weight) k self.entry result }
    {
        start(self, k, Request::Put(weight))
    }

    /// Begins to add to the weight of a key, as `add`, turn by turn. No step is made yet.
    pub fn start_add(self, k: u32, amount: u32) -> Climb<'r, A, B>
        requires { MayUpdate self k }
        ensures { BeginsClimb (Request.Add amount) k self.entry result }
    {
        start(self, k, Request::Add(amount))
    }

    /// Begins to take from the weight of a key, as `sub`, turn by turn. No step is made yet.
    pub fn start_sub(self, k: u32, amount: u32) -> Climb<'r, A, B>
        requires { MayUpdate self k }
        ensures { BeginsClimb (Request.Sub amount) k self.entry result }
    {
        start(self, k, Request::Sub(amount))
    }

    /// Begins to take a key of this weight out, as `take`, turn by turn. No step is made yet.
    pub fn start_take(self, k: u32, weight: u32) -> Climb<'r, A, B>
        requires { MayUpdate self k }
        ensures { BeginsClimb (Request.Take weight) k self.entry result }
    {
        start(self, k, Request::Take(weight))
    }
}

// Begins an update.
fn start<'r, A: Monoid, B: Monoid>(
    pass: Pass<'r, A, B>,
    key: u32,
    request: Request,
) -> Climb<'r, A, B>
    requires may { MayUpdate pass key }
    requires fits { FitsRequest request }
    ensures { BeginsClimb request key pass.entry result }
{
    let Pass { words, account } = pass;
    let Some(words) = words else { unreachable!() };
    Climb {
        words,
        account,
        key,
        request,
        stage: Stage::Leaf,
    }
}

impl<'r, A: Monoid, B: Monoid> Climb<'r, A, B> {
    /// Makes one atomic step.
    pub fn turn(self) -> Turn<'r, A, B>
        ensures more { (climb : ClimbFacts) → result ≡ Turn.More climb → TurnsOn self.entry climb }
        ensures done { (pass : PassFacts) (outcome : OutcomeFacts) → result ≡ Turn.Done pass outcome → Finishes outcome self.entry pass }
        ensures keeps { (pass : PassFacts) (outcome : OutcomeFacts) → result ≡ Turn.Done pass outcome → Keeps (summary_of A.parts B.parts) self.entry.start pass }
    {
        let Climb {
            mut words,
            account,
            key,
            request,
            stage,
        } = self;
        let next = next_stage(
            &mut words,
            account.leaves,
            account.bits,
            account.next,
            key,
            request,
            stage,
        );
        match next {
            Next::More(stage) => Turn::More(Climb {
                words,
                account,
                key,
                request,
                stage,
            }),
            Next::Done(outcome) => {
                let pass = Pass {
                    words: Some(words),
                    account: account.after(request, outcome),
                };
                Turn::Done(pass, outcome)
            }
        }
    }

    /// The greatest number of turns that may be left: `30 * bits - 10` at the start, and always at least 1.
    pub fn turns_left(&self) -> u32
        ensures turns { result ≡ self.now.left }
        ensures some { 1 ≤ result }
    {
        match self.stage {
            Stage::Leaf => most_update_steps(self.account.bits),
            Stage::Change(_) => most_update_steps(self.account.bits) - 1,
            Stage::Up(_, ascent) => ascent_left(self.account.bits, ascent),
        }
    }
}

// The most steps of an update.
#[inline(always)]
const fn most_update_steps(bits: u32) -> u32
    requires { IsWithin 1 16 bits }
    ensures { result ≡ most_update_steps bits }
{
    30 * bits - 10
}

// How many steps a try at a node takes, whose children are leaves at level 0.
#[inline(always)]
const fn try_steps(level: u32) -> u32
    ensures { result ≡ try_steps (part_above level) }
{
    let part = if level == 0 { 0 } else { PART_WORDS as u32 };
    9 + 2 * part
}

// How many steps two tries at a node take whose children are nodes.
const LEVEL_STEPS: u32 = 30;

// The most turns of an update that is on its way.
fn ascent_left(bits: u32, ascent: Ascent) -> u32
    requires bits { bits ≤ 16 }
    requires level { ascent.level < bits }
    requires some { 1 ≤ point_turns (part_above ascent.level) ascent.point }
    ensures { result ≡ ascent_turns bits ascent }
{
    let whole = try_steps(ascent.level);
    let again = if ascent.second { 0 } else { whole };
    (bits - 1 - ascent.level) * LEVEL_STEPS + again + point_left(whole, ascent.point)
}

// The turns that are left of a try of `whole` steps at a point.
fn point_left(whole: u32, point: Point) -> u32
    requires whole { (part : ℕ) × (whole ≡ try_steps part) × (whole ≤ try_steps part_words) × (1 ≤ point_turns part point) }
    ensures { (part : ℕ) → whole ≡ try_steps part → result ≡ point_turns part point }
{
    match point {
        Point::Node => whole,
        Point::Left(_) => whole - 1,
        Point::Right(_, _) => whole - 2,
        Point::Part(reading) => READING_WORDS as u32 + PUBLISH_STEPS - reading.count as u32,
        Point::Record(filling) => PUBLISH_STEPS - filling.count as u32,
    }
}
