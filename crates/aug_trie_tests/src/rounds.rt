//! How rounds begin, and the round that passes are of. What memory was refused is requested once more.
ghost use Rattle.std.specs.Prelude.{◌≡◌, ◌^◌, IfOk};
ghost use Rattle.aug_trie.specs.Round.{RoundFacts, table_of};
ghost use Rattle.aug_trie_tests.specs.Rounds.{no_round};

use crate::assertions::{equal, holds};
use aug_model::Summary;
use aug_monoid::{Extent, Sum};
use aug_query::ask;
use aug_query::descent::Range;
use aug_testing::Host;
use aug_trie::BeginError::OutOfMemory;
use aug_trie::{BeginError, Climb, Crew, CrewError, Ended, Members, Pass, PassHalf, Round};
use aug_trie_testing::rows::{Numbers, Way};
use std::marker::Brand;

pub(super) type Trie = Ended<Sum, Extent>;

pub(super) type RoundOf = Round<Sum, Extent>;

pub(super) type CrewOf = Crew<Sum, Extent>;

pub(super) type Half = PassHalf<Sum, Extent>;

pub(super) type Walker<'r> = Pass<'r, Sum, Extent>;

pub(super) type Climber<'r> = Climb<'r, Sum, Extent>;

// The round that passes are of.
pub(super) trait OfRound {
    ghost round: { RoundFacts };
}

impl OfRound for Brand {
    ghost round = { no_round };
}

// A round with its crew, and how many keys there are.
#[derive(Drop)]
pub(super) struct Stage {
    pub(super) round: RoundOf,
    pub(super) crew: CrewOf,
    pub(super) universe: u32,
    ghost together: { table_of crew.round ≡ round },
    ghost keys: { universe ≡ 2 ^ crew.round.bits },
}

// The same of a round of so many bits.
fn staged(rt: &impl Host, begun: (RoundOf, CrewOf), bits: u32) -> Stage
    requires bits { begun.1.round.bits ≡ bits }
    requires together { table_of begun.1.round ≡ begun.0 }
{
    holds(rt, bits <= 16);
    let (round, crew) = begun;
    Stage {
        round,
        crew,
        universe: 1 << bits,
    }
}

// A round over a trie, by `begin` if that is the way and the trie has as many bits, or else by `begin_wider`.
fn tried(
    rt: &impl Host,
    ended: Trie,
    way: Way,
    numbers: Numbers,
) -> Result<Stage, (Trie, BeginError)> {
    let (bits, workers, updates) = numbers;
    if matches!(way, Way::Begin) && ended.bits() == bits {
        let begun = Round::begin(rt.alloc(), ended, workers, updates)?;
        return Ok(staged(rt, begun, bits));
    }
    let begun = Round::begin_wider(rt.alloc(), ended, bits, workers, updates)?;
    Ok(staged(rt, begun, bits))
}

// The bits of a trie at rest, its counts, and its members.
fn told(ended: &mut Trie) -> (u32, (u32, u32, u32), Summary<Sum, Extent>) {
    let counts = (ended.inserts(), ended.removals(), ended.missing());
    (ended.bits(), counts, ask(ended, Range(0, u32::MAX)))
}

// Begins a round over a trie, which comes back as it was if that is refused, with the cause.
pub(super) fn kept(
    rt: &impl Host,
    ended: Trie,
    way: Way,
    numbers: Numbers,
) -> Result<Stage, (Trie, BeginError)> {
    let mut ended = ended;
    let before = told(&mut ended);
    match tried(rt, ended, way, numbers) {
        Ok(stage) => Ok(stage),
        Err((mut ended, cause)) => {
            equal(rt, told(&mut ended), before);
            Err((ended, cause))
        }
    }
}

// A round over the list of a set.
fn tried_over(
    rt: &impl Host,
    members: Members,
    numbers: Numbers,
) -> Result<Stage, (Members, BeginError)> {
    let (bits, workers, updates) = numbers;
    let begun = Round::begin_over(rt.alloc(), members, bits, workers, updates)?;
    Ok(staged(rt, begun, bits))
}

// A round over the list of a trie's set.
fn over_list(rt: &impl Host, ended: Trie, numbers: Numbers) -> Result<Stage, BeginError> {
    let members = match ended.into_members(rt.alloc()) {
        Ok(members) => members,
        Err(ended) => ended.into_members(rt.alloc()).map_err(|_| OutOfMemory)?,
    };
    let size = members.size();
    match tried_over(rt, members, numbers) {
        Ok(stage) => Ok(stage),
        Err((members, OutOfMemory)) => {
            equal(rt, members.size(), size);
            tried_over(rt, members, numbers).map_err(|refused| refused.1)
        }
        Err((_, cause)) => Err(cause),
    }
}

// A round over a trie.
pub(super) fn begun(
    rt: &impl Host,
    ended: Trie,
    way: Way,
    numbers: Numbers,
) -> Result<Stage, BeginError> {
    if matches!(way, Way::OverList) {
        return over_list(rt, ended, numbers);
    }
    match kept(rt, ended, way, numbers) {
        Ok(stage) => Ok(stage),
        Err((ended, OutOfMemory)) => tried(rt, ended, way, numbers).map_err(|refused| refused.1),
        Err((_, cause)) => Err(cause),
    }
}

// The trie, or an empty one if there is none.
pub(super) fn or_empty(rt: &impl Host, ended: Option<Trie>, bits: u32) -> Result<Trie, BeginError> {
    match ended {
        Some(ended) => Ok(ended),
        None => Ended::empty(rt.alloc(), bits).or_else(|_| Ended::empty(rt.alloc(), bits)),
    }
}

// The pass of the next lane.
pub(super) fn next_pass<'r>(crew: &mut CrewOf, round: &'r RoundOf) -> Result<Walker<'r>, CrewError>
    requires together { table_of crew.old.round ≡ round.now }
    ensures together { crew.new.round ≡ crew.old.round }
    ensures round { IfOk result (λ pass. pass.round ≡ crew.old.round) }
{
    crew.pass(round)
}
