//! Rounds that are renewed in their own memory, where readers hold them up, and accounts that are closed.
ghost use Rattle.std.specs.Prelude.{◌≡◌, ◌^◌, ◌≤◌, IfOk};
ghost use Rattle.aug_trie.specs.Round.{table_of};

use super::playing::changed;
use super::rounds::{CrewOf, RoundOf};
use crate::assertions::{equal, holds};
use crate::eras::closed_over;
use aug_monoid::{Extent, Sum};
use aug_query::descent::Weight;
use aug_trie::BeginError::{OutOfMemory, TooLarge};
use aug_trie::{BeginError, Members, Reader, Round};
use aug_trie_testing::rows::Change::Insert;
use std::alloc::Global;
use std::process::Abort;

type ReaderOf = Reader<Sum, Extent>;

// A round of two lanes over no keys, with room for all keys, in a table of so many parts.
fn begun(alloc: Global, parts: u32) -> Result<(RoundOf, CrewOf), BeginError>
    requires parts { 2 ≤ parts }
    ensures bits { IfOk result (λ t. t.1.round.bits ≡ 4) }
    ensures room { IfOk result (λ t. 2 ^ t.1.round.bits ≤ t.1.round.room) }
    ensures together { IfOk result (λ t. table_of t.1.round ≡ t.0) }
    ensures none_out { IfOk result (λ t. t.1.back ≡ t.1.handed) }
{
    let nothing = Members::empty(alloc, 4)?;
    Round::begin_for_all(alloc, nothing, 2, 2, parts).map_err(|_| OutOfMemory)
}

// The next round, which can begin.
fn rolled(rt: &impl Abort, round: &RoundOf, crew: CrewOf) -> CrewOf
    requires room { 2 ^ crew.round.bits ≤ crew.round.room }
    requires together { table_of crew.round ≡ round.now }
    requires none_out { crew.back ≡ crew.handed }
    ensures room { 2 ^ result.round.bits ≤ result.round.room }
    ensures together { table_of result.round ≡ round.now }
    ensures none_out { result.back ≡ result.handed }
{
    let mut crew = crew;
    holds(rt, crew.may_renew(round));
    round.renew(crew).0
}

#[test]
fn a_reader_goes_back_to_who_answers_for_it(rt: HostRuntime) -> Result<(), BeginError> {
    let (round, mut crew) = begun(rt.alloc(), 2)?;
    let mut pass = crew.pass(&round).expect(&rt, "lane 0");
    let mut other = crew.pass(&round).expect(&rt, "lane 1");
    let (first, second) = (pass.lend(), pass.lend());
    // Another pass does not, and the crew only once it has the pass.
    let Err(first) = other.take_reader(first) else {
        return Err(TooLarge);
    };
    let Err(first) = crew.take_reader(&round, first) else {
        return Err(TooLarge);
    };
    // One of two is taken by the pass, and one is left.
    holds(&rt, pass.take_reader(second).is_ok());
    crew.back(pass);
    crew.back(other);
    equal(&rt, crew.prepare(&round, 0), false);
    equal(&rt, crew.prepare(&round, 100), true);
    let mut crew = rolled(&rt, &round, crew);
    equal(&rt, crew.may_renew(&round), false);
    // A pass of the next round reads elsewhere.
    let mut pass = crew.pass(&round).expect(&rt, "lane 0 of the next round");
    let Err(first) = pass.take_reader(first) else {
        return Err(TooLarge);
    };
    crew.back(pass);
    holds(&rt, crew.take_reader(&round, first).is_ok());
    rolled(&rt, &round, crew);
    Ok(())
}

// A pass of the round lends a reader and comes back.
fn lent(rt: &impl Abort, round: &RoundOf, crew: CrewOf) -> (CrewOf, ReaderOf)
    requires room { 2 ^ crew.round.bits ≤ crew.round.room }
    requires together { table_of crew.round ≡ round.now }
    requires none_out { crew.back ≡ crew.handed }
    ensures room { 2 ^ result.0.round.bits ≤ result.0.round.room }
    ensures together { table_of result.0.round ≡ round.now }
    ensures none_out { result.0.back ≡ result.0.handed }
    ensures reader { table_of result.1.round ≡ round.now }
{
    let mut crew = crew;
    let mut pass = crew.pass(round).expect(rt, "lane 0");
    let reader = pass.lend();
    crew.back(pass);
    (crew, reader)
}

// Readers are out in all parts, so no round begins, until this one is back, in whose part the next one begins. That lends one too.
fn instead(rt: &impl Abort, round: &RoundOf, crew: CrewOf, reader: ReaderOf) -> (CrewOf, ReaderOf)
    requires room { 2 ^ crew.round.bits ≤ crew.round.room }
    requires together { table_of crew.round ≡ round.now }
    requires none_out { crew.back ≡ crew.handed }
    requires reader { table_of reader.round ≡ round.now }
    ensures room { 2 ^ result.0.round.bits ≤ result.0.round.room }
    ensures together { table_of result.0.round ≡ round.now }
    ensures none_out { result.0.back ≡ result.0.handed }
    ensures reader { table_of result.1.round ≡ round.now }
{
    let mut crew = crew;
    equal(rt, crew.may_renew(round), false);
    equal(rt, crew.prepare(round, 0), true);
    holds(rt, crew.take_reader(round, reader).is_ok());
    let crew = rolled(rt, round, crew);
    lent(rt, round, crew)
}

#[test]
fn a_round_begins_in_the_part_of_a_reader_that_is_back(rt: HostRuntime) -> Result<(), BeginError> {
    let (round, crew) = begun(rt.alloc(), 4)?;
    let (crew, first) = lent(&rt, &round, crew);
    let (crew, second) = lent(&rt, &round, rolled(&rt, &round, crew));
    let (crew, third) = lent(&rt, &round, rolled(&rt, &round, crew));
    let (crew, _fourth) = lent(&rt, &round, rolled(&rt, &round, crew));
    let (crew, first) = instead(&rt, &round, crew, first);
    let (crew, _second) = instead(&rt, &round, crew, second);
    let (crew, _third) = instead(&rt, &round, crew, third);
    instead(&rt, &round, crew, first);
    Ok(())
}

#[test]
fn a_crew_looks_asks_and_closes_its_account(rt: HostRuntime) -> Result<(), BeginError> {
    let (round, mut crew) = begun(rt.alloc(), 2)?;
    let mut pass = crew.pass(&round).expect(&rt, "lane 0");
    changed(&mut pass, 16, Insert(5));
    crew.look(&round);
    equal(&rt, crew.ask(&round, Weight(5)), Some(5));
    let half = pass.into_half();
    equal(&rt, closed_over(&round, &mut crew, half), (1, 0, 1));
    Ok(())
}
