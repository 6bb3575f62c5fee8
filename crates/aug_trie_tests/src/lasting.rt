//! Passes of a table that lasts: they make thousands of updates with the records of a few. What an update comes to says what those before it left.
ghost use Rattle.std.specs.Prelude.{◌≡◌, ◌+◌, ◌^◌, ◌<◌, ◌++◌, IfErr, IfOk, None};
ghost use Rattle.aug_core.specs.Cuts.{opening_cut};
ghost use Rattle.aug_trie.specs.History.{last_cut};
ghost use Rattle.aug_trie.specs.Round.{table_of};
ghost use Rattle.aug_trie.specs.Tallies.{Tallies};

use crate::assertions::equal;
use aug_monoid::{Extent, Sum};
use aug_trie::Outcome::{Accepted, Refused, Replaced, TooGreat, TooLittle, Unchanged};
use aug_trie::Request::{Add, Insert, Put, Remove, Sub, Take};
use aug_trie::{
    BeginError, Lasting, LastingCrew, LastingError, LastingPass, Members, Outcome, Request, Told,
};
use std::alloc::Global;
use std::sync::Wait;
use std::thread;
use std::thread::Threads;

pub(super) type Table = Lasting<Sum, Extent>;

pub(super) type Crew = LastingCrew<Sum, Extent>;

pub(super) type Hand = LastingPass<Sum, Extent>;

// A table of 3 bits over these members, for so many passes with the records of so many updates each.
fn opened_over(
    alloc: Global,
    members: Members,
    workers: u32,
    updates: u32,
) -> Result<(Table, Crew), (Members, BeginError)>
    requires bits { members.bits ≡ 3 }
    ensures together { IfOk result (λ t. table_of t.1.round ≡ t.0) }
    ensures bits { IfOk result (λ t. t.1.round.bits ≡ 3) }
    ensures same { IfErr result (λ e. e.0 ≡ members) }
{
    Lasting::open(alloc, members, workers, updates)
}

// One without members.
pub(super) fn opened(alloc: Global, workers: u32, updates: u32) -> Result<(Table, Crew), BeginError>
    ensures together { IfOk result (λ t. table_of t.1.round ≡ t.0) }
    ensures bits { IfOk result (λ t. t.1.round.bits ≡ 3) }
{
    let members = Members::empty(alloc, 3)?;
    match opened_over(alloc, members, workers, updates) {
        Ok(opened) => Ok(opened),
        Err((_, cause)) => Err(cause),
    }
}

// The next pass.
pub(super) fn next_hand(alloc: Global, crew: &mut Crew, table: &Table) -> Result<Hand, LastingError>
    requires together { table_of crew.old.round ≡ table.now }
    requires bits { crew.old.round.bits ≡ 3 }
    ensures crew { crew.new.round ≡ crew.old.round }
    ensures hand { IfOk result (λ h. h.pass.round ≡ crew.old.round) }
    ensures no_look { IfOk result (λ h. h.look ≡ None) }
{
    crew.pass(alloc, table)
}

// What an update tells, once there is room for it. None if there is none after a thousand tries.
fn told(hand: &mut Hand, table: &Table, k: u32, request: Request) -> Option<Told>
    requires together { table_of hand.old.pass.round ≡ table.now }
    requires key { k < 2 ^ hand.old.pass.round.bits }
    requires no_look { hand.old.look ≡ None }
    ensures round { hand.new.pass.round ≡ hand.old.pass.round }
    ensures no_look { hand.new.look ≡ None }
{
    for _ in 0..1_000 {
        if let Ok(told) = hand.update(table, k, request) {
            return Some(told);
        }
    }
    None
}

// What it comes to.
pub(super) fn changed(hand: &mut Hand, table: &Table, k: u32, request: Request) -> Option<Outcome>
    requires together { table_of hand.old.pass.round ≡ table.now }
    requires key { k < 2 ^ hand.old.pass.round.bits }
    requires no_look { hand.old.look ≡ None }
    ensures round { hand.new.pass.round ≡ hand.old.pass.round }
    ensures no_look { hand.new.look ≡ None }
{
    told(hand, table, k, request).map(|told| told.outcome)
}

// Whether a key comes to what it should that is put in, weighs more and then less, and is taken out again.
fn comes_and_goes(hand: &mut Hand, table: &Table, k: u32, weight: u32) -> bool
    requires together { table_of hand.old.pass.round ≡ table.now }
    requires key { k < 2 ^ hand.old.pass.round.bits }
    requires no_look { hand.old.look ≡ None }
    ensures round { hand.new.pass.round ≡ hand.old.pass.round }
    ensures no_look { hand.new.look ≡ None }
{
    let put = changed(hand, table, k, Put(weight));
    let more = changed(hand, table, k, Add(7));
    let less = changed(hand, table, k, Sub(3));
    let gone = changed(hand, table, k, Take(weight.saturating_add(4)));
    [put, more, less, gone]
        == [
            Some(Accepted),
            Some(Replaced),
            Some(Replaced),
            Some(Accepted),
        ]
}

// How many of so many keys, of which there are four from this one on, come to what they should.
pub(super) fn go_round(hand: &mut Hand, table: &Table, from: u32, times: u32) -> u32
    requires together { table_of hand.old.pass.round ≡ table.now }
    requires bits { hand.old.pass.round.bits ≡ 3 }
    requires from { from < 5 }
    requires no_look { hand.old.look ≡ None }
    ensures round { hand.new.pass.round ≡ hand.old.pass.round }
    ensures no_look { hand.new.look ≡ None }
{
    let mut good: u32 = 0;
    for turn in 0..times {
        if comes_and_goes(hand, table, from + turn % 4, turn) {
            good = good.saturating_add(1);
        }
    }
    good
}

#[test]
fn a_pass_makes_thousands_of_updates_with_the_records_of_two(
    rt: HostRuntime,
) -> Result<(), LastingError> {
    let Ok((table, mut crew)) = opened(rt.alloc(), 1, 2) else {
        return Err(LastingError::OutOfMemory);
    };
    let mut hand = next_hand(rt.alloc(), &mut crew, &table)?;
    equal(&rt, go_round(&mut hand, &table, 0, 2_000), 2_000);
    Ok(())
}

// What one of two passes asks of a key, and what that comes to.
const ROWS: [(bool, u32, Request, Outcome); 20] = [
    (false, 5, Insert, Accepted),
    (true, 5, Insert, Refused),
    (true, 5, Put(70), Replaced),
    (false, 5, Add(0), Unchanged),
    (false, 5, Add(u32::MAX), TooGreat),
    (false, 5, Add(u32::MAX - 70), Replaced),
    (true, 5, Sub(0), Unchanged),
    (true, 5, Sub(u32::MAX), Accepted),
    (false, 5, Remove, Refused),
    (false, 5, Sub(1), TooLittle),
    (true, 7, Put(9), Accepted),
    (false, 7, Take(8), Refused),
    (false, 7, Sub(10), TooLittle),
    (false, 7, Take(9), Accepted),
    (true, 7, Take(9), Refused),
    (true, 0, Add(1), Accepted),
    (false, 0, Remove, Accepted),
    (true, 0, Put(0), Accepted),
    (false, 0, Insert, Refused),
    (true, 0, Sub(0), Unchanged),
];

// What comes of it.
fn asked(
    first: &mut Hand,
    second: &mut Hand,
    table: &Table,
    row: (bool, u32, Request),
) -> Option<Outcome>
    requires first { (table_of first.old.pass.round ≡ table.now) × (first.old.pass.round.bits ≡ 3) × (first.old.look ≡ None) }
    requires second { (table_of second.old.pass.round ≡ table.now) × (second.old.pass.round.bits ≡ 3) × (second.old.look ≡ None) }
    ensures first { (first.new.pass.round ≡ first.old.pass.round) × (first.new.look ≡ None) }
    ensures second { (second.new.pass.round ≡ second.old.pass.round) × (second.new.look ≡ None) }
{
    let (other, k, request) = row;
    if k > 7 {
        None
    } else if other {
        changed(second, table, k, request)
    } else {
        changed(first, table, k, request)
    }
}

// How many of the rows come to what they should.
fn good_rows(first: &mut Hand, second: &mut Hand, table: &Table) -> u32
    requires first { (table_of first.old.pass.round ≡ table.now) × (first.old.pass.round.bits ≡ 3) × (first.old.look ≡ None) }
    requires second { (table_of second.old.pass.round ≡ table.now) × (second.old.pass.round.bits ≡ 3) × (second.old.look ≡ None) }
{
    let mut good: u32 = 0;
    for (other, k, request, outcome) in ROWS {
        if asked(first, second, table, (other, k, request)) == Some(outcome) {
            good = good.saturating_add(1);
        }
    }
    good
}

#[test]
fn two_passes_find_what_the_other_left(rt: HostRuntime) -> Result<(), LastingError> {
    let Ok((table, mut crew)) = opened(rt.alloc(), 2, 1) else {
        return Err(LastingError::OutOfMemory);
    };
    let mut first = next_hand(rt.alloc(), &mut crew, &table)?;
    let mut second = next_hand(rt.alloc(), &mut crew, &table)?;
    equal(&rt, good_rows(&mut first, &mut second, &table), 20);
    equal(
        &rt,
        crew.pass(rt.alloc(), &table).err(),
        Some(LastingError::NoLane),
    );
    Ok(())
}

// What is asked of a key, what that comes to, and what the key weighed and weighs then.
const TELLS: [(Request, Outcome, Option<u32>, Option<u32>); 9] = [
    (Remove, Refused, None, None),
    (Insert, Accepted, None, Some(5)),
    (Put(70), Replaced, Some(5), Some(70)),
    (Add(0), Unchanged, Some(70), Some(70)),
    (Add(u32::MAX), TooGreat, Some(70), Some(70)),
    (Sub(30), Replaced, Some(70), Some(40)),
    (Take(70), Refused, Some(40), Some(40)),
    (Sub(40), Accepted, Some(40), None),
    (Sub(1), TooLittle, None, None),
];

// How many of these tell what they should.
fn good_tells(hand: &mut Hand, table: &Table) -> u32
    requires together { table_of hand.old.pass.round ≡ table.now }
    requires bits { hand.old.pass.round.bits ≡ 3 }
    requires no_look { hand.old.look ≡ None }
{
    let mut good: u32 = 0;
    for (request, outcome, before, now) in TELLS {
        let expected = Told {
            outcome,
            before,
            now,
        };
        if told(hand, table, 5, request) == Some(expected) {
            good = good.saturating_add(1);
        }
    }
    good
}

#[test]
fn an_update_tells_what_its_key_weighed_and_weighs(rt: HostRuntime) -> Result<(), LastingError> {
    let Ok((table, mut crew)) = opened(rt.alloc(), 1, 2) else {
        return Err(LastingError::OutOfMemory);
    };
    let mut hand = next_hand(rt.alloc(), &mut crew, &table)?;
    equal(&rt, good_tells(&mut hand, &table), 9);
    Ok(())
}

// Two passes come back, and the crew looks. If no other is out, the changes that it then knows are all that happened.
fn taken_back(crew: &mut Crew, table: &Table, one: Hand, other: Hand)
    requires together { table_of crew.old.round ≡ table.now }
    requires one { one.pass.round ≡ crew.old.round }
    requires other { other.pass.round ≡ crew.old.round }
    ensures round { crew.new.round ≡ crew.old.round }
    ensures changes { crew.new.knows.accepted ≡ crew.old.knows.accepted ++ one.pass.knows.accepted ++ other.pass.knows.accepted }
    ensures all { crew.old.back + 2 ≡ crew.old.handed → Tallies (opening_cut crew.new.round.bits crew.new.round.members) (last_cut crew.new.knows.history) crew.new.knows.accepted }
{
    crew.back(table, one);
    crew.back(table, other);
    crew.look(table);
}

// The second comes back with an open look: if that still held its records, the third would soon have none, since its lane has six.
#[test]
fn passes_come_back_and_another_goes_on(rt: HostRuntime) -> Result<(), LastingError> {
    let Ok((table, mut crew)) = opened(rt.alloc(), 3, 2) else {
        return Err(LastingError::OutOfMemory);
    };
    let mut first = next_hand(rt.alloc(), &mut crew, &table)?;
    let mut second = next_hand(rt.alloc(), &mut crew, &table)?;
    equal(&rt, go_round(&mut first, &table, 0, 50), 50);
    equal(&rt, go_round(&mut second, &table, 4, 50), 50);
    second.look(&table);
    taken_back(&mut crew, &table, first, second);
    let mut third = next_hand(rt.alloc(), &mut crew, &table)?;
    equal(&rt, go_round(&mut third, &table, 0, 500), 500);
    equal(
        &rt,
        crew.pass(rt.alloc(), &table).err(),
        Some(LastingError::NoLane),
    );
    Ok(())
}

// What the numbers of a table that cannot be laid out are refused for.
#[test]
fn a_table_that_lasts_refuses_in_its_order(rt: HostRuntime) -> Result<(), LastingError> {
    let rows = [
        (0, 0, BeginError::BadWorkers),
        (65, 1, BeginError::BadWorkers),
        (1, 0, BeginError::BadUpdates),
        (64, 65_537, BeginError::BadUpdates),
    ];
    for (workers, updates, cause) in rows {
        equal(&rt, opened(rt.alloc(), workers, updates).err(), Some(cause));
    }
    Ok(())
}

// Passes whichever request for memory is refused: the same list and the same lane are asked for again.
#[test]
fn refused_memory_leaves_the_list_and_the_lane(rt: HostRuntime) -> Result<(), BeginError> {
    let members = Members::empty(rt.alloc(), 3)?;
    let opened = match opened_over(rt.alloc(), members, 1, 2) {
        Err((members, _)) => opened_over(rt.alloc(), members, 1, 2),
        opened => opened,
    };
    let Ok((table, mut crew)) = opened else {
        return Err(BeginError::OutOfMemory);
    };
    let hand = match next_hand(rt.alloc(), &mut crew, &table) {
        Err(_) => next_hand(rt.alloc(), &mut crew, &table),
        hand => hand,
    };
    let Ok(mut hand) = hand else {
        return Err(BeginError::OutOfMemory);
    };
    equal(&rt, go_round(&mut hand, &table, 0, 100), 100);
    Ok(())
}

// Six times for the table, and twice for the lists of each of its two passes.
#[test]
fn a_table_that_lasts_asks_10_times_for_memory(rt: HostRuntime) -> Result<(), LastingError> {
    let Ok((table, mut crew)) = opened(rt.alloc(), 2, 40) else {
        return Err(LastingError::OutOfMemory);
    };
    let mut hand = next_hand(rt.alloc(), &mut crew, &table)?;
    let _other = next_hand(rt.alloc(), &mut crew, &table)?;
    equal(&rt, go_round(&mut hand, &table, 0, 100), 100);
    Ok(())
}

// Two passes at work on keys of their own, each in a thread.
fn two_at_work<R: Threads + Wait + Sync>(
    rt: &R,
    alloc: Global,
    times: u32,
) -> Result<[u32; 2], LastingError> {
    let Ok((table, mut crew)) = opened(alloc, 2, 64) else {
        return Err(LastingError::OutOfMemory);
    };
    let mut one = next_hand(alloc, &mut crew, &table)?;
    let mut other = next_hand(alloc, &mut crew, &table)?;
    let t = &table;
    let (first, second) = thread::join(
        rt,
        move ||
            requires hand { (table_of one.pass.round ≡ t.now) × (one.pass.round.bits ≡ 3) × (one.look ≡ None) }
        { go_round(&mut one, t, 0, times) },
        move ||
            requires hand { (table_of other.pass.round ≡ t.now) × (other.pass.round.bits ≡ 3) × (other.look ≡ None) }
        { go_round(&mut other, t, 4, times) },
    );
    Ok([first, second])
}

#[test]
fn two_threads_make_thousands_of_updates(rt: HostRuntime) -> Result<(), LastingError> {
    equal(&rt, two_at_work(&rt, rt.alloc(), 5_000)?, [5_000; 2]);
    Ok(())
}
