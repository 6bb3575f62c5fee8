//! Batches of updates of a pass of a table that lasts: what they come to with many records and with few, and where they stop.
ghost use Rattle.std.specs.Prelude.{◌≡◌, ◌+◌, None};
ghost use Rattle.aug_trie.specs.Round.{table_of};

use super::lasting::{Hand, Table, changed, next_hand, opened};
use crate::assertions::equal;
use aug_query::descent::{Has, Size};
use aug_trie::Outcome::{Accepted, Refused, Replaced, Unchanged};
use aug_trie::Request::{Add, Insert, Put, Remove, Sub, Take};
use aug_trie::{LastingError, Outcome, Request};
use std::alloc::Global;
use std::sync::Wait;
use std::thread;
use std::thread::Threads;

// How many updates of a batch were made, and what they came to. Those that were not made stay unchanged. None if a key has more than 3 bits.
fn batch(
    hand: &mut Hand,
    table: &Table,
    keys: [u32; 3],
    requests: [Request; 3],
) -> Option<(usize, [Outcome; 3])>
    requires together { table_of hand.old.pass.round ≡ table.now }
    requires bits { hand.old.pass.round.bits ≡ 3 }
    requires no_look { hand.old.look ≡ None }
    ensures round { hand.new.pass.round ≡ hand.old.pass.round }
    ensures no_look { hand.new.look ≡ None }
{
    if keys[0] > 7 || keys[1] > 7 || keys[2] > 7 {
        return None;
    }
    let mut outcomes = [Unchanged; 3];
    let made = hand.update_all(table, &keys, &requests, &mut outcomes);
    Some((made, outcomes))
}

// Keys, what is asked of them, and what that comes to.
const BATCHES: [([u32; 3], [Request; 3], [Outcome; 3]); 6] = [
    ([0, 1, 4], [Insert, Insert, Insert], [Accepted; 3]),
    (
        [4, 1, 0],
        [Put(40), Add(9), Take(0)],
        [Replaced, Replaced, Accepted],
    ),
    ([4, 4, 4], [Sub(40), Insert, Remove], [Accepted; 3]),
    (
        [1, 4, 1],
        [Take(9), Remove, Sub(10)],
        [Refused, Refused, Accepted],
    ),
    ([7, 6, 0], [Put(1), Put(2), Put(3)], [Accepted; 3]),
    ([0, 6, 7], [Remove, Remove, Remove], [Accepted; 3]),
];

// How many of these come to what they should.
fn good_batches(hand: &mut Hand, table: &Table) -> u32
    requires together { table_of hand.old.pass.round ≡ table.now }
    requires bits { hand.old.pass.round.bits ≡ 3 }
    requires no_look { hand.old.look ≡ None }
    ensures round { hand.new.pass.round ≡ hand.old.pass.round }
    ensures no_look { hand.new.look ≡ None }
{
    let mut good: u32 = 0;
    for (keys, requests, outcomes) in BATCHES {
        if batch(hand, table, keys, requests) == Some((3, outcomes)) {
            good = good.saturating_add(1);
        }
    }
    good
}

// How many come so a hundred times over.
fn good_rounds(hand: &mut Hand, table: &Table) -> u32
    requires together { table_of hand.old.pass.round ≡ table.now }
    requires bits { hand.old.pass.round.bits ≡ 3 }
    requires no_look { hand.old.look ≡ None }
{
    let mut good: u32 = 0;
    for _ in 0..100 {
        good = good.saturating_add(good_batches(hand, table));
    }
    good
}

// With 3, 6 and 9 records each update of a batch is a run of its own, with 36 all three are one.
#[test]
fn a_batch_comes_to_the_same_with_few_records_and_with_many(
    rt: HostRuntime,
) -> Result<(), LastingError> {
    for updates in [1, 2, 3, 12, 64] {
        let Ok((table, mut crew)) = opened(rt.alloc(), 1, updates) else {
            return Err(LastingError::OutOfMemory);
        };
        let mut hand = next_hand(rt.alloc(), &mut crew, &table)?;
        equal(&rt, good_rounds(&mut hand, &table), 600);
    }
    Ok(())
}

#[test]
fn a_look_of_another_shows_all_of_a_batch(rt: HostRuntime) -> Result<(), LastingError> {
    let Ok((table, mut crew)) = opened(rt.alloc(), 2, 2) else {
        return Err(LastingError::OutOfMemory);
    };
    let mut looker = next_hand(rt.alloc(), &mut crew, &table)?;
    let mut worker = next_hand(rt.alloc(), &mut crew, &table)?;
    let requests = [Insert, Insert, Remove];
    let done = batch(&mut worker, &table, [1, 6, 1], requests);
    equal(&rt, done, Some((3, [Accepted; 3])));
    let s = looker.look(&table);
    equal(&rt, looker.ask(&table, s, Size), 1);
    equal(&rt, looker.ask(&table, s, Has(6)), true);
    looker.end_look(&table);
    Ok(())
}

// Two updates take all six records of a lane. What they replaced the look holds, so there is none for the third.
#[test]
fn a_batch_stops_where_a_look_holds_too_many_records(rt: HostRuntime) -> Result<(), LastingError> {
    let Ok((table, mut crew)) = opened(rt.alloc(), 2, 2) else {
        return Err(LastingError::OutOfMemory);
    };
    let mut looker = next_hand(rt.alloc(), &mut crew, &table)?;
    let mut worker = next_hand(rt.alloc(), &mut crew, &table)?;
    let s = looker.look(&table);
    let keys = [0, 2, 4];
    let done = batch(&mut worker, &table, keys, [Insert; 3]);
    equal(&rt, done, Some((2, [Accepted, Accepted, Unchanged])));
    equal(
        &rt,
        batch(&mut worker, &table, [4; 3], [Insert; 3]),
        Some((0, [Unchanged; 3])),
    );
    equal(&rt, looker.ask(&table, s, Size), 0);
    looker.end_look(&table);
    let done = batch(&mut worker, &table, [4; 3], [Insert, Remove, Insert]);
    equal(&rt, done, Some((3, [Accepted; 3])));
    let s = looker.look(&table);
    equal(&rt, looker.ask(&table, s, Size), 3);
    looker.end_look(&table);
    equal(&rt, changed(&mut worker, &table, 4, Remove), Some(Accepted));
    Ok(())
}

// How often three keys come to what they should that are put in by one batch and taken out by the next. Nobody else changes them.
fn come_and_go(hand: &mut Hand, table: &Table, keys: [u32; 3], times: u32) -> u32
    requires together { table_of hand.old.pass.round ≡ table.now }
    requires bits { hand.old.pass.round.bits ≡ 3 }
    requires no_look { hand.old.look ≡ None }
    ensures round { hand.new.pass.round ≡ hand.old.pass.round }
    ensures no_look { hand.new.look ≡ None }
{
    let all = Some((3, [Accepted; 3]));
    let mut good: u32 = 0;
    for _ in 0..times {
        let put = batch(hand, table, keys, [Insert; 3]);
        let gone = batch(hand, table, keys, [Remove; 3]);
        if [put, gone] == [all; 2] {
            good = good.saturating_add(1);
        }
    }
    good
}

// Two passes whose keys have all nodes but one in common, each in a thread.
fn two_in_threads<R: Threads + Wait + Sync>(
    rt: &R,
    alloc: Global,
    times: u32,
) -> Result<[u32; 2], LastingError> {
    let Ok((table, mut crew)) = opened(alloc, 2, 64) else {
        return Err(LastingError::OutOfMemory);
    };
    let mut one = next_hand(alloc, &mut crew, &table)?;
    let mut other = next_hand(alloc, &mut crew, &table)?;
    let t = &table;
    let (first, second) = thread::join(
        rt,
        move ||
            requires hand { (table_of one.pass.round ≡ t.now) × (one.pass.round.bits ≡ 3) × (one.look ≡ None) }
        { come_and_go(&mut one, t, [0, 2, 5], times) },
        move ||
            requires hand { (table_of other.pass.round ≡ t.now) × (other.pass.round.bits ≡ 3) × (other.look ≡ None) }
        { come_and_go(&mut other, t, [1, 3, 4], times) },
    );
    Ok([first, second])
}

#[test]
fn two_threads_make_thousands_of_batches(rt: HostRuntime) -> Result<(), LastingError> {
    equal(&rt, two_in_threads(&rt, rt.alloc(), 2_000)?, [2_000; 2]);
    Ok(())
}
