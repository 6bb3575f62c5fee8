//! Looks at a table that lasts: what they show, that they stand while others make updates, and what they hold.
ghost use Rattle.std.specs.Prelude.{◌≡◌, ◌+◌, ◌^◌, ◌<◌, None, Some};
ghost use Rattle.aug_core.specs.Prefixes.{IsPrefix};
ghost use Rattle.aug_trie.specs.Round.{table_of};

use super::lasting::{Hand, Table, changed, go_round, next_hand, opened};
use crate::assertions::equal;
use aug_query::descent::{After, Before, Has, Keys, Pairs, Range, Rank, Select, Size, Weight};
use aug_trie::Outcome::Accepted;
use aug_trie::Request::{Insert, Put, Remove};
use aug_trie::{LastingError, Outcome, Pop, Request, Side, Snapshot};
use aug_trie_testing::asked;
use aug_trie_testing::rows::{Act, Reply, folded, told_keys, told_pairs};
use std::alloc::Global;
use std::sync::Wait;
use std::thread;
use std::thread::Threads;

// What the look that is open answers.
fn shown(hand: &mut Hand, alloc: Global, table: &Table, s: Snapshot, act: Act) -> Reply
    requires together { table_of hand.old.pass.round ≡ table.now }
    requires look { hand.old.look ≡ Some s }
    ensures round { hand.new.pass.round ≡ hand.old.pass.round }
    ensures look { hand.new.look ≡ Some s }
{
    asked!(act, alloc, hand.ask(table, s,))
}

// A set of three keys with their weights, and what each query answers on it.
const KEYS: [(u32, u32); 3] = [(1, 10), (4, 40), (7, 5)];

const ANSWERS: [(Act, Reply); 16] = [
    (Act::Size, Reply::Number(3)),
    (Act::Has(4), Reply::Is(true)),
    (Act::Has(5), Reply::Is(false)),
    (Act::Weight(4), Reply::Finds(Some(40))),
    (Act::Weight(0), Reply::Finds(None)),
    (Act::Rank(4), Reply::Number(1)),
    (Act::Rank(8), Reply::Number(3)),
    (Act::Select(2), Reply::Finds(Some(7))),
    (Act::Select(3), Reply::Finds(None)),
    (Act::Before(4), Reply::Finds(Some(1))),
    (Act::Before(1), Reply::Finds(None)),
    (Act::After(4), Reply::Finds(Some(7))),
    (Act::After(7), Reply::Finds(None)),
    (Act::Range(1, 7), Reply::Folded(2, 50, Some((1, 4)))),
    (Act::Range(0, 8), Reply::Folded(3, 55, Some((1, 7)))),
    (
        Act::Pairs,
        Reply::Listed(Some((1, 10)), Some((4, 40)), Some((7, 5))),
    ),
];

// Whether a key was put in.
fn was_put(hand: &mut Hand, table: &Table, pair: (u32, u32)) -> bool
    requires together { table_of hand.old.pass.round ≡ table.now }
    requires bits { hand.old.pass.round.bits ≡ 3 }
    requires no_look { hand.old.look ≡ None }
    ensures round { hand.new.pass.round ≡ hand.old.pass.round }
    ensures no_look { hand.new.look ≡ None }
{
    let (k, weight) = pair;
    if k > 7 {
        return false;
    }
    changed(hand, table, k, Put(weight)) == Some(Accepted)
}

// How many of these keys were put in.
fn put_all(hand: &mut Hand, table: &Table) -> u32
    requires together { table_of hand.old.pass.round ≡ table.now }
    requires bits { hand.old.pass.round.bits ≡ 3 }
    requires no_look { hand.old.look ≡ None }
    ensures round { hand.new.pass.round ≡ hand.old.pass.round }
    ensures no_look { hand.new.look ≡ None }
{
    let mut put: u32 = 0;
    for pair in KEYS {
        if was_put(hand, table, pair) {
            put = put.saturating_add(1);
        }
    }
    put
}

// How many of the queries answer what they should.
fn good_answers(hand: &mut Hand, alloc: Global, table: &Table, s: Snapshot) -> u32
    requires together { table_of hand.old.pass.round ≡ table.now }
    requires look { hand.old.look ≡ Some s }
    ensures round { hand.new.pass.round ≡ hand.old.pass.round }
    ensures look { hand.new.look ≡ Some s }
{
    let mut good: u32 = 0;
    for (act, reply) in ANSWERS {
        if shown(hand, alloc, table, s, act) == reply {
            good = good.saturating_add(1);
        }
    }
    good
}

// A lane has 15 records. A look holds the seven of its tree, and perhaps the three of an update that was made in its era: one that held more and more would
// soon leave the other pass none.
#[test]
fn a_look_stands_while_another_pass_makes_thousands_of_updates(
    rt: HostRuntime,
) -> Result<(), LastingError> {
    let Ok((table, mut crew)) = opened(rt.alloc(), 2, 5) else {
        return Err(LastingError::OutOfMemory);
    };
    let mut looker = next_hand(rt.alloc(), &mut crew, &table)?;
    let mut worker = next_hand(rt.alloc(), &mut crew, &table)?;
    equal(&rt, put_all(&mut worker, &table), 3);
    let s = looker.look(&table);
    equal(&rt, good_answers(&mut looker, rt.alloc(), &table, s), 16);
    equal(&rt, changed(&mut worker, &table, 1, Remove), Some(Accepted));
    equal(&rt, go_round(&mut worker, &table, 0, 2_000), 2_000);
    equal(&rt, good_answers(&mut looker, rt.alloc(), &table, s), 16);
    let later = looker.look(&table);
    equal(
        &rt,
        shown(&mut looker, rt.alloc(), &table, later, Act::Size),
        Reply::Number(2),
    );
    equal(
        &rt,
        shown(&mut looker, rt.alloc(), &table, later, Act::Keys),
        Reply::Two(Some(4), Some(7)),
    );
    looker.end_look(&table);
    Ok(())
}

// What an update comes to, or that there is no room for it.
fn tried(hand: &mut Hand, table: &Table, k: u32, request: Request) -> Option<Outcome>
    requires together { table_of hand.old.pass.round ≡ table.now }
    requires key { k < 2 ^ hand.old.pass.round.bits }
    requires no_look { hand.old.look ≡ None }
    ensures round { hand.new.pass.round ≡ hand.old.pass.round }
    ensures no_look { hand.new.look ≡ None }
{
    hand.update(table, k, request).ok().map(|told| told.outcome)
}

// Of the six records of a lane a look holds the four that two updates replaced, so the third is refused until the look is at an end.
#[test]
fn a_look_holds_the_records_of_its_tree_until_its_end(rt: HostRuntime) -> Result<(), LastingError> {
    let Ok((table, mut crew)) = opened(rt.alloc(), 2, 2) else {
        return Err(LastingError::OutOfMemory);
    };
    let mut looker = next_hand(rt.alloc(), &mut crew, &table)?;
    let mut worker = next_hand(rt.alloc(), &mut crew, &table)?;
    let s = looker.look(&table);
    equal(&rt, tried(&mut worker, &table, 0, Insert), Some(Accepted));
    equal(&rt, tried(&mut worker, &table, 2, Insert), Some(Accepted));
    equal(&rt, tried(&mut worker, &table, 4, Insert), None);
    equal(&rt, tried(&mut worker, &table, 4, Insert), None);
    equal(
        &rt,
        shown(&mut looker, rt.alloc(), &table, s, Act::Size),
        Reply::Number(0),
    );
    looker.end_look(&table);
    equal(&rt, tried(&mut worker, &table, 4, Insert), Some(Accepted));
    equal(&rt, go_round(&mut worker, &table, 4, 100), 99);
    Ok(())
}

// The second pass learns what the first knows, and then looks. Its look shows all of it.
fn passed_on(first: &mut Hand, second: &mut Hand, table: &Table) -> Snapshot
    requires first { table_of first.old.pass.round ≡ table.now }
    requires second { table_of second.old.pass.round ≡ table.now }
    requires one_round { first.old.pass.round ≡ second.old.pass.round }
    requires no_look { second.old.look ≡ None }
    ensures look { second.new.look ≡ Some result }
    ensures round { second.new.pass.round ≡ second.old.pass.round }
    ensures all { IsPrefix first.old.pass.knows.history second.new.pass.knows.history }
{
    let note = first.note(table);
    second.learn(table, note);
    second.look(table)
}

#[test]
fn a_look_shows_what_a_note_said(rt: HostRuntime) -> Result<(), LastingError> {
    let Ok((table, mut crew)) = opened(rt.alloc(), 2, 4) else {
        return Err(LastingError::OutOfMemory);
    };
    let mut first = next_hand(rt.alloc(), &mut crew, &table)?;
    let mut second = next_hand(rt.alloc(), &mut crew, &table)?;
    equal(&rt, put_all(&mut first, &table), 3);
    let s = passed_on(&mut first, &mut second, &table);
    equal(&rt, good_answers(&mut second, rt.alloc(), &table, s), 16);
    Ok(())
}

// How many of so many looks show as many keys as they count, with weights that are one each.
fn even_looks(hand: &mut Hand, alloc: Global, table: &Table, times: u32) -> u32
    requires together { table_of hand.old.pass.round ≡ table.now }
    ensures { hand.new.pass.round ≡ hand.old.pass.round }
{
    let mut even: u32 = 0;
    for _ in 0..times {
        let s = hand.look(table);
        let size = hand.ask(table, s, Size);
        let whole = hand.ask(table, s, Range(0, 8));
        let listed = hand.ask(table, s, Keys(alloc));
        let many = listed.map_or(0, |list| list.len());
        if whole.count == size && many == size as usize {
            even = even.saturating_add(1);
        }
    }
    even
}

// One pass at work, and one that looks again and again, each in a thread.
fn looked_at<R: Threads + Wait + Sync>(
    rt: &R,
    alloc: Global,
    times: u32,
) -> Result<[u32; 2], LastingError> {
    let Ok((table, mut crew)) = opened(alloc, 2, 64) else {
        return Err(LastingError::OutOfMemory);
    };
    let mut one = next_hand(alloc, &mut crew, &table)?;
    let mut other = next_hand(alloc, &mut crew, &table)?;
    let t = &table;
    let (first, second) = thread::join(
        rt,
        move ||
            requires hand { (table_of one.pass.round ≡ t.now) × (one.pass.round.bits ≡ 3) × (one.look ≡ None) }
        { go_round(&mut one, t, 0, times) },
        move ||
            requires hand { table_of other.pass.round ≡ t.now }
        { even_looks(&mut other, alloc, t, times) },
    );
    Ok([first, second])
}

#[test]
fn looks_are_even_beside_thousands_of_updates(rt: HostRuntime) -> Result<(), LastingError> {
    equal(&rt, looked_at(&rt, rt.alloc(), 5_000)?, [5_000; 2]);
    Ok(())
}

// What pops take out, one after another, of the three keys.
const POPS: [(Side, Pop); 5] = [
    (Side::First, Pop::Member(1, 10)),
    (Side::Last, Pop::Member(7, 5)),
    (Side::First, Pop::Member(4, 40)),
    (Side::Last, Pop::Empty),
    (Side::First, Pop::Empty),
];

// What a pop comes to, or that there is no room for it.
fn popped(hand: &mut Hand, table: &Table, side: Side) -> Option<Pop>
    requires together { table_of hand.old.pass.round ≡ table.now }
    requires no_look { hand.old.look ≡ None }
    ensures round { hand.new.pass.round ≡ hand.old.pass.round }
    ensures no_look { hand.new.look ≡ None }
{
    hand.pop(table, side).ok()
}

// How many of these pops come to what they should.
fn good_pops(hand: &mut Hand, table: &Table) -> u32
    requires together { table_of hand.old.pass.round ≡ table.now }
    requires no_look { hand.old.look ≡ None }
{
    let mut good: u32 = 0;
    for (side, pop) in POPS {
        if popped(hand, table, side) == Some(pop) {
            good = good.saturating_add(1);
        }
    }
    good
}

#[test]
fn pops_take_members_out_from_both_ends(rt: HostRuntime) -> Result<(), LastingError> {
    let Ok((table, mut crew)) = opened(rt.alloc(), 1, 2) else {
        return Err(LastingError::OutOfMemory);
    };
    let mut hand = next_hand(rt.alloc(), &mut crew, &table)?;
    equal(&rt, put_all(&mut hand, &table), 3);
    equal(&rt, good_pops(&mut hand, &table), 5);
    Ok(())
}

// How many members so many pops take out.
fn taken_out(hand: &mut Hand, table: &Table, times: u32) -> u32
    requires together { table_of hand.old.pass.round ≡ table.now }
    requires no_look { hand.old.look ≡ None }
{
    let mut taken: u32 = 0;
    for _ in 0..times {
        if matches!(popped(hand, table, Side::First), Some(Pop::Member(..))) {
            taken = taken.saturating_add(1);
        }
    }
    taken
}

// How many of so many keys were put in.
fn put_in(hand: &mut Hand, table: &Table, times: u32) -> u32
    requires together { table_of hand.old.pass.round ≡ table.now }
    requires bits { hand.old.pass.round.bits ≡ 3 }
    requires no_look { hand.old.look ≡ None }
{
    let mut put: u32 = 0;
    for turn in 0..times {
        if was_put(hand, table, (turn % 8, turn)) {
            put = put.saturating_add(1);
        }
    }
    put
}

// A pass that puts keys in and one that takes them out, each in a thread: how many were put in, and how many taken out, with what was left.
fn put_and_taken<R: Threads + Wait + Sync>(
    rt: &R,
    alloc: Global,
    times: u32,
) -> Result<(u32, u32), LastingError> {
    let Ok((table, mut crew)) = opened(alloc, 3, 64) else {
        return Err(LastingError::OutOfMemory);
    };
    let mut one = next_hand(alloc, &mut crew, &table)?;
    let mut other = next_hand(alloc, &mut crew, &table)?;
    let mut last = next_hand(alloc, &mut crew, &table)?;
    let t = &table;
    let (put, taken) = thread::join(
        rt,
        move ||
            requires hand { (table_of one.pass.round ≡ t.now) × (one.pass.round.bits ≡ 3) × (one.look ≡ None) }
        { put_in(&mut one, t, times) },
        move ||
            requires hand { (table_of other.pass.round ≡ t.now) × (other.look ≡ None) }
        { taken_out(&mut other, t, times) },
    );
    Ok((put, taken.saturating_add(taken_out(&mut last, t, 8))))
}

#[test]
fn pops_take_each_member_once(rt: HostRuntime) -> Result<(), LastingError> {
    let (put, taken) = put_and_taken(&rt, rt.alloc(), 5_000)?;
    equal(&rt, taken, put);
    Ok(())
}
