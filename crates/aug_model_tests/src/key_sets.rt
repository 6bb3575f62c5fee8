//! The plain set by an example, at each number of bits, and without memory.

use crate::assertions::{equal, holds};
use aug_model::{KeySet, ModelError, Outcome, Summary};
use aug_monoid::{Extent, Sum};
use std::alloc::{AllocError, Global};
use std::mem;
use std::process::Abort;
use std::test::Fail;

// Inserts a key of the set's bits.
fn insert(rt: &impl Abort, set: &mut KeySet, k: u32) -> bool {
    let bits = set.bits();
    holds(rt, k < 1 << bits);
    set.insert(k)
}

// The bits of a new set, and its size before and after its greatest key goes in.
fn sizes(rt: &impl Abort, alloc: Global, bits: u32) -> Result<(u32, u32, u32), ModelError> {
    let mut set = KeySet::try_new(alloc, bits)?;
    let bits = set.bits();
    let none = set.size();
    insert(rt, &mut set, u32::MAX >> (32 - bits));
    Ok((bits, none, set.size()))
}

#[test]
fn refuses_bits_outside_one_to_sixteen(rt: HostRuntime) {
    for bits in 0..18 {
        let is_good = bits >= 1 && bits <= 16;
        let expected = is_good.then_some((bits, 0, 1)).ok_or(ModelError::BadBits);
        equal(&rt, sizes(&rt, rt.alloc(), bits), expected);
    }
}

// Takes memory in blocks, each as large as there is, until none of 32 KiB is left.
fn all_memory(alloc: Global) -> Result<Vec<Vec<u64>>, AllocError> {
    let mut taken = Vec::with_capacity(alloc, 100_000)?;
    let mut words = 1 << 43;
    while words >= 4_096 && taken.len() < 100_000 {
        match Vec::with_capacity(alloc, words) {
            Ok(block) => taken.push(block)?,
            Err(_) => words /= 2,
        }
    }
    Ok(taken)
}

#[test]
fn a_set_is_refused_while_no_memory_is_left_and_made_once_there_is(
    rt: HostRuntime,
) -> Result<(), Fail> {
    let room: Vec<u64> = Vec::with_capacity(rt.alloc(), 1 << 26)?;
    let taken = all_memory(rt.alloc())?;
    let refused = KeySet::try_new(rt.alloc(), 16);
    drop(room);
    let made = KeySet::try_new(rt.alloc(), 16);
    // The blocks are never touched, and go with the test.
    mem::forget(taken);
    holds(&rt, matches!(refused, Err(ModelError::OutOfMemory)));
    holds(&rt, made.is_ok());
    Ok(())
}

// A set of keys of `bits` bits, requested once more if memory was refused.
fn made(alloc: Global, bits: u32) -> Result<KeySet, ModelError> {
    match KeySet::try_new(alloc, bits) {
        Err(ModelError::OutOfMemory) => KeySet::try_new(alloc, bits),
        made => made,
    }
}

// Passes whichever request for memory is refused.
#[test]
fn refused_memory_spoils_no_other_set(rt: HostRuntime) -> Result<(), Fail> {
    let mut first = made(rt.alloc(), 4)?;
    holds(&rt, insert(&rt, &mut first, 9));
    let second = made(rt.alloc(), 16)?;
    let found = (first.size(), first.after(0), second.size());
    equal(&rt, found, (1, Some(9), 0));
    Ok(())
}

// What is asked of a set.
#[derive(Clone, Copy)]
enum Ask {
    Size,
    Rank(u32),
    Select(u32),
    Before(u32),
    After(u32),
    Weight(u32),
}

fn asked(set: &KeySet, ask: Ask) -> Option<u32> {
    match ask {
        Ask::Size => Some(set.size()),
        Ask::Rank(k) => Some(set.rank(k)),
        Ask::Select(i) => set.select(i),
        Ask::Before(k) => set.before(k),
        Ask::After(k) => set.after(k),
        Ask::Weight(k) => set.weight(k),
    }
}

const ASKED: &[(Ask, Option<u32>)] = &[
    (Ask::Size, Some(3)),
    (Ask::Rank(5), Some(1)),
    (Ask::Rank(6), Some(2)),
    (Ask::Rank(u32::MAX), Some(3)),
    (Ask::Select(0), Some(0)),
    (Ask::Select(2), Some(9)),
    (Ask::Select(3), None),
    (Ask::Select(u32::MAX), None),
    (Ask::Before(0), None),
    (Ask::Before(5), Some(0)),
    (Ask::Before(6), Some(5)),
    (Ask::Before(u32::MAX), Some(9)),
    (Ask::After(4), Some(5)),
    (Ask::After(5), Some(9)),
    (Ask::After(9), None),
    (Ask::After(u32::MAX), None),
    (Ask::Weight(0), Some(u32::MAX)),
    (Ask::Weight(5), Some(u32::MAX)),
    (Ask::Weight(6), None),
    (Ask::Weight(9), Some(9)),
];

// The count, the sum of weights and the extent of each range.
const RANGES: &[(u32, u32, (u32, u64, Option<(u32, u32)>))] = &[
    (0, 5, (1, 4_294_967_295, Some((0, 0)))),
    (0, 16, (3, 8_589_934_599, Some((0, 9)))),
    (1, u32::MAX, (2, 4_294_967_304, Some((5, 9)))),
    (9, 5, (0, 0, None)),
];

// Compares what the set of 0, 5 and 9 answers.
fn assert_members(rt: &impl Abort, set: &KeySet) {
    for k in 0..40 {
        equal(rt, (k, set.has(k)), (k, k == 0 || k == 5 || k == 9));
    }
}

fn assert_answers(rt: &impl Abort, set: &KeySet) {
    for (ask, answer) in ASKED {
        equal(rt, asked(set, *ask), *answer);
    }
}

fn assert_ranges(rt: &impl Abort, set: &KeySet) {
    for (a, b, answer) in RANGES {
        let found: Summary<Sum, Extent> = set.range(*a, *b);
        let found = (found.count, found.a.value(), found.b.bounds());
        equal(rt, found, *answer);
    }
}

// A set of 4 bits with 0, 5 and 9. Two of them have the greatest weight.
fn example(rt: &impl Abort, alloc: Global) -> Result<KeySet, Fail> {
    let mut set = KeySet::try_new(alloc, 4)?;
    for k in [9, 5, 7] {
        holds(rt, insert(rt, &mut set, k));
    }
    equal(rt, (set.remove(7), set.remove(8)), (true, false));
    holds(rt, set.bits() == 4);
    equal(rt, set.put(5, u32::MAX), Outcome::Replaced);
    equal(rt, set.put(0, u32::MAX), Outcome::Accepted);
    equal(rt, insert(rt, &mut set, 5), false);
    Ok(set)
}

#[test]
fn answers_from_its_members(rt: HostRuntime) -> Result<(), Fail> {
    let set = example(&rt, rt.alloc())?;
    let mut copy = KeySet::try_new(rt.alloc(), 4)?;
    holds(&rt, insert(&rt, &mut copy, 3));
    holds(&rt, copy.bits() == set.bits());
    copy.copy_from(&set);
    assert_members(&rt, &copy);
    assert_answers(&rt, &copy);
    assert_ranges(&rt, &copy);
    Ok(())
}
