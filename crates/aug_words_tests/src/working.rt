//! Passes at work in threads of their own: each fills a record and reads it.
ghost use Rattle.std.specs.Prelude.{◌≡◌, ◌<◌, ◌+◌, ℕ, Some, IfOk};
ghost use Rattle.aug_core.specs.Lanes.{first_record, lane_records};
ghost use Rattle.aug_core.specs.Places.{shape_of};
ghost use Rattle.aug_core.specs.Effects.{MayStore};
ghost use Rattle.aug_words.specs.Seats.{AreTogether};

use super::tables::{WordsOf, assert_records, join, next_pass, small};
use crate::assertions::equal;
use aug_core::RecordField;
use aug_monoid::{Extent, Sum};
use aug_words::{Lead, Rest, WordHalf, WordPass};
use std::alloc::{AllocError, Global};
use std::sync::Wait;
use std::thread;
use std::thread::Threads;

// What a worker read of the record that it filled.
#[derive(Drop)]
pub(super) struct Filled {
    pub(super) half: WordHalf<Sum, Extent>,
    pub(super) words: [u64; 5],
}

// The pass of the next lane, which has this record.
pub(super) fn next_half(
    lead: &mut Lead<Sum, Extent>,
    words: &WordsOf,
    lane: u32,
    number: u64,
) -> WordHalf<Sum, Extent>
    requires together { AreTogether words.now lead.old }
    requires lane { (lead.old.view.spare ≡ Some lane) × (lane < words.now.shape.workers) }
    requires updates { 0 < words.now.shape.updates }
    requires number { (k : ℕ) × (k < lane_records words.now.shape) × (number ≡ first_record words.now.shape lane + k) }
    ensures together { AreTogether words.now lead.new }
    ensures lead { lead.new.view.spare ≡ Some (lane + 1) }
    ensures half { AreTogether words.now result }
    ensures own { MayStore result.view number }
{
    next_pass(lead, words, lane, number).into_half()
}

// Takes the half of a worker back: what it read.
pub(super) fn take_back(lead: &mut Lead<Sum, Extent>, words: &WordsOf, filled: Filled) -> [u64; 5]
    requires together { AreTogether words.now lead.old }
    requires half { AreTogether words.now filled.half }
    ensures { AreTogether words.now lead.new }
{
    join(lead, words, words.pass(filled.half));
    filled.words
}

// Stores one word of a record of the pass.
fn store(pass: &mut WordPass<Sum, Extent>, number: u64, field: RecordField, value: u64)
    requires { MayStore pass.old.view number }
    ensures { (pass.new.table ≡ pass.old.table) × (pass.new.view.shape ≡ pass.old.view.shape) × (pass.new.view.members ≡ pass.old.view.members) × MayStore pass.new.view number }
{
    pass.store_record_word(number, field, value);
}

// Loads one word of a record of the pass.
fn load(pass: &mut WordPass<Sum, Extent>, number: u64, field: RecordField) -> u64
    requires { MayStore pass.old.view number }
    ensures { (pass.new.table ≡ pass.old.table) × (pass.new.view.shape ≡ pass.old.view.shape) × (pass.new.view.members ≡ pass.old.view.members) × MayStore pass.new.view number }
{
    pass.load_record_word(number, field)
}

// Fills a record of the half's pass and reads it.
pub(super) fn work(words: &WordsOf, half: WordHalf<Sum, Extent>, number: u64, first: u64) -> Filled
    requires together { AreTogether words.now half }
    requires number { MayStore half.view number × (first < 100) }
    ensures { AreTogether words.now result.half }
{
    let mut pass = words.pass(half);
    store(&mut pass, number, RecordField::Left, first);
    store(&mut pass, number, RecordField::Right, first + 1);
    store(&mut pass, number, RecordField::Count, first + 2);
    store(&mut pass, number, RecordField::A, first + 3);
    store(&mut pass, number, RecordField::B, first + 4);
    let words = [
        load(&mut pass, number, RecordField::Left),
        load(&mut pass, number, RecordField::Right),
        load(&mut pass, number, RecordField::Count),
        load(&mut pass, number, RecordField::A),
        load(&mut pass, number, RecordField::B),
    ];
    Filled {
        half: pass.into_half(),
        words,
    }
}

// The work of two halves, each in a thread of its own.
fn work_of_two<R: Threads + Wait + Sync>(
    rt: &R,
    words: &WordsOf,
    one: WordHalf<Sum, Extent>,
    other: WordHalf<Sum, Extent>,
) -> (Filled, Filled)
    requires together { AreTogether words.now one × AreTogether words.now other }
    requires numbers { MayStore one.view 9 × MayStore other.view 14 }
    ensures one { AreTogether words.now result.0.half }
    ensures other { AreTogether words.now result.1.half }
{
    thread::join(
        rt,
        move ||
            requires { AreTogether words.now one × MayStore one.view 9 }
            ensures { AreTogether words.entry.now result.half }
        { work(words, one, 9, 20) },
        move ||
            requires { AreTogether words.now other × MayStore other.view 14 }
            ensures { AreTogether words.entry.now result.half }
        { work(words, other, 14, 30) },
    )
}

// Hands three lanes out, and takes them back once their records were filled: what was read of these, and the words at rest.
fn three<R: Threads + Wait + Sync>(
    rt: &R,
    alloc: Global,
) -> Result<([[u64; 5]; 3], Rest), AllocError>
    ensures { IfOk result (λ done. done.1.shape ≡ shape_of 2 3 2 2) }
{
    let (words, mut lead) = small(alloc)?;
    let first = next_half(&mut lead, &words, 0, 5);
    let second = next_half(&mut lead, &words, 1, 9);
    let third = next_half(&mut lead, &words, 2, 14);
    let w = &words;
    let (one, (two, other)) = thread::join(
        rt,
        move ||
            requires { AreTogether w.now first × MayStore first.view 5 }
            ensures { AreTogether w.entry.now result.half }
        { work(w, first, 5, 10) },
        move ||
            requires together { AreTogether w.now second × AreTogether w.now third }
            requires numbers { MayStore second.view 9 × MayStore third.view 14 }
            ensures one { AreTogether w.entry.now result.0.half }
            ensures other { AreTogether w.entry.now result.1.half }
        { work_of_two(rt, w, second, third) },
    );
    let one = take_back(&mut lead, &words, one);
    let two = take_back(&mut lead, &words, two);
    let other = take_back(&mut lead, &words, other);
    Ok(([one, two, other], words.close(lead)))
}

const RECORDS: &[(u64, [u64; 5])] = &[
    (5, [10, 11, 12, 13, 14]),
    (9, [20, 21, 22, 23, 24]),
    (14, [30, 31, 32, 33, 34]),
];

#[test]
fn three_passes_fill_their_records(rt: HostRuntime) -> Result<(), AllocError> {
    let done = three(&rt, rt.alloc())?;
    equal(&rt, done.0, [RECORDS[0].1, RECORDS[1].1, RECORDS[2].1]);
    assert_records(&rt, &done.1, 15, RECORDS);
    Ok(())
}
