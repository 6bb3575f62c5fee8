//! A small table, and what a table holds at rest.
ghost use Rattle.std.specs.Prelude.{◌≡◌, ◌≤◌, ◌<◌, ◌+◌, ℕ, All, Some, IfOk, length};
ghost use Rattle.aug_core.specs.Lanes.{first_record, lane_records};
ghost use Rattle.aug_core.specs.Places.{shape_of, record_count};
ghost use Rattle.aug_core.specs.Effects.{MayStore, MayChange};
ghost use Rattle.aug_model.specs.Keys.{IsKeySet, keys_of};
ghost use Rattle.aug_monoid.specs.Weighted.{FitsPair};
ghost use Rattle.aug_words.specs.Seats.{AreTogether};

use crate::assertions::{equal, holds};
use aug_core::{Layout, RecordField};
use aug_monoid::{Extent, Monoid, Sum};
use aug_words::{Lead, Rest, WordPass, Words};
use std::alloc::{AllocError, Global};
use std::process::Abort;

pub(super) type WordsOf = Words<Sum, Extent>;

// A table of `bits` bits, `workers` workers and `updates` updates, which opens with these members in a layout for `room` of them.
pub(super) fn table_of(
    alloc: Global,
    bits: u32,
    workers: u32,
    updates: u32,
    room: u32,
    members: &[(u32, u32)],
) -> Result<(WordsOf, Lead<Sum, Extent>), AllocError>
    requires keys { IsKeySet bits (keys_of members.now) }
    requires fit { All FitsPair members.now }
    requires few { length members.now ≤ room }
    ensures together { IfOk result (λ t. AreTogether t.0 t.1) }
    ensures shape { IfOk result (λ t. t.0.shape ≡ shape_of bits workers updates room) }
    ensures spare { IfOk result (λ t. t.1.view.spare ≡ Some 0) }
{
    let Ok(layout) = Layout::new(bits, workers, updates, room) else {
        return Err(AllocError)
    };
    Words::open(alloc, &layout, 2, members)
}

// A table of 2 bits, 3 workers and 2 updates, which opens with the keys 0 and 1.
pub(super) fn small(alloc: Global) -> Result<(WordsOf, Lead<Sum, Extent>), AllocError>
    ensures together { IfOk result (λ t. AreTogether t.0 t.1) }
    ensures shape { IfOk result (λ t. t.0.shape ≡ shape_of 2 3 2 2) }
    ensures spare { IfOk result (λ t. t.1.view.spare ≡ Some 0) }
{
    table_of(alloc, 2, 3, 2, 2, &[(0, 0), (1, 1)])
}

// The pass of the next lane, which has this record and may make a change.
pub(super) fn next_pass<'r, A: Monoid, B: Monoid>(
    lead: &mut Lead<A, B>,
    words: &'r Words<A, B>,
    lane: u32,
    number: u64,
) -> WordPass<'r, A, B>
    requires together { AreTogether words.now lead.old }
    requires lane { (lead.old.view.spare ≡ Some lane) × (lane < words.now.shape.workers) }
    requires updates { 0 < words.now.shape.updates }
    requires number { (k : ℕ) × (k < lane_records words.now.shape) × (number ≡ first_record words.now.shape lane + k) }
    ensures together { AreTogether words.now lead.new }
    ensures lead { lead.new.view.spare ≡ Some (lane + 1) }
    ensures pass { AreTogether words.now result }
    ensures own { MayStore result.view number }
    ensures change { MayChange result.view }
{
    lead.split(words)
}

// Takes a pass of the table back.
pub(super) fn join<A: Monoid, B: Monoid>(
    lead: &mut Lead<A, B>,
    words: &Words<A, B>,
    pass: WordPass<'_, A, B>,
)
    requires together { AreTogether words.now lead.old }
    requires pass { (pass.table ≡ words.now.table) × (pass.view.shape ≡ words.now.shape) }
    ensures together { AreTogether words.now lead.new }
{
    let _words = words;
    lead.join(pass);
}

// The five words of a record at rest.
fn record_at(rest: &Rest, number: u64) -> [u64; 5]
    requires { number < record_count rest.now.shape }
{
    [
        rest.record_word(number, RecordField::Left),
        rest.record_word(number, RecordField::Right),
        rest.record_word(number, RecordField::Count),
        rest.record_word(number, RecordField::A),
        rest.record_word(number, RecordField::B),
    ]
}

// Compares leaves by their keys: the words that a table of `bits` bits holds at rest.
pub(super) fn assert_leaves(rt: &impl Abort, rest: &Rest, bits: u32, leaves: &[(u32, u64)])
    requires bits { (bits ≡ rest.now.shape.bits) × (bits ≤ 16) }
{
    for (key, word) in leaves {
        let key = *key;
        holds(rt, key < 1 << bits);
        equal(rt, (key, rest.leaf(key)), (key, *word));
    }
}

// Compares nodes by their levels and their places there.
pub(super) fn assert_nodes(rt: &impl Abort, rest: &Rest, bits: u32, nodes: &[(u32, u32, u64)])
    requires bits { (bits ≡ rest.now.shape.bits) × (bits ≤ 16) }
{
    for (level, place, number) in nodes {
        let (level, place) = (*level, *place);
        holds(rt, 1 <= level);
        holds(rt, level <= bits);
        holds(rt, place < 1 << (bits - level));
        let found = rest.node(level, place);
        equal(rt, (level, place, found), (level, place, *number));
    }
}

// Compares records by their numbers, which are below `count`.
pub(super) fn assert_records(rt: &impl Abort, rest: &Rest, count: u64, records: &[(u64, [u64; 5])])
    requires count { count ≤ record_count rest.now.shape }
{
    for (number, words) in records {
        let number = *number;
        holds(rt, number < count);
        equal(rt, (number, record_at(rest, number)), (number, *words));
    }
}
