//! The steps of two passes on one node, driven one by one.
ghost use Rattle.std.specs.Prelude.{◌≡◌, ◌<◌, ◌/◌, ◌%◌, ◌^◌, ◌==◌, if◌then◌else◌, ◌++◌, ◌∷◌, [], ℕ, List, IfOk, false};
ghost use Rattle.aug_core.specs.Faces.{face};
ghost use Rattle.aug_core.specs.Places.{shape_of};
ghost use Rattle.aug_core.specs.Effects.{MayStore, MayChange, IsFilled};
ghost use Rattle.aug_core.specs.inside.Refreshes.{stored};

use super::tables::{assert_leaves, assert_nodes, assert_records, join, next_pass, table_of};
use crate::assertions::equal;
use aug_core::RecordField;
use aug_monoid::{Monoid, fold_slice};
use aug_words::{Rest, WordPass};
use std::alloc::{AllocError, Global};

// The word of the one node of a table of 1 bit.
pub(super) const NODE: usize = 2;

// What one serial adds to a leaf's word.
const SERIAL: u64 = 1 << 32;

// The first two steps of an insertion: the leaf is loaded, and if its key is not there, its serial goes up by one, if it is
// still what was loaded. The key weighs its own number.
fn insert<A: Monoid, B: Monoid>(pass: &mut WordPass<'_, A, B>, leaf: usize) -> bool
    requires bits { pass.old.view.shape.bits ≡ 1 }
    requires leaf { leaf < 2 }
    requires room { MayChange pass.old.view }
    ensures same { (pass.new.table ≡ pass.old.table) × (pass.new.view.shape ≡ pass.old.view.shape) }
    ensures own { (number : ℕ) → MayStore pass.old.view number → MayStore pass.new.view number }
{
    let word = pass.begin_at_leaf(leaf);
    let serial = word / SERIAL;
    serial % 2 == 0 && pass.try_leaf(leaf, word, (serial + 1) * SERIAL + leaf as u64)
}

// The five words of a record over the leaves of the keys 0 and 1, by their words.
pub(super) fn words_over<A: Monoid, B: Monoid>(left: u64, right: u64) -> [u64; 5]
    ensures { let there : ℕ → ℕ → List (ℕ × ℕ) = λ key word. if word / 2 ^ 32 % 2 == 1 then (key, word % 2 ^ 32) ∷ [] else [] in
        result ≡ face A.parts B.parts left right (there 0 left ++ there 1 right) }
{
    let low = (0, (left % SERIAL) as u32);
    let high = (1, (right % SERIAL) as u32);
    match (left / SERIAL % 2 == 1, right / SERIAL % 2 == 1) {
        (false, false) => words_of::<A, B>(left, right, &[]),
        (true, false) => words_of::<A, B>(left, right, &[low]),
        (false, true) => words_of::<A, B>(left, right, &[high]),
        (true, true) => words_of::<A, B>(left, right, &[low, high]),
    }
}

// The five words of a record over children of these words, with these pairs below.
fn words_of<A: Monoid, B: Monoid>(left: u64, right: u64, pairs: &[(u32, u32)]) -> [u64; 5]
    ensures { result ≡ face A.parts B.parts left right pairs.now }
{
    let a: A = fold_slice(pairs);
    let b: B = fold_slice(pairs);
    [left, right, pairs.len() as u64, a.to_word(), b.to_word()]
}

// Stores the five words of a record.
pub(super) fn fill<A: Monoid, B: Monoid>(pass: &mut WordPass<'_, A, B>, number: u64, five: [u64; 5])
    requires { MayStore pass.old.view number }
    ensures { (pass.new.table ≡ pass.old.table) × (pass.new.view ≡ stored pass.old.view number five 5) }
{
    pass.store_record_word(number, RecordField::Left, five[0]);
    pass.store_record_word(number, RecordField::Right, five[1]);
    pass.store_record_word(number, RecordField::Count, five[2]);
    pass.store_record_word(number, RecordField::A, five[3]);
    pass.store_record_word(number, RecordField::B, five[4]);
}

// Loads the node and then its two leaves, and fills the own record from them. Answers the word that was loaded.
fn refill<A: Monoid, B: Monoid>(pass: &mut WordPass<'_, A, B>, number: u64) -> u64
    requires bits { pass.old.view.shape.bits ≡ 1 }
    requires round { pass.old.view.shape.reservations ≡ 0 }
    requires own { MayStore pass.old.view number }
    ensures same { (pass.new.table ≡ pass.old.table) × (pass.new.view.shape ≡ pass.old.view.shape) }
    ensures own { MayStore pass.new.view number }
    ensures filled { IsFilled (face A.parts B.parts) pass.new.view 2 result 0 number }
{
    let from = pass.load_node(NODE);
    let left = pass.load_leaf(0);
    let right = pass.load_leaf(1);
    let five = words_over::<A, B>(left, right);
    fill(pass, number, five);
    from
}

// An exchange of the node's word to the own record, which was filled for it.
fn publish<A: Monoid, B: Monoid>(pass: &mut WordPass<'_, A, B>, from: u64, number: u64) -> bool
    requires bits { pass.old.view.shape.bits ≡ 1 }
    requires round { pass.old.view.shape.reservations ≡ 0 }
    requires own { MayStore pass.old.view number }
    requires filled { IsFilled (face A.parts B.parts) pass.old.view 2 from 0 number }
    ensures same { (pass.new.table ≡ pass.old.table) × (pass.new.view.shape ≡ pass.old.view.shape) }
    ensures own { result ≡ false → MayStore pass.new.view number }
{
    pass.try_node(NODE, from, number)
}

// What two passes did.
#[derive(Drop)]
struct Played {
    inserted: [bool; 2],
    loaded: [u64; 3],
    published: [bool; 3],
}

// Two passes put a key in each, load the node and its leaves, and fill a record each. The first publishes its own; the
// second finds the node changed, loads it again with its leaves, fills its record again and publishes it.
fn play<A: Monoid, B: Monoid>(
    first: &mut WordPass<'_, A, B>,
    second: &mut WordPass<'_, A, B>,
) -> Option<Played>
    requires shapes { (first.old.view.shape ≡ shape_of 1 2 1 0) × (second.old.view.shape ≡ shape_of 1 2 1 0) }
    requires room { MayChange first.old.view × MayChange second.old.view }
    requires own { MayStore first.old.view 1 × MayStore second.old.view 2 }
    ensures first { (first.new.table ≡ first.old.table) × (first.new.view.shape ≡ first.old.view.shape) }
    ensures second { (second.new.table ≡ second.old.table) × (second.new.view.shape ≡ second.old.view.shape) }
{
    let inserted = [insert(first, 0), insert(second, 1)];
    let of_first = refill(first, 1);
    let of_second = refill(second, 2);
    let first_done = publish(first, of_first, 1);
    let second_done = publish(second, of_second, 2);
    if second_done {
        return None;
    }
    let of_again = refill(second, 2);
    let again_done = publish(second, of_again, 2);
    Some(Played {
        inserted,
        loaded: [of_first, of_second, of_again],
        published: [first_done, second_done, again_done],
    })
}

// The lanes of two passes and how many were handed out, what the passes did, and the words at rest.
type Raced = (([u32; 2], u32), Option<Played>, Rest);

// Two passes play on a table of one bit, two workers and one update.
fn race(alloc: Global) -> Result<Raced, AllocError>
    ensures { IfOk result (λ done. done.2.shape ≡ shape_of 1 2 1 0) }
{
    let (words, mut lead) = table_of(alloc, 1, 2, 1, 0, &[])?;
    let mut first = next_pass(&mut lead, &words, 0, 1);
    let mut second = next_pass(&mut lead, &words, 1, 2);
    let lanes = ([first.lane(), second.lane()], lead.handed());
    let played = play(&mut first, &mut second);
    join(&mut lead, &words, first);
    join(&mut lead, &words, second);
    Ok((lanes, played, words.close(lead)))
}

const LEAVES: &[(u32, u64)] = &[(0, 4_294_967_296), (1, 4_294_967_297)];

pub(super) const NODES: &[(u32, u32, u64)] = &[(1, 0, 2)];

const RECORDS: &[(u64, [u64; 5])] = &[
    (1, [4_294_967_296, 4_294_967_297, 2, 1, 1]),
    (2, [4_294_967_296, 4_294_967_297, 2, 1, 1]),
];

#[test]
fn a_record_is_filled_again_after_a_lost_exchange(rt: HostRuntime) -> Result<(), AllocError> {
    let done = race(rt.alloc())?;
    equal(&rt, done.0, ([0, 1], 2));
    let played = done.1.expect(&rt, "a lost exchange");
    equal(&rt, played.inserted, [true, true]);
    equal(&rt, played.loaded, [0, 0, 1]);
    equal(&rt, played.published, [true, false, true]);
    assert_leaves(&rt, &done.2, 1, LEAVES);
    assert_nodes(&rt, &done.2, 1, NODES);
    assert_records(&rt, &done.2, 3, RECORDS);
    Ok(())
}
