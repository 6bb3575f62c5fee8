//! One try at a node, one atomic step at a time.
ghost use Rattle.std.specs.Prelude.{◌≡◌, ℕ, ◌+◌, ◌^◌, ◌<◌, ◌≤◌, slice_index};
ghost use Rattle.aug_core.specs.Faces.{face};
ghost use Rattle.aug_core.specs.Fields.{field_offset};
ghost use Rattle.aug_core.specs.Places.{record_words};
ghost use Rattle.aug_core.specs.Addresses.{left_of};
ghost use Rattle.aug_core.specs.declared.view.SeatView.{SeatView};
ghost use Rattle.aug_words.specs.Seats.{StaysAt};
ghost use Rattle.aug_trie.specs.inside.Goes.{HasLeaves, part_words, part_steps};
ghost use Rattle.aug_trie.specs.inside.Points.{QuietStep, TryAt, Advances, Falls, IsOverLeaves, five_over, reading_words, child_at, field_after};

use crate::updates::parts::{PART_WORDS, leaf_part, part_of_words};
use crate::updates::refreshing::{five_words, look};
use aug_core::{RECORD_WORDS, RecordField};
use aug_monoid::Monoid;
use aug_words::WordPass;

// How many words of two children's records a try loads.
pub(crate) const READING_WORDS: usize = 2 * PART_WORDS;

// The words of the children's records, which are loaded one after another: the count and the two folds of the left one, then of the
// right one.
#[derive(Clone, Copy)]
pub(crate) struct Reading {
    pub(crate) from: u64,
    pub(crate) left: u64,
    pub(crate) right: u64,
    pub(crate) words: [u64; READING_WORDS],
    // How many of them were loaded.
    pub(crate) count: usize,
}

// The words of the own record, which are stored one after another.
#[derive(Clone, Copy)]
pub(crate) struct Filling {
    pub(crate) from: u64,
    pub(crate) five: [u64; RECORD_WORDS],
    // How many of them were stored. After the fifth the node's word is exchanged.
    pub(crate) count: usize,
}

// What a try does next.
#[derive(Clone, Copy)]
pub(crate) enum Point {
    // It loads the node's word.
    Node,
    // It loads the left child's word, after this one of the node.
    Left(u64),
    // It loads the right child's word, after these of the node and of the left child.
    Right(u64, u64),
    // It loads a word of a child's record.
    Part(Reading),
    // It stores a word of the own record, or exchanges the node's word.
    Record(Filling),
}

// What a step of a try came to.
#[derive(Clone, Copy)]
pub(crate) enum Advanced {
    // There is more to do.
    To(Point),
    // The node's word was exchanged, or that failed.
    Exchanged(bool),
}

// The word of a record that lies `offset` words after its first.
#[inline(always)]
fn field_at(offset: usize) -> RecordField
    requires { offset < record_words }
    ensures { field_offset result ≡ offset }
{
    match offset {
        0 => RecordField::Left,
        1 => RecordField::Right,
        2 => RecordField::Count,
        3 => RecordField::A,
        _ => RecordField::B,
    }
}

// The own record over two leaves.
fn over_leaves<A: Monoid, B: Monoid>(child: usize, from: u64, left: u64, right: u64) -> Filling
    requires { child + 1 < 2 ^ 32 }
    ensures from { result.from ≡ from }
    ensures five { IsOverLeaves A.parts B.parts child left right result.five }
    ensures count { result.count ≡ 0 }
{
    let l = leaf_part::<A, B>(child, left);
    let r = leaf_part::<A, B>(child + 1, right);
    Filling {
        from,
        five: five_words(left, right, l, r),
        count: 0,
    }
}

// The own record over two nodes, of whose records all words were loaded: the count, the first and the second value of the left one, and then those
// of the right one.
fn over_nodes<A: Monoid, B: Monoid>(reading: Reading) -> Filling
    requires { slice_index reading.words 0 + slice_index reading.words 3 < 2 ^ 64 }
    ensures from { result.from ≡ reading.from }
    ensures five { result.five ≡ five_over A.parts B.parts reading.left reading.right (slice_index reading.words) }
    ensures count { result.count ≡ 0 }
{
    let Reading {
        from,
        left,
        right,
        words,
        ..
    } = reading;
    let l = part_of_words::<A, B>(words[0], words[1], words[2]);
    let r = part_of_words::<A, B>(words[3], words[4], words[5]);
    Filling {
        from,
        five: five_words(left, right, l, r),
        count: 0,
    }
}

// Loads the right child's word: one step.
fn load_right<A: Monoid, B: Monoid>(
    pass: &mut WordPass<A, B>,
    leaves: usize,
    node: usize,
    from: u64,
    left: u64,
) -> Point
    requires leaves { HasLeaves pass.old.view.shape leaves }
    requires begun { (v : SeatView) × (number : ℕ) × TryAt (face A.parts B.parts) v node number (Point.Right from left) pass.old.view }
    ensures step { StaysAt pass.old pass.new (QuietStep pass.old.view pass.new.view) }
    ensures on { (v : SeatView) (number : ℕ) → TryAt (face A.parts B.parts) v node number (Point.Right from left) pass.old.view → TryAt (face A.parts B.parts) v node number result pass.new.view }
    ensures falls { Falls (part_steps pass.old.view.shape (left_of pass.old.view.shape node)) (Point.Right from left) (Advanced.To result) }
{
    let child = 2 * (node - leaves);
    let right = look(pass, leaves, child + 1);
    if child < leaves {
        return Point::Record(over_leaves::<A, B>(child, from, left, right));
    }
    Point::Part(Reading {
        from,
        left,
        right,
        words: [0; READING_WORDS],
        count: 0,
    })
}

// The record and the word of it that are loaded next.
fn next_word(reading: Reading) -> (u64, RecordField)
    requires { reading.count < reading_words }
    ensures record { result.0 ≡ child_at reading.left reading.right reading.count }
    ensures field { field_offset result.1 ≡ field_after reading.count }
{
    let count = reading.count;
    if count < PART_WORDS {
        (reading.left, field_at(count + 2))
    } else {
        (reading.right, field_at(count - 1))
    }
}

// Loads the next word of the children's records: one step.
fn load_part<A: Monoid, B: Monoid>(pass: &mut WordPass<A, B>, reading: Reading) -> Point
    requires begun { (v : SeatView) × (node : ℕ) × (number : ℕ) × TryAt (face A.parts B.parts) v node number (Point.Part reading) pass.old.view }
    ensures step { StaysAt pass.old pass.new (QuietStep pass.old.view pass.new.view) }
    ensures on { (v : SeatView) (node number : ℕ) → TryAt (face A.parts B.parts) v node number (Point.Part reading) pass.old.view → TryAt (face A.parts B.parts) v node number result pass.new.view }
    ensures falls { Falls part_words (Point.Part reading) (Advanced.To result) }
{
    let mut reading = reading;
    let count = reading.count;
    let (number, field) = next_word(reading);
    reading.words[count] = pass.load_record_word(number, field);
    reading.count = count + 1;
    if reading.count < READING_WORDS {
        Point::Part(reading)
    } else {
        Point::Record(over_nodes::<A, B>(reading))
    }
}

// Stores the next word of the own record, or exchanges the node's word for its number: one step.
fn store_or_try<A: Monoid, B: Monoid>(
    pass: &mut WordPass<A, B>,
    node: usize,
    number: u64,
    filling: Filling,
) -> Advanced
    requires begun { (v : SeatView) × TryAt (face A.parts B.parts) v node number (Point.Record filling) pass.old.view }
    ensures step { StaysAt pass.old pass.new (QuietStep pass.old.view pass.new.view) }
    ensures on { (v : SeatView) → TryAt (face A.parts B.parts) v node number (Point.Record filling) pass.old.view → Advances (face A.parts B.parts) v node number result pass.new.view }
    ensures falls { Falls part_words (Point.Record filling) result }
{
    let count = filling.count;
    if count == RECORD_WORDS {
        return Advanced::Exchanged(pass.try_node(node, filling.from, number));
    }
    pass.store_record_word(number, field_at(count), filling.five[count]);
    Advanced::To(Point::Record(Filling {
        from: filling.from,
        five: filling.five,
        count: count + 1,
    }))
}

// The next step of a try at a node.
pub(crate) fn advance<A: Monoid, B: Monoid>(
    pass: &mut WordPass<A, B>,
    leaves: usize,
    node: usize,
    number: u64,
    point: Point,
) -> Advanced
    requires leaves { HasLeaves pass.old.view.shape leaves }
    requires begun { (v : SeatView) × TryAt (face A.parts B.parts) v node number point pass.old.view }
    ensures step { StaysAt pass.old pass.new (QuietStep pass.old.view pass.new.view) }
    ensures on { (v : SeatView) → TryAt (face A.parts B.parts) v node number point pass.old.view → Advances (face A.parts B.parts) v node number result pass.new.view }
    ensures falls { Falls (part_steps pass.old.view.shape (left_of pass.old.view.shape node)) point result }
{
    match point {
        Point::Node => Advanced::To(Point::Left(look(pass, leaves, node))),
        Point::Left(from) => {
            let left = look(pass, leaves, 2 * (node - leaves));
            Advanced::To(Point::Right(from, left))
        }
        Point::Right(from, left) => Advanced::To(load_right(pass, leaves, node, from, left)),
        Point::Part(reading) => Advanced::To(load_part(pass, reading)),
        Point::Record(filling) => store_or_try(pass, node, number, filling),
    }
}
