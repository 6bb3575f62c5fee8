//! Rows of one user: what updates come to, what their keys weigh then, and what is counted. Handles play them over rounds.
use crate::rows::Act::*;
use crate::rows::Change::*;
use crate::rows::Line;
use crate::rows::Line::*;
use crate::rows::Reply::*;
use crate::rows::Way::*;
use aug_trie::Outcome::{Accepted, Refused, Replaced, TooGreat, TooLittle, Unchanged};
use aug_trie::Pop;

/// Additions and subtractions.
pub const AMOUNTS: &[Line] = &[
    // A refused update stores nothing, and is one of the budget.
    Row("an amount raises or lowers a weight, puts a key in or takes it out, or does not fit"),
    Round(Begin, (3, 1, 12), 1),
    A(See(Add(7, 5)), Seen(Accepted, Some(5))),
    A(See(Add(7, 4)), Seen(Replaced, Some(9))),
    A(Now(Add(7, u32::MAX - 8)), Came(TooGreat)),
    A(See(Add(7, 0)), Seen(Unchanged, Some(9))),
    A(Now(Sub(7, 10)), Came(TooLittle)),
    A(See(Sub(7, 8)), Seen(Replaced, Some(1))),
    A(Now(Add(3, 0)), Came(Unchanged)),
    A(See(Sub(3, 0)), Seen(Unchanged, None)),
    A(Now(Sub(6, 1)), Came(TooLittle)),
    A(See(Sub(7, 1)), Seen(Accepted, None)),
    A(See(Add(6, u32::MAX)), Seen(Accepted, Some(u32::MAX))),
    A(Counts, Counted(4, 3, 1)),
    End(1, (4, 3, 0)),
];

/// Keys that come in with a weight of their own, and members that get another one.
pub const PUTS: &[Line] = &[
    Row(
        "a put is accepted for an absent key and replaces a member, and an insertion weighs its key",
    ),
    Round(Begin, (2, 1, 6), 1),
    A(Weight(3), Finds(None)),
    A(See(Put(3, 7)), Seen(Accepted, Some(7))),
    A(See(Put(3, u32::MAX)), Seen(Replaced, Some(u32::MAX))),
    A(See(Insert(3)), Seen(Refused, Some(u32::MAX))),
    A(See(Remove(3)), Seen(Accepted, None)),
    A(See(Insert(3)), Seen(Accepted, Some(3))),
    A(See(Put(0, 0)), Seen(Accepted, Some(0))),
    A(Range(0, 4), Folded(2, 3, Some((0, 3)))),
    A(Pairs, Listed(Some((0, 0)), Some((3, 3)), None)),
    A(Size, Number(2)),
    A(Counts, Counted(4, 2, 0)),
    End(2, (4, 2, 0)),
];

/// Pops from both ends, and takes of a key by its weight.
pub const POPS: &[Line] = &[
    // A pop of an empty set makes no update.
    Row("pops from both ends, and takes of a key by its weight alone"),
    Round(Begin, (3, 1, 12), 1),
    A(Now(PopFirst), Popped(Pop::Empty)),
    A(Now(PopLast), Popped(Pop::Empty)),
    A(Counts, Counted(0, 0, 12)),
    A(Now(Put(5, 0)), Came(Accepted)),
    A(Now(Insert(2)), Came(Accepted)),
    A(Now(Put(7, 1)), Came(Accepted)),
    A(Now(PopLast), Popped(Pop::Member(7, 1))),
    A(Now(PopFirst), Popped(Pop::Member(2, 2))),
    A(Now(Take(5, 1)), Came(Refused)),
    A(Now(Take(2, 0)), Came(Refused)),
    A(Now(Take(5, 0)), Came(Accepted)),
    A(Now(PopLast), Popped(Pop::Empty)),
    A(Counts, Counted(3, 3, 4)),
    End(0, (3, 3, 0)),
];

/// What updates tell of their key's weight.
pub const TOLD: &[Line] = &[
    Row("updates tell what their key weighed and weighs"),
    Round(Begin, (3, 1, 12), 1),
    A(Tell(Remove(7)), Tells(Refused, None, None)),
    A(Tell(Insert(7)), Tells(Accepted, None, Some(7))),
    A(Tell(Put(7, 9)), Tells(Replaced, Some(7), Some(9))),
    A(Tell(Add(7, 5)), Tells(Replaced, Some(9), Some(14))),
    A(Tell(Add(7, 0)), Tells(Unchanged, Some(14), Some(14))),
    A(Tell(Add(7, u32::MAX)), Tells(TooGreat, Some(14), Some(14))),
    A(Tell(Sub(7, 15)), Tells(TooLittle, Some(14), Some(14))),
    A(Tell(Sub(7, 4)), Tells(Replaced, Some(14), Some(10))),
    A(Tell(Take(7, 9)), Tells(Refused, Some(10), Some(10))),
    A(Tell(Take(7, 10)), Tells(Accepted, Some(10), None)),
    A(Tell(Put(0, 0)), Tells(Accepted, None, Some(0))),
    A(Weight(0), Finds(Some(0))),
];
