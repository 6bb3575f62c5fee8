//! Rows of passes: each call once, and how rounds hand out their lanes, count, end with passes back and passes that were dropped, and go on.
use super::rows::rows;
use aug_trie::Outcome::{Accepted, Refused, Replaced};
use aug_trie::{BeginError, Pop};
use aug_trie_testing::rows::Act::*;
use aug_trie_testing::rows::Change::*;
use aug_trie_testing::rows::Line;
use aug_trie_testing::rows::Line::*;
use aug_trie_testing::rows::Reply::*;
use aug_trie_testing::rows::Way::*;

const CALLS: &[Line] = &[
    Row("each update comes to what it says"),
    Round(Begin, (4, 1, 10), 1),
    A(Now(Insert(9)), Came(Accepted)),
    A(Now(Put(5, 70)), Came(Accepted)),
    A(Now(Put(5, 71)), Came(Replaced)),
    A(Now(Add(5, 9)), Came(Replaced)),
    A(Now(Sub(5, 8)), Came(Replaced)),
    A(Now(Take(5, 72)), Came(Accepted)),
    A(Now(Remove(5)), Came(Refused)),
    A(Now(Insert(3)), Came(Accepted)),
    A(Now(PopFirst), Popped(Pop::Member(3, 3))),
    A(Now(PopLast), Popped(Pop::Member(9, 9))),
    A(Counts, Counted(6, 6, 0)),
    Row("each query answers"),
    Round(Begin, (4, 1, 2), 1),
    A(Now(Insert(9)), Came(Accepted)),
    A(Now(Insert(5)), Came(Accepted)),
    A(Size, Number(2)),
    A(Has(5), Is(true)),
    A(Weight(9), Finds(Some(9))),
    A(Rank(9), Number(1)),
    A(Select(1), Finds(Some(9))),
    A(Before(9), Finds(Some(5))),
    A(After(5), Finds(Some(9))),
    A(Keys, Two(Some(5), Some(9))),
    A(Pairs, Listed(Some((5, 5)), Some((9, 9)), None)),
    A(Range(5, 9), Folded(1, 5, Some((5, 5)))),
    A(
        PassesOver(0),
        Listed(Some((5, 5)), Some((9, 9)), Some((9, 9))),
    ),
    A(Left, Stands(3, 0, 1, 5, Some((5, 5)))),
    A(Right, Stands(3, 1, 1, 9, Some((9, 9)))),
    A(Halve, Done),
    A(RankByView(16), Number(2)),
    Row("a snapshot stays what it was"),
    Round(Begin, (2, 1, 3), 1),
    A(Now(Insert(1)), Came(Accepted)),
    A(
        KeptOver(&[Insert(2), Remove(1)]),
        Kept((1, true), (1, true)),
    ),
    A(Size, Number(1)),
    A(Has(2), Is(true)),
    A(Counts, Counted(2, 1, 0)),
];

const ROUNDS: &[Line] = &[
    Row("each lane is handed out once"),
    Round(Begin, (1, 2, 1), 1),
    A(Lane, Number(0)),
    B(Open, Done),
    B(Lane, Number(1)),
    C(Open, Not),
    A(Back, Done),
    C(Open, Not),
    C(Handed, Number(2)),
    Row("a pass that comes back tells later ones"),
    Round(Begin, (4, 3, 2), 2),
    A(Now(Insert(3)), Came(Accepted)),
    B(Has(3), Is(true)),
    B(Now(Remove(3)), Came(Accepted)),
    A(Now(Insert(3)), Came(Accepted)),
    A(Back, Done),
    C(Open, Done),
    C(Has(3), Is(true)),
    End(1, (2, 1, 0)),
    Row("what came after the last look of the crew is not in the end"),
    Round(Begin, (2, 2, 2), 2),
    A(Back, Done),
    B(Now(Insert(3)), Came(Accepted)),
    B(GiveUp, Done),
    Rest(Has(3), Is(false)),
    End(0, (0, 0, 1)),
    Row("a key of the new range goes in"),
    Round(Begin, (2, 1, 1), 1),
    A(Now(Insert(3)), Came(Accepted)),
    Round(Wider, (5, 1, 1), 1),
    A(Now(Insert(31)), Came(Accepted)),
    Rest(Bits, Number(5)),
    Rest(Universe, Number(32)),
    Rest(Rank(32), Number(2)),
    Rest(Before(31), Finds(Some(3))),
    Rest(Has(3), Is(true)),
    End(2, (1, 0, 0)),
    Row("the next round has the weights, and changes them"),
    Round(Begin, (4, 1, 2), 1),
    A(Now(Put(9, u32::MAX)), Came(Accepted)),
    A(Now(Put(5, 70)), Came(Accepted)),
    Round(Begin, (4, 1, 2), 1),
    A(Pairs, Listed(Some((5, 70)), Some((9, u32::MAX)), None)),
    A(Now(Put(9, 0)), Came(Replaced)),
    A(Now(Remove(5)), Came(Accepted)),
    End(1, (1, 2, 0)),
    Round(OverList, (6, 1, 1), 1),
    A(Now(Insert(60)), Came(Accepted)),
    Rest(Pairs, Listed(Some((9, 0)), Some((60, 60)), None)),
    End(2, (1, 0, 0)),
];

#[test]
fn rows_of_passes_come_to_what_they_say(rt: HostRuntime) -> Result<(), BeginError> {
    rows(&rt, CALLS)?;
    rows(&rt, ROUNDS)
}
