//! How often rounds ask for memory. The number stands in a test's name: `tests/faults` counts. An empty trie asks four times, for its
//! words while they are made, for the counts of its readers, and for the two rows of its table (one row is empty), and so does a round over no members. A
//! round over some members asks once more, for their list. Nothing else asks except a list, once.
use super::rounds::Trie;
use super::rows::rows;
use crate::assertions::equal;
use aug_trie::Outcome::Accepted;
use aug_trie::{BeginError, Ended};
use aug_trie_testing::rows::Act::*;
use aug_trie_testing::rows::Change::*;
use aug_trie_testing::rows::Line;
use aug_trie_testing::rows::Line::*;
use aug_trie_testing::rows::Reply::*;
use aug_trie_testing::rows::Way::*;

#[test]
fn an_empty_trie_asks_4_times_for_memory(rt: HostRuntime) -> Result<(), BeginError> {
    let ended: Trie = Ended::empty(rt.alloc(), 4)?;
    equal(&rt, ended.bits(), 4);
    Ok(())
}

const CALLS: &[Line] = &[
    Round(Begin, (4, 2, 5), 1),
    A(Start(Insert(9), 0), Done),
    A(Finish, Ended(Accepted, 56)),
    A(Now(Put(5, 70)), Came(Accepted)),
    A(Now(Remove(9)), Came(Accepted)),
    A(Has(5), Is(true)),
    A(Weight(5), Finds(Some(70))),
    A(Rank(9), Number(1)),
    A(Select(0), Finds(Some(5))),
    A(Before(9), Finds(Some(5))),
    A(After(5), Finds(None)),
    A(Range(0, 16), Folded(1, 70, Some((5, 5)))),
    A(Halve, Done),
    A(Back, Done),
];

#[test]
fn a_round_of_updates_and_queries_asks_8_times_for_memory(
    rt: HostRuntime,
) -> Result<(), BeginError> {
    rows(&rt, CALLS)
}

const FIVE: Line = A(Now(Put(5, 70)), Came(Accepted));

const BEHIND_ONE: &[Line] = &[
    Round(Begin, (4, 1, 1), 1),
    FIVE,
    Round(Begin, (4, 64, 1), 1),
    A(Has(5), Is(true)),
];

#[test]
fn a_second_round_over_members_asks_13_times_for_memory(rt: HostRuntime) -> Result<(), BeginError> {
    rows(&rt, BEHIND_ONE)
}

const OVER_LIST: &[Line] = &[
    Round(Begin, (4, 1, 1), 1),
    FIVE,
    Round(OverList, (4, 1, 2), 1),
    A(Has(5), Is(true)),
];

#[test]
fn a_round_over_a_list_asks_13_times_for_memory(rt: HostRuntime) -> Result<(), BeginError> {
    rows(&rt, OVER_LIST)
}

const LISTS: &[Line] = &[
    Round(Begin, (4, 1, 1), 1),
    FIVE,
    A(Keys, Two(Some(5), None)),
    A(Pairs, Listed(Some((5, 70)), None, None)),
    Rest(Keys, Two(Some(5), None)),
    Rest(Pairs, Listed(Some((5, 70)), None, None)),
];

#[test]
fn two_lists_of_a_snapshot_and_two_at_rest_ask_12_times_for_memory(
    rt: HostRuntime,
) -> Result<(), BeginError> {
    rows(&rt, LISTS)
}
