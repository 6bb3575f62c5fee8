//! The queries on a tree of two keys, and how often they ask for memory.
use super::asking::{Answer, Query, Small, Step, five_and_nine, play, take, take_all};
use crate::assertions::equal;
use aug_monoid::{Nothing, Sum};
use aug_query::ask;
use aug_query::descent::SelectByWeight;
use aug_query_testing::FakeTree;
use aug_testing::Host;
use std::alloc::AllocError;

const EACH: &[Step<'static>] = &[
    // A range joins in rising order, and leaves its end out.
    Step::Spans(0, 16, (2, Some(9), Some((5, 9)))),
    Step::Spans(0, 9, (1, Some(5), Some((5, 5)))),

    // Past the keys.
    Step::Asks(Query::Rank(16), Answer::Number(2)),
    Step::Asks(Query::Rank(4_000_000_000), Answer::Number(2)),

    // Past the last member and before the first.
    Step::Asks(Query::Select(2), Answer::Found(None)),
    Step::Asks(Query::Before(5), Answer::Found(None)),
    Step::Asks(Query::After(9), Answer::Found(None)),
    Step::Asks(Query::Weight(5), Answer::Found(Some(70))),
    Step::Asks(Query::Weight(16), Answer::Found(None)),
    Step::Asks(Query::Weight(4_000_000_000), Answer::Found(None)),

    // The ends of all members, and of those in an interval.
    Step::Asks(Query::First, Answer::Found(Some(5))),
    Step::Asks(Query::Last, Answer::Found(Some(9))),
    Step::Asks(Query::Least(6, 16), Answer::Found(Some(9))),
    Step::Asks(Query::Greatest(5, 9), Answer::Found(Some(5))),
    Step::Asks(Query::Least(10, 4_000_000_000), Answer::Found(None)),
    Step::Asks(Query::Greatest(9, 5), Answer::Found(None)),
    Step::Keys(&[5, 9]),
    Step::Pairs(&[(5, 70), (9, 30)]),
    Step::From(6, &[(9, 30)]),
    Step::Below(16, &[(9, 30), (5, 70)]),
];

#[test]
fn each_query_answers(rt: HostRuntime) -> Result<(), AllocError> {
    play(&rt, EACH)
}

// Numbers, and for each the member up to which 5, which weighs 70, and 9, which weighs 30, come to more.
const BY_WEIGHT: &[(u64, Option<u32>)] = &[
    (0, Some(5)),
    (69, Some(5)),
    (70, Some(9)),
    (99, Some(9)),
    (100, None),
    (u64::MAX, None),
];

#[test]
fn weights_come_to_more_than_a_number_at_a_member(rt: HostRuntime) -> Result<(), AllocError> {
    let mut tree: FakeTree<Sum, Nothing> = FakeTree::try_new(rt.alloc(), 4, &[(5, 70), (9, 30)])?;
    for &(number, member) in BY_WEIGHT {
        let found = ask(&mut tree, SelectByWeight(number));
        equal(&rt, (number, found), (number, member));
    }
    Ok(())
}

const WITHOUT_A_LIST: &[Step<'static>] = &[
    Step::Asks(Query::Size, Answer::Number(2)),
    Step::Asks(Query::Rank(9), Answer::Number(1)),
    Step::Asks(Query::Has(9), Answer::Is(true)),
    Step::Asks(Query::Has(6), Answer::Is(false)),
];

const WITHOUT_PAIRS: &[Step<'static>] = &[
    Step::Asks(Query::Weight(9), Answer::Found(Some(30))),
    Step::Asks(Query::Weight(6), Answer::Found(None)),
];

// Makes a call again if it is refused, after those that go on to answer.
fn take_at_last(
    rt: &impl Host,
    tree: &mut Small,
    step: &Step<'_>,
    meanwhile: &[Step<'_>],
) -> Result<(), AllocError> {
    if take(rt, tree, step).is_err() {
        take_all(rt, tree, meanwhile)?;
        take(rt, tree, step)?;
    }
    Ok(())
}

const BOTH_LISTS: &[Step<'static>] = &[Step::Keys(&[5, 9]), Step::Pairs(&[(5, 70), (9, 30)])];

// A request that is refused is made again, and what was asked for before it is still so. `tests/faults` refuses each in turn.
#[test]
fn refused_memory_changes_no_answer(rt: HostRuntime) -> Result<(), AllocError> {
    let (r, alloc) = (&rt, rt.alloc());
    let mut tree = five_and_nine(alloc).or_else(|_| five_and_nine(alloc))?;
    take_at_last(r, &mut tree, &BOTH_LISTS[0], WITHOUT_A_LIST)?;
    take_at_last(r, &mut tree, &BOTH_LISTS[1], WITHOUT_PAIRS)
}

const OF_EACH_QUERY: &[Step<'static>] = &[
    Step::Asks(Query::Size, Answer::Number(2)),
    Step::Asks(Query::Rank(9), Answer::Number(1)),
    Step::Asks(Query::Has(9), Answer::Is(true)),
    Step::Asks(Query::Weight(9), Answer::Found(Some(30))),
    Step::Asks(Query::Select(1), Answer::Found(Some(9))),
    Step::Asks(Query::Before(9), Answer::Found(Some(5))),
    Step::Asks(Query::After(5), Answer::Found(Some(9))),
    Step::Spans(0, 16, (2, Some(9), Some((5, 9)))),
];

// The tree asks once for each of its 5 rows, once for their row and once for the weights. `tests/faults` counts.
#[test]
fn the_queries_of_a_tree_of_4_bits_ask_7_times_for_memory(
    rt: HostRuntime,
) -> Result<(), AllocError> {
    play(&rt, OF_EACH_QUERY)
}

// Each list asks once more.
#[test]
fn the_lists_of_a_tree_of_4_bits_ask_9_times_for_memory(rt: HostRuntime) -> Result<(), AllocError> {
    play(&rt, BOTH_LISTS)
}
