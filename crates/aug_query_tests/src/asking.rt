//! Queries and their answers as data, so that each call is proved once.
use crate::assertions::equal;
use aug_monoid::{Extent, Monoid};
use aug_query::descent::{self, First, Greatest, Least, MembersBelow, MembersFrom};
use aug_query::{
    after, ask as ask_tree, before, has, keys, pairs, range, rank, select, size, weight,
};
use aug_query_testing::FakeTree;
use aug_testing::{Host, Last};
use std::alloc::{AllocError, Global};

// A query that is answered with one value.
#[derive(Clone, Copy)]
pub(super) enum Query {
    Size,
    Has(u32),
    Weight(u32),
    Rank(u32),
    Select(u32),
    Before(u32),
    After(u32),
    First,
    Last,
    Least(u32, u32),
    Greatest(u32, u32),
}

#[derive(Clone, Copy, Debug, PartialEq)]
pub(super) enum Answer {
    Is(bool),
    Number(u32),
    Found(Option<u32>),
}

// What a tree answers.
fn ask(tree: &mut Small, query: Query) -> Answer {
    match query {
        Query::Size => Answer::Number(size(tree)),
        Query::Has(k) => Answer::Is(has(tree, k)),
        Query::Weight(k) => Answer::Found(weight(tree, k)),
        Query::Rank(k) => Answer::Number(rank(tree, k)),
        Query::Select(i) => Answer::Found(select(tree, i)),
        Query::Before(k) => Answer::Found(before(tree, k)),
        Query::After(k) => Answer::Found(after(tree, k)),
        Query::First => Answer::Found(ask_tree(tree, First)),
        Query::Last => Answer::Found(ask_tree(tree, descent::Last)),
        Query::Least(a, b) => Answer::Found(ask_tree(tree, Least(a, b))),
        Query::Greatest(a, b) => Answer::Found(ask_tree(tree, Greatest(a, b))),
    }
}

// The members of a tree.
pub(super) fn keys_of<A: Monoid, B: Monoid>(
    alloc: Global,
    tree: &mut FakeTree<A, B>,
) -> Result<Vec<u32>, AllocError> {
    keys(alloc, tree)
}

// The members of a tree with their weights.
pub(super) fn pairs_of<A: Monoid, B: Monoid>(
    alloc: Global,
    tree: &mut FakeTree<A, B>,
) -> Result<Vec<(u32, u32)>, AllocError> {
    pairs(alloc, tree)
}

pub(super) type Small = FakeTree<Last, Extent>;

// The tree of 5, which weighs 70, and 9, which weighs 30, of 4 bits.
pub(super) fn five_and_nine(alloc: Global) -> Result<Small, AllocError> {
    FakeTree::try_new(alloc, 4, &[(5, 70), (9, 30)])
}

// How many members there are in a range, the last of them, and the least and the greatest.
type Spanned = (u32, Option<u32>, Option<(u32, u32)>);

fn spanned(tree: &mut Small, a: u32, b: u32) -> Spanned {
    let found = range(tree, a, b);
    (found.count, found.a.value(), found.b.bounds())
}

// A call, with what it is to answer.
#[derive(Clone, Copy)]
pub(super) enum Step<'a> {
    Asks(Query, Answer),
    Spans(u32, u32, Spanned),
    Keys(&'a [u32]),
    Pairs(&'a [(u32, u32)]),
    From(u32, &'a [(u32, u32)]),
    Below(u32, &'a [(u32, u32)]),
}

// Makes one call, and compares its answer.
pub(super) fn take(rt: &impl Host, tree: &mut Small, step: &Step<'_>) -> Result<(), AllocError> {
    match step {
        Step::Asks(query, answer) => equal(rt, ask(tree, *query), *answer),
        Step::Spans(a, b, expected) => equal(rt, spanned(tree, *a, *b), *expected),
        Step::Keys(expected) => {
            let found = keys_of(rt.alloc(), tree)?;
            equal(rt, found.as_slice(), *expected);
        }
        Step::Pairs(expected) => {
            let found = pairs_of(rt.alloc(), tree)?;
            equal(rt, found.as_slice(), *expected);
        }
        Step::From(key, expected) => {
            let page = ask_tree(tree, MembersFrom(*key));
            equal(rt, page.as_slice(), *expected);
        }
        Step::Below(key, expected) => {
            let page = ask_tree(tree, MembersBelow(*key));
            equal(rt, page.as_slice(), *expected);
        }
    }
    Ok(())
}

// Makes some calls of a tree.
pub(super) fn take_all(
    rt: &impl Host,
    tree: &mut Small,
    steps: &[Step<'_>],
) -> Result<(), AllocError> {
    for step in steps {
        take(rt, tree, step)?;
    }
    Ok(())
}

// Makes some calls of the tree of 5 and 9.
pub(super) fn play(rt: &impl Host, steps: &[Step<'_>]) -> Result<(), AllocError> {
    let mut tree = five_and_nine(rt.alloc())?;
    take_all(rt, &mut tree, steps)
}
