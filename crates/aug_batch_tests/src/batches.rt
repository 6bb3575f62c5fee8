//! Batches of keys in any order, some twice and some past the tree, with their answers.
use crate::assertions::{equal, holds};
use aug_batch::{Memberships, Ranks, Weights};
use aug_monoid::Extent;
use aug_query::ask;
use aug_query_testing::FakeTree;
use aug_testing::{Host, Last};
use std::alloc::AllocError;

const KEYS: &[u32] = &[9, 4, 5, 5, 16, 10];

// Numbers that a list has, keys, and the list once it also has how many members are below each of these.
const RANKS: &[(&[u32], &[u32], &[u32])] = &[
    (&[], KEYS, &[1, 0, 0, 0, 2, 2]),
    (&[7], &[5, 16, 6, 10], &[7, 0, 2, 1, 2]),
];

const ARE_IN: &[bool] = &[true, false, true, true, false, false];

const WEIGH: &[Option<u32>] = &[Some(30), None, Some(70), Some(70), None, None];

// The tree of 5, which weighs 70, and 9, which weighs 30, of 4 bits.
fn five_and_nine(rt: &impl Host) -> Result<FakeTree<Last, Extent>, AllocError> {
    FakeTree::try_new(rt.alloc(), 4, &[(5, 70), (9, 30)])
}

#[test]
fn ranks_stand_behind_what_was_there(rt: HostRuntime) -> Result<(), AllocError> {
    let mut tree = five_and_nine(&rt)?;
    for (first, keys, expected) in RANKS {
        let mut out = Vec::with_capacity(rt.alloc(), first.len() + keys.len())?;
        out.extend_from_slice(first)?;
        holds(&rt, out.len() + keys.len() <= out.capacity());
        let ranks = ask(&mut tree, Ranks { keys: *keys, out });
        equal(&rt, ranks.as_slice(), *expected);
    }
    Ok(())
}

#[test]
fn each_key_is_told_of_as_by_itself(rt: HostRuntime) -> Result<(), AllocError> {
    let mut tree = five_and_nine(&rt)?;
    let out = Vec::with_capacity(rt.alloc(), KEYS.len())?;
    let are_in = ask(&mut tree, Memberships { keys: KEYS, out });
    equal(&rt, are_in.as_slice(), ARE_IN);
    let out = Vec::with_capacity(rt.alloc(), KEYS.len())?;
    let weigh = ask(&mut tree, Weights { keys: KEYS, out });
    equal(&rt, weigh.as_slice(), WEIGH);
    Ok(())
}
