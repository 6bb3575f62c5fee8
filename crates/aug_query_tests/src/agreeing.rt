//! Trees of many members, and of each number of bits: with memory at hand none is refused, and each member is listed.
use super::asking::{keys_of, pairs_of};
use crate::assertions::{equal, holds};
use aug_monoid::Sum;
use aug_query_testing::FakeTree;
use aug_testing::{Host, Last};
use std::alloc::AllocError;

// The tree of the keys of `bits` bits that are below `members`. No key weighs itself.
fn tree_of(rt: &impl Host, bits: u32, members: u32) -> Result<FakeTree<Last, Sum>, AllocError> {
    holds(rt, 1 <= bits);
    holds(rt, bits <= 16);
    let mut list = Vec::new(rt.alloc());
    for k in 0..members.min(1u32 << bits) {
        list.push((k, u32::MAX - k))?;
    }
    FakeTree::try_new(rt.alloc(), bits, &list)
}

// Compares the lists of the tree of the `members` least keys.
fn assert_lists(rt: &impl Host, bits: u32, members: u32) -> Result<(), AllocError> {
    let mut tree = tree_of(rt, bits, members)?;
    let count = members as usize;
    let keys = keys_of(rt.alloc(), &mut tree)?.len();
    let pairs = pairs_of(rt.alloc(), &mut tree)?.len();
    equal(rt, (bits, keys, pairs), (bits, count, count));
    Ok(())
}

// Numbers of bits and of members.
const TREES: &[(u32, u32)] = &[
    (12, 511),
    (12, 512),
    (12, 1_000),
    (12, 4_095),
    (12, 4_096),
    (16, 32_768),
    (16, 65_535),
    (16, 65_536),
];

#[test]
fn trees_of_many_members_are_listed(rt: HostRuntime) -> Result<(), AllocError> {
    for (bits, members) in TREES {
        assert_lists(&rt, *bits, *members)?;
    }
    Ok(())
}

// Members of 9 bits from 0 to 299, and with each of them members of 1 to 16 bits from 0 to 2.
#[test]
fn each_number_of_members_and_of_bits_is_listed(rt: HostRuntime) -> Result<(), AllocError> {
    for number in 0..300u32 {
        assert_lists(&rt, 9, number)?;
        assert_lists(&rt, number % 16 + 1, number / 16 % 3)?;
    }
    Ok(())
}
