//! A table that is opened and closed at once, also with a request for memory refused. Each key weighs its own number.
use super::tables::{assert_leaves, assert_nodes, assert_records, small};
use std::alloc::{AllocError, Global};
use std::process::Abort;

const LEAVES: &[(u32, u64)] = &[(0, 4_294_967_296), (1, 4_294_967_297), (2, 0), (3, 0)];

const NODES: &[(u32, u32, u64)] = &[(1, 0, 2), (1, 1, 0), (2, 0, 4)];

// The node over no key has the shared record of its level, and a record that no node needs holds zeros.
const RECORDS: &[(u64, [u64; 5])] = &[
    (0, [0, 0, 0, 0, 4_294_967_296]),
    (1, [0, 0, 0, 0, 4_294_967_296]),
    (2, [4_294_967_296, 4_294_967_297, 2, 1, 1]),
    (3, [0; 5]),
    (4, [2, 0, 2, 1, 1]),
];

// Opens a table of 2 bits over 0 and 1, and compares what it holds.
fn assert_opens(rt: &impl Abort, alloc: Global) -> Result<(), AllocError> {
    let (words, lead) = small(alloc)?;
    let rest = words.close(lead);
    assert_leaves(rt, &rest, 2, LEAVES);
    assert_nodes(rt, &rest, 2, NODES);
    assert_records(rt, &rest, 15, RECORDS);
    Ok(())
}

#[test]
fn nodes_over_no_key_share_the_record_of_their_level(rt: HostRuntime) -> Result<(), AllocError> {
    assert_opens(&rt, rt.alloc())
}

// A request that is refused is made again. `tests/faults` refuses each in turn.
#[test]
fn refused_memory_spoils_no_later_opening(rt: HostRuntime) -> Result<(), AllocError> {
    match assert_opens(&rt, rt.alloc()) {
        Ok(()) => Ok(()),
        Err(AllocError) => assert_opens(&rt, rt.alloc()),
    }
}
