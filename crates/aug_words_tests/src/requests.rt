//! How often tables ask for memory. The number stands in a test's name: `tests/faults` counts. A table is opened with four
//! requests, for its words while they are made, for the counts of its readers, and for its two rows (one row is empty). Nothing else asks.
use super::tables::small;
use super::working::{next_half, take_back, work};
use crate::assertions::equal;
use std::alloc::AllocError;

#[test]
fn a_table_that_passes_work_on_asks_4_times_for_memory(rt: HostRuntime) -> Result<(), AllocError> {
    let (words, mut lead) = small(rt.alloc())?;
    equal(&rt, lead.root(), 4);
    let first = next_half(&mut lead, &words, 0, 5);
    let second = next_half(&mut lead, &words, 1, 9);
    let one = take_back(&mut lead, &words, work(&words, first, 5, 10));
    let two = take_back(&mut lead, &words, work(&words, second, 9, 20));
    equal(&rt, one, [10, 11, 12, 13, 14]);
    equal(&rt, two, [20, 21, 22, 23, 24]);
    Ok(())
}
