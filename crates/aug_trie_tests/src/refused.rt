//! Rounds that are refused, for want of memory or for their numbers: the trie that comes back is as before, and a later call begins a round. And how
//! many bits an empty trie has.
use super::rounds::Trie;
use super::rows::{rows, rows_over};
use crate::assertions::equal;
use aug_trie::BeginError::{BadBits, BadUpdates, BadWorkers, Narrower, TooLarge};
use aug_trie::Outcome::Accepted;
use aug_trie::{BeginError, Ended};
use aug_trie_testing::rows::Act::*;
use aug_trie_testing::rows::Change::*;
use aug_trie_testing::rows::Line;
use aug_trie_testing::rows::Line::*;
use aug_trie_testing::rows::Reply::*;
use aug_trie_testing::rows::Way::*;

const MEMORY: &[Line] = &[
    Row("refused memory leaves the trie, the narrower one and the list"),
    Round(Begin, (4, 1, 2), 1),
    A(Now(Put(9, u32::MAX)), Came(Accepted)),
    A(Now(Put(5, 70)), Came(Accepted)),
    Rest(Keys, Two(Some(5), Some(9))),
    Rest(Pairs, Listed(Some((5, 70)), Some((9, u32::MAX)), None)),
    Round(Begin, (4, 1, 1), 1),
    A(Keys, Two(Some(5), Some(9))),
    A(Pairs, Listed(Some((5, 70)), Some((9, u32::MAX)), None)),
    Round(Wider, (6, 1, 1), 1),
    A(Now(Put(63, 1)), Came(Accepted)),
    End(3, (1, 0, 0)),
    Round(OverList, (6, 1, 2), 1),
    A(Weight(9), Finds(Some(u32::MAX))),
    Rest(Range(0, 64), Folded(3, 4_294_967_366, Some((5, 63)))),
];

// Passes whichever request for memory is refused.
#[test]
fn refused_memory_leaves_every_answer(rt: HostRuntime) -> Result<(), BeginError> {
    rows(&rt, MEMORY)
}

const NUMBERS: &[Line] = &[
    Row("what is wrong first is what a round is refused for"),
    Round(Begin, (4, 1, 2), 1),
    A(Now(Put(9, u32::MAX)), Came(Accepted)),
    A(Now(Put(5, 70)), Came(Accepted)),
    Refuses(Wider, (17, 0, 0), BadBits),
    Refuses(Wider, (3, 0, 0), Narrower),
    Refuses(Wider, (4, 0, 0), BadWorkers),
    Refuses(Wider, (5, 1, 0), BadUpdates),
    Refuses(Wider, (16, 64, 65_536), TooLarge),
    Round(Wider, (16, 1, 1), 0),
    Refuses(Begin, (16, 0, 0), BadWorkers),
    Refuses(Begin, (16, 1, 0), BadUpdates),
    Refuses(Begin, (16, 64, 65_536), TooLarge),
    Round(Begin, (16, 1, 1), 0),
    End(2, (0, 0, 0)),
];

#[test]
fn begin_refuses_in_its_order(rt: HostRuntime) -> Result<(), BeginError> {
    rows(&rt, NUMBERS)
}

#[test]
fn an_empty_trie_has_1_to_16_bits(rt: HostRuntime) -> Result<(), BeginError> {
    for bits in 0..18 {
        let made: Result<Trie, BeginError> = Ended::empty(rt.alloc(), bits);
        if bits == 0 || bits == 17 {
            equal(&rt, made.err(), Some(BadBits));
        } else {
            rows_over(
                &rt,
                Some(made?),
                &[Rest(Bits, Number(bits)), End(0, (0, 0, 0))],
            )?;
        }
    }
    Ok(())
}
