//! Calls that take memory while there is enough: none is refused for want of it, whatever its numbers and its set are.
use super::rounds::Trie;
use super::rows::rows_over;
use crate::assertions::equal;
use aug_core::Layout;
use aug_testing::Host;
use aug_trie::{BeginError, Ended};
use aug_trie_testing::rows::Act::{Bits, Fill};
use aug_trie_testing::rows::Line::{A, End, Rest, Round};
use aug_trie_testing::rows::Reply::Number;
use aug_trie_testing::rows::Way::{Begin, OverList, Wider};
use aug_trie_testing::rows::{Line, Numbers};
use aug_trie_testing::sweeps::{EACH, Sweep, UPDATES, sizes};

// These lines over a trie: the trie after them.
fn goes_on(rt: &impl Host, ended: Trie, lines: &[Line]) -> Result<Trie, BeginError> {
    let ended = rows_over(rt, Some(ended), lines)?;
    Ok(ended.expect(rt, "a trie"))
}

// Whether a table over two members has at most so many words, if there is such a table.
fn is_within(numbers: Numbers, most: u64) -> bool {
    let (bits, workers, updates) = numbers;
    match Layout::new(bits, workers, updates, 2) {
        Ok(layout) => layout.words() <= most,
        Err(_) => false,
    }
}

// How many rounds of a row begin with one number of bits. The three calls take turns.
fn rounds(rt: &impl Host, it: &Sweep, bits: u32) -> Result<u32, BeginError> {
    let mut ended = grown(rt, Ended::empty(rt.alloc(), bits)?, bits, 2)?;
    let mut rounds = 0u32;
    for updates in it.2 {
        for workers in it.1 {
            let numbers = (bits, *workers, *updates);
            if is_within(numbers, it.3) {
                let ways = [Begin, Wider, OverList];
                let way = ways[(rounds.saturating_add(bits) % 3) as usize];
                ended = goes_on(rt, ended, &[Round(way, numbers, 0)])?;
                rounds = rounds.saturating_add(1);
            }
        }
    }
    equal(rt, (ended.bits(), ended.size()), (bits, 2));
    Ok(rounds)
}

// Compares how many rounds begin.
fn assert_begin(rt: &impl Host, table: &[Sweep]) -> Result<(), BeginError> {
    for it in table {
        for bits in it.0.0..=it.0.1 {
            equal(rt, (bits, rounds(rt, it, bits)?), (bits, it.4));
        }
    }
    Ok(())
}

// Rounds over two members: each number of workers.
const SMALL: &[Sweep] = &[
    ((1, 1), EACH, UPDATES, 16_384, 482),
    ((2, 2), EACH, UPDATES, 16_384, 417),
    ((3, 3), EACH, UPDATES, 16_384, 384),
    ((4, 4), EACH, UPDATES, 16_384, 353),
    ((5, 5), EACH, UPDATES, 16_384, 334),
    ((6, 6), EACH, UPDATES, 16_384, 320),
    ((7, 7), EACH, UPDATES, 16_384, 302),
    ((8, 8), EACH, UPDATES, 16_384, 287),
    ((9, 9), EACH, UPDATES, 16_384, 273),
    ((10, 10), EACH, UPDATES, 16_384, 259),
    ((11, 11), EACH, UPDATES, 16_384, 232),
    ((12, 12), EACH, UPDATES, 13_192, 141),
    ((13, 13), EACH, UPDATES, 21_384, 134),
    ((14, 14), EACH, UPDATES, 37_768, 130),
    ((15, 16), EACH, &[1], 200_000, 64),
];

#[test]
fn no_round_is_refused_for_its_workers(rt: HostRuntime) -> Result<(), BeginError> {
    assert_begin(&rt, SMALL)
}

// Each number of updates.
const GREAT: &[Sweep] = &[
    ((1, 8), &[1], UPDATES, 6_000_000, 17),
    ((9, 12), &[1], UPDATES, 1_000_000, 15),
    ((13, 16), &[1], UPDATES, 1_000_000, 14),
    ((1, 1), &[64], UPDATES, 500_000, 11),
    ((2, 3), &[64], UPDATES, 500_000, 10),
    ((4, 6), &[64], UPDATES, 500_000, 9),
    ((7, 12), &[64], UPDATES, 500_000, 8),
    ((13, 16), &[64], UPDATES, 500_000, 7),
];

#[test]
fn no_round_is_refused_for_its_updates(rt: HostRuntime) -> Result<(), BeginError> {
    assert_begin(&rt, GREAT)
}

// Rounds of `bits` bits over a trie by each call, in the first of which the keys are put in that it does not have of the `members` least ones.
fn grown(rt: &impl Host, ended: Trie, bits: u32, members: u32) -> Result<Trie, BeginError> {
    let from = ended.size();
    let more = members.saturating_sub(from);
    let lines = [
        Round(Wider, (bits, 1, more.max(1)), 1),
        A(Fill(from, more), Number(more)),
        Round(Begin, (bits, 1, 1), 0),
        Round(OverList, (bits, 1, 1), 0),
        Rest(Bits, Number(bits)),
        End(members, (0, 0, 0)),
    ];
    goes_on(rt, ended, &lines)
}

// Rounds over sets of each size up to 300, and of each number of bits over sets up to that of all keys.
#[test]
fn no_round_is_refused_for_its_members(rt: HostRuntime) -> Result<(), BeginError> {
    let mut ended: Trie = Ended::empty(rt.alloc(), 9)?;
    for members in 0..=300 {
        ended = grown(&rt, ended, 9, members)?;
    }
    let mut ended: Trie = Ended::empty(rt.alloc(), 1)?;
    for bits in 1..=16 {
        for members in sizes(bits) {
            if ended.size() <= members {
                ended = grown(&rt, ended, bits, members)?;
            }
        }
    }
    equal(&rt, ended.size(), 65_536);
    Ok(())
}

// A trie of `bits` bits with so many members goes on to rounds of each number of bits by both calls.
fn widens(rt: &impl Host, members: u32, bits: u32) -> Result<(), BeginError> {
    for more in bits..=16 {
        for (workers, way) in [(1, Wider), (2, OverList)] {
            let lines = [
                Round(Begin, (bits, 1, 128), 1),
                A(Fill(0, members), Number(members)),
                Round(way, (more, workers, 1), 0),
                Rest(Bits, Number(more)),
                End(members, (0, 0, 0)),
            ];
            rows_over(rt, None, &lines)?;
        }
    }
    Ok(())
}

#[test]
fn no_round_is_refused_for_its_bits(rt: HostRuntime) -> Result<(), BeginError> {
    for bits in 1..=16 {
        for members in sizes(bits) {
            if members <= 128 {
                widens(&rt, members, bits)?;
            }
        }
    }
    Ok(())
}
