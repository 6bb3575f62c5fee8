//! Rounds as lines of tables: a row has a name that says what it shows, and rounds that go on from one another.
use super::playing::steps;
use super::rounds::{Trie, begun, kept, or_empty};
use crate::assertions::equal;
use aug_query::ask;
use aug_query::descent::{After, Before, Has, Keys, Pairs, Range, Rank, Select, Size, Weight};
use aug_testing::Host;
use aug_trie::BeginError;
use aug_trie::BeginError::OutOfMemory;
use aug_trie_testing::asked;
use aug_trie_testing::rows::{Act, Line, Numbers, Reply, Way, folded, told_keys, told_pairs};
use std::alloc::Global;

// What a trie at rest says of itself and of the round that ended it, and what the queries answer.
fn answer(alloc: Global, ended: &mut Trie, act: Act) -> Reply {
    match act {
        Act::Bits => Reply::Number(ended.bits()),
        Act::Universe => Reply::Number(ended.universe()),
        _ => asked!(act, alloc, ask(ended,)),
    }
}

// Compares what a trie at rest answers.
fn rested(rt: &impl Host, ended: Trie, shows: &str, line: Line) -> Result<Trie, BeginError> {
    let mut ended = ended;
    match line {
        Line::Rest(act, expected) => {
            let found = answer(rt.alloc(), &mut ended, act);
            if found == Reply::NoMemory {
                return Err(OutOfMemory);
            }
            equal(rt, (shows, found), (shows, expected));
        }
        Line::End(size, counts) => {
            let found = (ended.inserts(), ended.removals(), ended.missing());
            equal(rt, (shows, ended.size(), found), (shows, size, counts));
        }
        _ => panic!(rt; "{shows}: a line of no trie at rest"),
    }
    Ok(ended)
}

// The trie that comes back where a round is refused.
fn refused(rt: &impl Host, ended: Trie, round: (Way, Numbers, BeginError), shows: &str) -> Trie {
    let (way, numbers, cause) = round;
    match kept(rt, ended, way, numbers) {
        Ok(_) => panic!(rt; "{shows}: {} {} {}", numbers.0, numbers.1, numbers.2),
        Err((ended, found)) => {
            equal(rt, (shows, numbers, found), (shows, numbers, cause));
            ended
        }
    }
}

// What the line of this number comes to over the trie before it. Lines of a pass were played with their round.
fn played(
    rt: &impl Host,
    ended: Option<Trie>,
    shows: &str,
    table: &[Line],
    number: usize,
) -> Result<Option<Trie>, BeginError> {
    let Some(line) = table.get(number) else {
        return Ok(ended);
    };
    match *line {
        Line::Row(_) => Ok(None),
        Line::Round(way, numbers, open) => {
            let trie = or_empty(rt, ended, numbers.0)?;
            let stage = begun(rt, trie, way, numbers)?;
            let lines = table.get(number.saturating_add(1)..).unwrap_or(&[]);
            Ok(Some(steps(rt, stage, open, shows, lines)?))
        }
        Line::Refuses(way, numbers, cause) => {
            let kept = or_empty(rt, ended, numbers.0)?;
            Ok(Some(refused(rt, kept, (way, numbers, cause), shows)))
        }
        Line::A(_, _) | Line::B(_, _) | Line::C(_, _) => Ok(ended),
        line => Ok(Some(rested(rt, ended.expect(rt, "a trie"), shows, line)?)),
    }
}

// The name of the row that a line begins, or the one before.
fn name_of(line: &Line, before: &'static str) -> &'static str {
    match *line {
        Line::Row(name) => name,
        _ => before,
    }
}

// The rows of a table, of which the first may go on over a trie: the trie after them, if there was a round.
pub(super) fn rows_over(
    rt: &impl Host,
    ended: Option<Trie>,
    table: &[Line],
) -> Result<Option<Trie>, BeginError> {
    let (mut ended, mut shows) = (ended, "");
    for number in 0..table.len() {
        shows = name_of(&table[number], shows);
        ended = played(rt, ended, shows, table, number)?;
    }
    Ok(ended)
}

// A table of rows.
pub(super) fn rows(rt: &impl Host, table: &[Line]) -> Result<(), BeginError> {
    rows_over(rt, None, table)?;
    Ok(())
}
