//! Updates by single turns: how many there are, schedules in which they meet others, and passes that are given up.
ghost use Rattle.std.specs.Prelude.{◌≡◌, IfSome};

use super::rounds::{Climber, Walker};
use super::rows::rows;
use aug_testing::Host;
use aug_trie::Outcome::{Accepted, Refused, Replaced};
use aug_trie::{BeginError, Outcome, Turn};
use aug_trie_testing::rows::Act::*;
use aug_trie_testing::rows::Change::*;
use aug_trie_testing::rows::Line::*;
use aug_trie_testing::rows::Reply::*;
use aug_trie_testing::rows::Way::*;
use aug_trie_testing::rows::{Change, Line, made};

// Makes `count` turns. None of them is the last.
pub(super) fn turns<'r>(climb: Climber<'r>, count: u32) -> Option<Climber<'r>>
    ensures { IfSome result (λ now. now.start ≡ climb.entry.start) }
{
    let mut climb = climb;
    for _ in 0..count {
        match climb.turn() {
            Turn::More(next) => climb = next,
            Turn::Done(_, _) => return None,
        }
    }
    Some(climb)
}

// All turns: the pass, what the update came to, and how many there were.
pub(super) fn to_the_end<'r>(climb: Climber<'r>) -> Option<(Walker<'r>, Outcome, u32)>
    ensures { IfSome result (λ t. t.0.round ≡ climb.entry.start.round) }
{
    let most = climb.turns_left();
    let mut climb = climb;
    for made in 0..most {
        match climb.turn() {
            Turn::More(next) => climb = next,
            Turn::Done(pass, outcome) => return Some((pass, outcome, made + 1)),
        }
    }
    None
}

// Bits 1 and 4 of a round: how many turns may be left, and how many there are where nobody else is at work.
const ALONE: &[Line] = &[
    Row("turns alone in a round of 1 bit are the least"),
    Round(Begin, (1, 1, 9), 1),
    A(Start(Insert(0), 0), Done),
    A(TurnsLeft, Number(20)),
    A(Finish, Ended(Accepted, 11)),
    // An update that its leaf prevents has no exchange.
    A(Start(Insert(0), 0), Done),
    A(TurnsLeft, Number(20)),
    A(Finish, Ended(Refused, 10)),
    Row("turns alone in a round of 4 bits are the least"),
    Round(Begin, (4, 1, 1), 1),
    A(Start(Insert(0), 0), Done),
    A(TurnsLeft, Number(110)),
    A(Finish, Ended(Accepted, 56)),
    Row("each update by turns comes to what it says"),
    Round(Begin, (2, 1, 6), 1),
    A(Start(Put(3, 8), 0), Done),
    A(TurnsLeft, Number(50)),
    A(Finish, Ended(Accepted, 26)),
    A(Start(Add(3, 5), 0), Done),
    A(Finish, Ended(Replaced, 26)),
    A(Start(Sub(3, 3), 0), Done),
    A(Finish, Ended(Replaced, 26)),
    A(Weight(3), Finds(Some(10))),
    A(Start(Take(3, 9), 0), Done),
    A(Finish, Ended(Refused, 25)),
    A(Start(Take(3, 10), 0), Done),
    A(Finish, Ended(Accepted, 26)),
    A(Start(Remove(3), 0), Done),
    A(Finish, Ended(Refused, 25)),
    A(Counts, Counted(3, 3, 0)),
];

const MEET: &[Line] = &[
    // Both tries of one pass fail at both levels, and what it put in is shown.
    Row("an update whose tries all fail is shown"),
    Round(Begin, (2, 3, 2), 3),
    A(Start(Insert(0), 0), Done),
    A(Turns(10), Done),
    B(Now(Insert(1)), Came(Accepted)),
    A(Turns(9), Done),
    C(Now(Remove(1)), Came(Accepted)),
    A(Turns(15), Done),
    B(Now(Insert(1)), Came(Accepted)),
    A(Turns(15), Done),
    C(Now(Remove(1)), Came(Accepted)),
    A(TurnsLeft, Number(1)),
    A(Finish, Ended(Accepted, 1)),
    A(Has(0), Is(true)),
    A(Size, Number(1)),
    End(1, (3, 2, 0)),
    // The leaf is changed twice between the first turn and the second.
    Row("an insertion that lost its leaf is refused"),
    Round(Begin, (1, 2, 2), 2),
    A(Start(Insert(0), 1), Done),
    B(Now(Insert(0)), Came(Accepted)),
    B(Now(Remove(0)), Came(Accepted)),
    A(Finish, Ended(Refused, 10)),
    A(Size, Number(0)),
    End(0, (1, 1, 0)),
    // Three changes of one key reach the root at once.
    Row("the root shows three changes of a key at once"),
    Round(Begin, (1, 3, 1), 3),
    A(Start(Insert(0), 2), Done),
    B(Start(Remove(0), 2), Done),
    C(Start(Insert(0), 2), Done),
    A(Finish, Ended(Accepted, 9)),
    A(Has(0), Is(true)),
    B(Finish, Ended(Accepted, 9)),
    B(Has(0), Is(true)),
    C(Finish, Ended(Accepted, 9)),
    C(Has(0), Is(true)),
    End(1, (2, 1, 0)),
    // The replacement comes between the turn that loads the leaf and the turn that exchanges its word.
    Row("a removal that meets a replacement is refused"),
    Round(Begin, (1, 1, 1), 1),
    A(Now(Insert(0)), Came(Accepted)),
    Round(Begin, (1, 2, 1), 2),
    A(Start(Remove(0), 1), Done),
    B(Now(Put(0, 8)), Came(Replaced)),
    A(Finish, Ended(Refused, 10)),
    Rest(Weight(0), Finds(Some(8))),
    End(1, (1, 1, 0)),
];

#[test]
fn updates_by_turns_come_to_what_they_meet(rt: HostRuntime) -> Result<(), BeginError> {
    rows(&rt, ALONE)?;
    rows(&rt, MEET)
}

// A pass makes a change of 0 and is given up after some of its turns, and another pass puts a key in: the change, that key, what 0 weighs before the
// change and after it, and the turn that leaves the change to be shown. The second turn exchanges the leaf's word. From it on the change is shown if the
// other pass brings the node over both keys up to date with its children. It is shown from the eleventh on if only the pass that is given up can do so.
type GivenUp = (&'static str, (Change, u32, Option<u32>, Option<u32>, u32));

const GIVEN_UP: &[GivenUp] = &[
    (
        "an insertion below a node that its neighbour refreshes",
        (Insert(0), 1, None, Some(0), 2),
    ),
    (
        "an insertion below a node that nobody else refreshes",
        (Insert(0), 2, None, Some(0), 11),
    ),
    (
        "a replacement leaves one weight or the other",
        (Put(0, 8), 1, Some(0), Some(8), 2),
    ),
];

// The rest of the round shows the change or does not, and in the next round 0 goes in if it is not there.
fn given_up(rt: &impl Host, row: &GivenUp, turned: u32) -> Result<(), BeginError> {
    let (shows, (change, other, before, after, shown_from)) = *row;
    let weight = if turned < shown_from { before } else { after };
    let members = if weight.is_some() { 2 } else { 1 };
    let first = if before.is_some() {
        Insert(0)
    } else {
        Remove(0)
    };
    rows(
        rt,
        &[
            Row(shows),
            Round(Begin, (2, 1, 1), 1),
            A(Now(first), Came(made(before.is_some()))),
            Round(Begin, (2, 2, 1), 2),
            A(Start(change, turned), Done),
            A(GiveUp, Done),
            B(Now(Insert(other)), Came(Accepted)),
            B(Size, Number(members)),
            B(Has(other), Is(true)),
            B(Weight(0), Finds(weight)),
            End(members, (1, 0, 1)),
            Rest(Weight(0), Finds(weight)),
            Round(Begin, (2, 1, 1), 1),
            A(Now(Insert(0)), Came(made(weight.is_none()))),
        ],
    )
}

#[test]
fn a_pass_given_up_after_each_turn_harms_nobody(rt: HostRuntime) -> Result<(), BeginError> {
    for row in GIVEN_UP {
        for turned in 0..26 {
            given_up(&rt, row, turned)?;
        }
    }
    Ok(())
}
