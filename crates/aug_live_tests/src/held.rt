//! Looks of as many earlier rounds as there are tables to spare, and of more; and looks that ended, which hold no round up.

use crate::acting::Reply::Done;
use crate::acting::{HandleOf, LookOf, Waits, fill, looked, opened, rolled};
use crate::assertions::{equal, holds};
use aug_live::{Busy, OpenError, TryError};
use aug_query::descent::Size;

// The tables, in how many rounds looks are taken, one in each, and which of these ends first.
type Held = (u32, u32, u32);

const HELD: &[Held] = &[
    // With a table for each round of which a look is open, and two more, no roll-over waits.
    (3, 1, 0),
    (5, 3, 1),
    (66, 64, 63),
    // With one table fewer they wait until there is no look of one of these rounds.
    (2, 1, 0),
    (4, 3, 0),
    (4, 3, 2),
    (9, 8, 5),
];

// Each look shows one member more than the one before it, but for that which ended.
fn assert_shown<R: Waits>(rt: &R, looks: &mut [LookOf], ended: u32) {
    let mut members = 0u32;
    for look in looks {
        members = members.saturating_add(if members == ended { 2 } else { 1 });
        equal(rt, look.ask(Size), members);
    }
}

// Looks of some rounds stay open over so many roll-overs that each table is used anew: at once if there is one to spare, and else once a look is over.
fn assert_held<R: Waits>(rt: &R, it: &Held) -> Result<(), OpenError> {
    let (tables, lanes, first) = *it;
    let (mut live, hands) = opened(rt.alloc(), 6, (lanes, lanes), (1, tables))?;
    let (mut looks, mut key, mut ended) = (Vec::new(rt.alloc()), 0u32, lanes);
    for hand in hands {
        let mut hand = hand;
        equal(rt, fill(rt, &mut hand, false, (key, 1)), 1);
        let look = looked(rt, &mut hand, false).ok().expect(rt, "a look");
        looks.push(look).ok().expect(rt, "a place");
        equal(rt, rolled(rt, &mut live, false), Done);
        key = key.saturating_add(1);
    }
    if tables < lanes.saturating_add(2) {
        let waits = matches!(live.try_roll(), Err(TryError::Again(Busy::Look)));
        holds(rt, waits && (first as usize) < looks.len());
        drop(looks.remove(first as usize));
        ended = first;
    }
    for _ in 0..tables.saturating_add(3) {
        equal(rt, rolled(rt, &mut live, false), Done);
        assert_shown(rt, looks.as_mut_slice(), ended);
    }
    Ok(())
}

#[test]
fn roll_overs_wait_for_looks_of_as_many_rounds_as_there_are_other_tables(
    rt: HostRuntime,
) -> Result<(), OpenError> {
    for it in HELD {
        assert_held(&rt, it)?;
    }
    Ok(())
}

// How many members a look shows that is over at once.
fn seen<R: Waits>(rt: &R, hand: &mut HandleOf) -> u32 {
    let mut look = looked(rt, hand, false).ok().expect(rt, "a look");
    look.ask(Size)
}

// A handle takes a look in one round, and the other two take looks in the next, which end: one of them goes on in another lane, a roll-over finds that it has
// to wait, and the same handle takes a look once more. Once the first look is over as well, each round rolls over. The handles are in one of six orders.
fn assert_none_lost<R: Waits>(rt: &R, order: u32) -> Result<(), OpenError> {
    let (mut live, mut hands) = opened(rt.alloc(), 6, (3, 5), (2, 2))?;
    let mut a = hands.pop().expect(rt, "a handle");
    let mut b = hands.pop().expect(rt, "another one");
    let mut c = hands.pop().expect(rt, "a third one");
    if order % 2 == 1 {
        (a, b) = (b, a);
    }
    for _ in 0..order / 2 {
        (a, b, c) = (b, c, a);
    }
    let look = looked(rt, &mut c, false).ok().expect(rt, "a look");
    equal(rt, rolled(rt, &mut live, false), Done);
    equal(rt, seen(rt, &mut b), 0);
    equal(rt, fill(rt, &mut b, false, (0, 3)), 3);
    equal(rt, seen(rt, &mut a), 3);
    let waits = matches!(live.try_roll(), Err(TryError::Again(Busy::Look)));
    holds(rt, waits);
    equal(rt, seen(rt, &mut b), 3);
    drop(look);
    for _ in 0..4 {
        equal(rt, rolled(rt, &mut live, false), Done);
    }
    Ok(())
}

#[test]
fn no_look_that_ended_holds_a_round_up(rt: HostRuntime) -> Result<(), OpenError> {
    for order in 0..6 {
        assert_none_lost(&rt, order)?;
    }
    Ok(())
}
