//! What a handle tells another by a note, its look by a newer snapshot, and its trie by coming back. The contracts of these calls want handles of one trie.
ghost use Rattle.std.specs.Prelude.{◌≡◌, IfOk};
ghost use Rattle.aug_trie.specs.Round.{table_of};
ghost use Rattle.aug_live.specs.LiveHandles.{IsLookOf};
ghost use Rattle.aug_live.specs.LiveTries.{ids_of};

use crate::acting::Reply::Done;
use crate::acting::{HandleOf, LiveOf, LookOf, Waits, opened, plan_of, renewed, rolled};
use crate::assertions::{equal, holds};
use aug_live::{Live, LiveError, OpenError, TryError};
use aug_query::descent::{Has, Size};
use aug_trie::Members;
use std::process::Abort;
use std::sync::Wait;

// A trie over no keys of so many bits, and the handles of its two lanes.
fn two<R: Waits>(rt: &R, bits: u32) -> Result<(LiveOf, HandleOf, HandleOf), OpenError>
    ensures tables { IfOk result (λ t. (t.1.half.round.table ≡ t.0.table) × (t.2.half.round.table ≡ t.0.table)) }
    ensures lanes { IfOk result (λ t. (ids_of t.1.who.trie ≡ ids_of t.0) × (ids_of t.2.who.trie ≡ ids_of t.0)) }
{
    let set = Members::empty(rt.alloc(), bits).map_err(|_| OpenError::TooLarge)?;
    let (live, mut hands) = match Live::open_with(rt.alloc(), set, 2, plan_of(2, 9, 2)) {
        Ok(opened) => opened,
        Err((_, cause)) => return Err(cause),
    };
    let Some(b) = hands.pop() else {
        panic!(rt; "no last handle");
    };
    let Some(a) = hands.pop() else {
        panic!(rt; "no first handle");
    };
    Ok((live, a, b))
}

// Puts a key in.
fn insert<R: Wait + Abort>(rt: &R, hand: &mut HandleOf, key: u32)
    ensures table { hand.new.half.round.table ≡ hand.old.half.round.table }
    ensures lanes { ids_of hand.new.who.trie ≡ ids_of hand.old.who.trie }
{
    holds(rt, key < hand.universe());
    equal(rt, hand.insert(rt, key), Ok(true));
}

// Takes a look.
fn look_of<R: Wait + Abort>(rt: &R, hand: &mut HandleOf) -> LookOf
    ensures own { IsLookOf hand.new result }
    ensures table { hand.new.half.round.table ≡ hand.old.half.round.table }
    ensures lanes { ids_of hand.new.who.trie ≡ ids_of hand.old.who.trie }
{
    let Ok(look) = hand.look(rt) else {
        panic!(rt; "no look");
    };
    look
}

// One handle puts a key in and makes a note, and another learns it. The round rolls over before the note is made and before it is learnt.
#[test]
fn a_note_tells_what_its_maker_did_over_roll_overs(rt: HostRuntime) -> Result<(), OpenError> {
    for bits in [1, 6, 16] {
        let (mut live, mut from, mut to) = two(&rt, bits)?;
        insert(&rt, &mut from, 1);
        equal(&rt, rolled(&rt, &mut live, true), Done);
        let Ok(note) = from.note(&rt) else {
            panic!(rt; "no note");
        };
        equal(&rt, rolled(&rt, &mut live, true), Done);
        holds(&rt, to.learn(&rt, note).is_ok());
        holds(&rt, look_of(&rt, &mut to).ask(Has(1)));
    }
    Ok(())
}

// How many members a look shows, and how many keys changed between its last two snapshots.
fn differs(look: &mut LookOf) -> (u32, usize)
    ensures table { table_of look.new.reader.round ≡ table_of look.old.reader.round }
    ensures lane { look.new.lane ≡ look.old.lane }
{
    let size = look.ask(Size);
    (size, look.changes(0).len())
}

// A look takes a newer snapshot with its own handle.
fn again<R: Wait>(rt: &R, look: &mut LookOf, hand: &mut HandleOf) -> Result<bool, LiveError>
    requires { IsLookOf hand.old look.old }
    ensures { IsLookOf hand.new look.new }
{
    look.again(rt, hand)
}

// A look takes a newer snapshot behind an insertion of the other handle, and one behind a roll-over, and none once its handle was replaced. It answers on.
#[test]
fn a_look_takes_newer_snapshots_with_its_handle(rt: HostRuntime) -> Result<(), OpenError> {
    let (mut live, mut other, mut hand) = two(&rt, 6)?;
    let mut look = look_of(&rt, &mut hand);
    insert(&rt, &mut other, 2);
    equal(&rt, differs(&mut look), (0, 0));
    equal(&rt, again(&rt, &mut look, &mut hand), Ok(true));
    equal(&rt, differs(&mut look), (1, 1));
    insert(&rt, &mut other, 3);
    equal(&rt, rolled(&rt, &mut live, true), Done);
    equal(&rt, differs(&mut look), (1, 1));
    equal(&rt, again(&rt, &mut look, &mut hand), Ok(false));
    equal(&rt, differs(&mut look), (2, 0));
    insert(&rt, &mut other, 5);
    drop(renewed(&rt, &mut live, true, 1));
    let refused = again(&rt, &mut look, &mut hand);
    equal(&rt, refused, Err(LiveError::Replaced));
    let refused = look.try_again(&mut hand);
    equal(&rt, refused, Err(TryError::Refused(LiveError::Replaced)));
    equal(&rt, differs(&mut look), (2, 0));
    Ok(())
}

#[test]
fn a_handle_that_was_replaced_learns_no_note(rt: HostRuntime) -> Result<(), OpenError> {
    let (mut live, mut other, mut hand) = two(&rt, 6)?;
    drop(renewed(&rt, &mut live, true, 1));
    let Ok(note) = other.note(&rt) else {
        panic!(rt; "no note");
    };
    holds(&rt, hand.learn(&rt, note).is_err());
    Ok(())
}

// Takes a handle back.
fn back<R: Wait>(rt: &R, live: &mut LiveOf, hand: HandleOf) -> Result<(), LiveError>
    requires table { hand.half.round.table ≡ live.old.table }
    requires lanes { ids_of hand.who.trie ≡ ids_of live.old }
    ensures table { live.new.table ≡ live.old.table }
    ensures ids { ids_of live.new ≡ ids_of live.old }
{
    match live.back(rt, hand) {
        Ok(()) => Ok(()),
        Err((_, cause)) => Err(cause),
    }
}

// A new handle for a lane puts a key in and comes back.
fn new_one_is_back<R: Wait + Abort>(rt: &R, live: &mut LiveOf, lane: u32, key: u32)
    ensures table { live.new.table ≡ live.old.table }
    ensures ids { ids_of live.new ≡ ids_of live.old }
{
    let Ok(mut hand) = live.handle(rt, lane) else {
        panic!(rt; "no handle");
    };
    insert(rt, &mut hand, key);
    equal(rt, back(rt, live, hand), Ok(()));
}

// Tries to roll the round over. Whether it has to wait.
fn has_to_wait(live: &mut LiveOf) -> bool
    ensures table { live.new.table ≡ live.old.table }
    ensures ids { ids_of live.new ≡ ids_of live.old }
{
    live.try_roll().is_err()
}

// Of the two handles, one comes back at once while its look and one of the other are open, and a roll-over waits for them, which answer on; and the other one
// does not, since its lane has a newer handle, which comes back.
#[test]
fn a_handle_comes_back_while_looks_are_open(rt: HostRuntime) -> Result<(), OpenError> {
    let (mut live, mut old, mut hand) = two(&rt, 6)?;
    let mut beside = look_of(&rt, &mut old);
    insert(&rt, &mut hand, 3);
    let mut own = look_of(&rt, &mut hand);
    holds(&rt, !has_to_wait(&mut live));
    holds(&rt, has_to_wait(&mut live));
    equal(&rt, back(&rt, &mut live, hand), Ok(()));
    new_one_is_back(&rt, &mut live, 0, 5);
    equal(&rt, back(&rt, &mut live, old), Err(LiveError::Replaced));
    equal(&rt, (own.ask(Size), beside.ask(Size)), (1, 0));
    drop(own);
    holds(&rt, has_to_wait(&mut live));
    drop(beside);
    holds(&rt, !has_to_wait(&mut live));
    let (set, counts) = live.close(&rt);
    let found = (set.size(), counts.rounds, counts.handles, counts.missing);
    equal(&rt, found, (2, 3, 3, 1));
    Ok(())
}

#[test]
fn each_new_handle_of_each_lane_comes_back(rt: HostRuntime) -> Result<(), OpenError> {
    let (mut live, hands) = opened(rt.alloc(), 8, (64, 64), (3, 2))?;
    drop(hands);
    for key in 0..192 {
        new_one_is_back(&rt, &mut live, key % 64, key);
    }
    let (set, counts) = live.close(&rt);
    let found = (set.size(), counts.rounds, counts.handles, counts.missing);
    equal(&rt, found, (192, 1, 256, 64));
    Ok(())
}
