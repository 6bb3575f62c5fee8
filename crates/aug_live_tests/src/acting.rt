//! What is done with a trie, a handle and a look, and what that comes to: each public call once, as those that wait, and as those that wait for nobody and
//! answer where they would have to. What these calls promise is met here, in functions that promise nothing, so that the proof of a test is that of its data.
ghost use Rattle.std.specs.Prelude.{◌≡◌, ◌^◌, ◌<◌};

use crate::own::Band;
use aug_live::{Busy, Handle, Live, LiveError, Look, OpenError, Plan, TryError};
use aug_monoid::Extent;
use aug_query::descent::{Has, Pairs, Range, Size};
use aug_testing::{Host, Last};
use aug_trie::{Members, Outcome, Request, Told};
use std::alloc::Global;
use std::sync::Wait;

// No other live trie has these monoids, of which one does not commute.
pub(crate) type LiveOf = Live<Last, Extent>;

pub(crate) type HandleOf = Handle<Last, Extent>;

pub(crate) type LookOf = Look<Last, Extent>;

/// What tests run on.
pub(crate) trait Waits: Wait + Host {}

impl<R: Wait + Host> Waits for R {}

/// An update of a key.
pub(crate) type Update = (u32, Request);

/// What is done. A handle makes an update, takes out a member, puts keys in from the first number on, as many as the second, gives three keys the weight 7 by
/// one call, makes a note, tells how many updates are left to its lane, or takes a look, which stays open beside it until it is over. The open look, or else one
/// that is taken for that, tells how many members there are, whether a key is one, whether they are these, or asks a query of a caller's own, or one of the first monoid. A handle is
/// given up, and one of this lane comes in its place. A trie rolls over, lays a piece of the next round out, and is closed or dropped.
#[derive(Clone, Copy)]
pub(crate) enum Act {
    Do(u32, Request),
    PopFirst,
    PopLast,
    Fill(u32, u32),
    Batch([u32; 3]),
    Note,
    Room,
    Look,
    Over,
    Size,
    Has(u32),
    Shows(&'static [(u32, u32)]),
    Band(u32, u32),
    LastOf(u32, u32),
    GiveUp,
    Renew(u32),
    Roll,
    Tend,
    Close,
    DropTrie,
    /// All of these, which come to the same.
    Each(&'static [Act]),
}

/// What an act comes to. `Later` is for a lock or for looks, and `Anew` for a round that was spent at once. A trie that is closed tells its members, its rounds, and
/// how many keys were put in and taken out.
#[derive(Clone, Copy, PartialEq, Eq, Debug)]
pub(crate) enum Reply {
    Done,
    Not,
    Came(Outcome),
    Popped(Option<(u32, u32)>),
    Number(u32),
    Made(usize),
    Later,
    Anew,
    IsClosed,
    IsReplaced,
    IsLooking,
    NoLane,
    Fails,
    Closed(u32, u64, u64, u64),
}

/// A plan of so many lanes, updates of each, and tables.
pub(crate) fn plan_of(lanes: u32, updates: u32, tables: u32) -> Plan
    ensures { result.lanes ≡ lanes }
{
    Plan {
        lanes,
        updates,
        tables,
    }
}

/// A trie over no keys of `bits` bits, the first of whose lanes have handles, with so many updates in each and so many tables.
pub(crate) fn opened(
    alloc: Global,
    bits: u32,
    (handles, lanes): (u32, u32),
    (updates, tables): (u32, u32),
) -> Result<(LiveOf, Vec<HandleOf>), OpenError> {
    let set = Members::empty(alloc, bits).map_err(|_| OpenError::TooLarge)?;
    if handles > lanes {
        return Err(OpenError::BadLanes);
    }
    let opened = Live::open_with(alloc, set, handles, plan_of(lanes, updates, tables));
    opened.map_err(|refused| refused.1)
}

fn refused(cause: LiveError) -> Reply {
    match cause {
        LiveError::Closed => Reply::IsClosed,
        LiveError::Replaced => Reply::IsReplaced,
        LiveError::NoLane => Reply::NoLane,
        LiveError::Looking(_) => Reply::IsLooking,
        _ => Reply::Fails,
    }
}

// Why a call was not made.
fn missed(cause: TryError<Busy>) -> Reply {
    match cause {
        TryError::Again(Busy::Lock(_) | Busy::Look) => Reply::Later,
        TryError::Again(Busy::Round) => Reply::Anew,
        TryError::Refused(cause) => refused(cause),
    }
}

fn yes(is: bool) -> Reply {
    if is { Reply::Done } else { Reply::Not }
}

fn outcome_of(told: Told) -> Reply {
    Reply::Came(told.outcome)
}

fn made(done: bool) -> Reply {
    let (yes, no) = (Outcome::Accepted, Outcome::Refused);
    Reply::Came(if done { yes } else { no })
}

// An update by a call that waits.
fn updated<R: Wait>(rt: &R, hand: &mut HandleOf, k: u32, request: Request) -> Reply
    requires { k < 2 ^ hand.old.half.round.bits }
{
    match request {
        Request::Insert => hand.insert(rt, k).map_or_else(refused, made),
        Request::Remove => hand.remove(rt, k).map_or_else(refused, made),
        Request::Put(weight) => hand.put(rt, k, weight).map_or_else(refused, outcome_of),
        Request::Add(amount) => hand.add(rt, k, amount).map_or_else(refused, outcome_of),
        Request::Sub(amount) => hand.sub(rt, k, amount).map_or_else(refused, outcome_of),
        Request::Take(_) => hand.update(rt, k, request).map_or_else(refused, outcome_of),
    }
}

/// An update of a key. None is made of one of more bits.
pub(crate) fn changed<R: Wait>(rt: &R, hand: &mut HandleOf, waits: bool, it: Update) -> Reply {
    if it.0 >= hand.universe() {
        return Reply::Not;
    }
    if waits {
        return updated(rt, hand, it.0, it.1);
    }
    hand.try_update(it.0, it.1).map_or_else(missed, outcome_of)
}

/// Puts keys in, from the first number on as many as the second. How many of them went in.
pub(crate) fn fill<R: Wait>(rt: &R, hand: &mut HandleOf, waits: bool, keys: (u32, u32)) -> u32 {
    let mut made = 0u32;
    for k in keys.0..keys.0.saturating_add(keys.1) {
        let reply = changed(rt, hand, waits, (k, Request::Insert));
        made = made.saturating_add(u32::from(reply == Reply::Came(Outcome::Accepted)));
    }
    made
}

// Gives three keys the weight 7.
fn batch<R: Wait>(rt: &R, hand: &mut HandleOf, keys: [u32; 3]) -> Reply {
    let (universe, requests) = (hand.universe(), [Request::Put(7); 3]);
    let mut outcomes = [Outcome::Refused; 3];
    if keys[0] >= universe || keys[1] >= universe || keys[2] >= universe {
        return Reply::Not;
    }
    let count = hand.update_all(rt, &keys, &requests, &mut outcomes);
    count.map_or_else(refused, Reply::Made)
}

/// What a handle does that takes no look. What C has no call for that waits, waits.
pub(crate) fn does<R: Wait>(rt: &R, hand: &mut HandleOf, waits: bool, act: Act) -> Reply {
    match act {
        Act::Do(k, request) => changed(rt, hand, waits, (k, request)),
        Act::Fill(from, count) => Reply::Number(fill(rt, hand, waits, (from, count))),
        Act::PopFirst => hand.pop_first(rt).map_or_else(refused, Reply::Popped),
        Act::PopLast => hand.pop_last(rt).map_or_else(refused, Reply::Popped),
        Act::Batch(keys) => batch(rt, hand, keys),
        Act::Room => hand.room(rt).map_or_else(refused, Reply::Number),
        Act::Note => hand.note(rt).map_or_else(refused, |_| Reply::Done),
        _ => Reply::Not,
    }
}

/// A look, or why there is none.
pub(crate) fn looked<R: Wait>(rt: &R, hand: &mut HandleOf, waits: bool) -> Result<LookOf, Reply> {
    if waits {
        return hand.look(rt).map_err(refused);
    }
    hand.try_look().map_err(missed)
}

/// What an open look shows.
pub(crate) fn shown(alloc: Global, look: &mut LookOf, act: Act) -> Reply {
    match act {
        Act::Size => Reply::Number(look.ask(Size)),
        Act::Has(k) => yes(look.ask(Has(k))),
        Act::Band(level, band) => Reply::Number(look.ask(Band { level, band })),
        Act::LastOf(from, to) => {
            let last = look.ask(Range(from, to)).a.value();
            last.map_or(Reply::Not, Reply::Number)
        }
        Act::Shows(pairs) => match look.ask(Pairs(alloc)) {
            Ok(list) => yes(list.as_slice() == pairs),
            Err(_) => Reply::Fails,
        },
        _ => Reply::Not,
    }
}

/// A new handle for a lane, or why there is none.
pub(crate) fn renewed<R: Wait>(
    rt: &R,
    live: &mut LiveOf,
    waits: bool,
    lane: u32,
) -> Result<HandleOf, Reply> {
    if waits {
        return live.handle(rt, lane).map_err(refused);
    }
    live.try_handle(lane).map_err(|cause| match cause {
        TryError::Again(lock) => missed(TryError::Again(Busy::Lock(lock))),
        TryError::Refused(cause) => refused(cause),
    })
}

/// Rolls the round over.
pub(crate) fn rolled<R: Wait>(rt: &R, live: &mut LiveOf, waits: bool) -> Reply {
    if waits {
        return live.roll(rt).map_or_else(refused, |()| Reply::Done);
    }
    live.try_roll().map_or_else(missed, |()| Reply::Done)
}
