//! Memory refused: nothing is lost, and a later call succeeds.

use crate::acting::Act::*;
use crate::acting::Reply::*;
use crate::acting::{HandleOf, LiveOf, changed, looked, plan_of};
use crate::assertions::equal;
use crate::playing::Line::*;
use crate::playing::{Line, plays};
use aug_live::{Live, OpenError};
use aug_query::descent;
use aug_trie::Outcome::{Accepted, Refused};
use aug_trie::Request::{Insert, Put, Remove};
use aug_trie::{AllMembers, Members};
use std::alloc::Global;
use std::process::Abort;

type Opened = (LiveOf, Vec<HandleOf>);

// Opens a trie over a set, for rounds of two updates of one handle, or within so many bytes.
fn opens(alloc: Global, set: Members, by_plan: bool) -> Result<Opened, (Members, OpenError)> {
    if by_plan {
        return Live::open_with(alloc, set, 1, plan_of(1, 2, 2));
    }
    Live::open(alloc, set, 2, 1 << 16)
}

// Opens it again if memory was refused. The set that comes back is the same.
fn opens_again(
    rt: &impl Abort,
    alloc: Global,
    set: Members,
    by_plan: bool,
    pairs: &[(u32, u32)],
) -> Result<Opened, OpenError> {
    let set = match opens(alloc, set, by_plan) {
        Ok(opened) => return Ok(opened),
        Err((set, cause)) => {
            equal(rt, (set.bits(), cause), (4, OpenError::OutOfMemory));
            set
        }
    };
    equal(rt, set.as_slice(), pairs);
    opens(alloc, set, by_plan).map_err(|refused| refused.1)
}

const PAIRS: &[(u32, u32)] = &[(3, 30), (9, 9)];

// 0, 1, 2 and 4 go in.
const LINES: &[Line] = &[
    A(Fill(0, 5), Number(4)),
    A(Do(2, Remove), Came(Accepted)),
    A(Size, Number(5)),
    A(Each(&[Renew(0), Look]), Done),
    A(Do(4, Insert), Came(Refused)),
    A(Size, Number(5)),
    A(Each(&[Over, Roll]), Done),
    A(Close, Closed(5, 5, 4, 1)),
];

// Passes whichever request for memory is refused. Updates, looks, roll-overs and new handles ask for none, so that none of them is refused, and a look whose
// members are not listed is as it was.
#[test]
fn refused_memory_loses_nothing_of_a_live_trie(rt: HostRuntime) -> Result<(), OpenError> {
    let alloc = rt.alloc();
    let set = Members::empty(alloc, 4).map_err(|_| OpenError::TooLarge)?;
    let (live, mut hands) = opens_again(&rt, alloc, set, false, &[])?;
    let mut hand = hands.pop().expect(&rt, "a handle");
    for (key, request) in [(3, Put(30)), (9, Insert)] {
        let reply = changed(&rt, &mut hand, true, (key, request));
        equal(&rt, reply, Came(Accepted));
    }
    let mut look = looked(&rt, &mut hand, true).ok().expect(&rt, "a look");
    let first = look.ask(AllMembers(alloc));
    let again = look.ask(AllMembers(alloc));
    equal(&rt, look.ask(descent::Size), 2);
    let list = first.or(again).map_err(|_| OpenError::OutOfMemory)?;
    equal(&rt, list.as_slice(), PAIRS);
    let (set, _) = live.close(&rt);
    let (live, hands) = opens_again(&rt, alloc, set, true, PAIRS)?;
    plays(&rt, Some(live), hands, true, LINES)
}
