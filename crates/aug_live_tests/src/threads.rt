//! Threads that update and look, while rounds roll over, handles are made anew and the trie is closed, by calls that wait and by those that wait for nobody;
//! and one that waits for a look, and sleeps meanwhile.

use crate::acting::Act::{Close, Do, Has, Renew, Roll, Tend};
use crate::acting::Reply::{Anew, Came, Closed, Done, IsClosed, Later, Not};
use crate::acting::{
    Act, HandleOf, LiveOf, LookOf, Reply, Update, Waits, changed, fill, looked, opened,
};
use crate::assertions::{equal, holds};
use crate::playing::{User, done, user_of};
use aug_live::OpenError;
use aug_query::descent::Size;
use aug_trie::Outcome::Accepted;
use aug_trie::Request::{Insert, Remove};
use crossbeam_channel::{Receiver, Sender, unbounded};
use std::sync::Wait;
use std::thread;
use std::thread::{Threads, yield_now};
use std::time::{Clock, Duration};

// Makes updates for which the round has to roll over, and says so, and then one for which it has to do so once more, and says that this was made.
fn rolls<R: Wait>(rt: &R, hand: HandleOf, made: Sender<()>) -> bool {
    let mut hand = hand;
    let mut right = fill(rt, &mut hand, true, (4, 4)) == 4;
    let _ = made.send(rt, ());
    right &= changed(rt, &mut hand, true, (63, Insert)) == Came(Accepted);
    let _ = made.send(rt, ());
    right
}

// Once the other thread made its updates, holds a look for a second, and asks it often. Whether it showed four members each time, and the other thread's last
// update was not made meanwhile, but once the look was over.
fn stays<R: Wait + Clock>(rt: &R, look: LookOf, made: Receiver<()>) -> bool {
    let (mut look, mut right) = (look, made.recv(rt).is_ok());
    thread::sleep(rt, Duration::from_secs(1));
    for _ in 0..1_000 {
        right &= look.ask(Size) == 4 && made.try_recv(rt).is_err();
    }
    drop(look);
    right && made.recv(rt).is_ok()
}

// tests/faults runs this test, and measures how long a processor works meanwhile.
#[test]
fn a_thread_that_waits_for_a_look_sleeps_for_1_second(rt: HostRuntime) -> Result<(), OpenError> {
    let (live, mut hands) = opened(rt.alloc(), 6, (2, 2), (4, 2))?;
    let mut hand = hands.pop().expect(&rt, "a handle");
    let mut other = hands.pop().expect(&rt, "a handle");
    equal(&rt, fill(&rt, &mut hand, true, (0, 4)), 4);
    let look = looked(&rt, &mut other, true).ok().expect(&rt, "a look");
    let (make, made) = unbounded(rt.alloc()).expect(&rt, "memory");
    let (one, two) = (|| rolls(&rt, hand, make), || stays(&rt, look, made));
    equal(&rt, thread::join(&rt, one, two), (true, true));
    let (set, counts) = live.close(&rt);
    equal(&rt, (set.size(), counts.rounds), (9, 3));
    Ok(())
}

// A thread's handle, the number of its lane, whether its updates wait, and how many it makes.
type Job = (HandleOf, u32, bool, u32);

// Does an act, again until it need not wait.
fn at_last<R: Waits>(rt: &R, live: &mut Option<LiveOf>, user: &mut User, it: (bool, Act)) -> Reply {
    for _ in rt.forever() {
        let reply = done(rt, live, user, it.0, it.1);
        if !matches!(reply, Later | Anew) {
            return reply;
        }
        yield_now();
    }
    unreachable!()
}

// Puts 16 own keys in and takes them out, in turn, each of which leaves the number of the lane as the remainder divided by 4, and looks for each eighth one. How many
// updates were made before the trie was closed, and whether all was right.
fn works<R: Waits>(rt: &R, job: Job) -> (u32, bool) {
    let (hand, lane, waits, steps) = job;
    let (mut user, mut right) = (user_of(Some(hand)), true);
    for number in 0..steps {
        let key = (number % 16).saturating_mul(4).saturating_add(lane);
        let inserts = number / 16 % 2 == 0;
        let request = if inserts { Insert } else { Remove };
        let reply = at_last(rt, &mut None, &mut user, (waits, Do(key, request)));
        if reply == IsClosed {
            return (number, right);
        }
        right &= reply == Came(Accepted);
        if number % 8 == 0 {
            let seen = at_last(rt, &mut None, &mut user, (waits, Has(key)));
            right &= seen == IsClosed || seen == if inserts { Done } else { Not };
        }
    }
    (steps, right)
}

// What is done with a trie while threads work with its handles, and what each act comes to: all of it so often, by calls that wait or by those that do not.
type Beside = (&'static [(Act, Reply)], u32, bool);

// Does all of that. The trie, unless it was closed, what the last act came to, and whether all else was right.
fn besides<R: Waits>(rt: &R, live: LiveOf, it: Beside) -> (Option<LiveOf>, Reply, bool) {
    let (mut live, mut user) = (Some(live), user_of(None));
    let (mut last, mut right) = (Not, true);
    for _ in 0..it.1 {
        for &(act, expected) in it.0 {
            last = at_last(rt, &mut live, &mut user, (it.2, act));
            right &= last == expected || matches!(act, Close);
        }
    }
    drop(user);
    (live, last, right)
}

// How a trie with four handles is used: by how many threads, whose first ones so many make updates that wait for nobody, and by so many updates of each; in rounds
// with spare lanes and with updates for each lane; what is done beside them, and how many keys that puts in and takes out; and the least and the most rounds.
type Use = ((u32, u32, u32), (u32, u32), Beside, u64, (u64, u64));

// Uses a trie. Its end counts what was done with it.
fn assert_used<R: Threads + Waits + Sync>(rt: &R, it: &Use) -> Result<(), OpenError> {
    let lanes = (4, it.1.0.saturating_add(4));
    let (live, hands) = opened(rt.alloc(), 6, lanes, (it.1.1, 2))?;
    let (mut jobs, mut lane) = (Vec::new(rt.alloc()), 0u32);
    for hand in hands {
        let steps = if lane < it.0.0 { it.0.2 } else { 0 };
        let job = (hand, lane, lane >= it.0.1, steps);
        jobs.push(job).expect(rt, "memory");
        lane = lane.saturating_add(1);
    }
    let work = || thread::map_vec(rt, jobs, &|job| works(rt, job));
    let (did, (live, last, right)) = thread::join(rt, work, || besides(rt, live, it.2));
    holds(rt, right);
    let (mut live, mut inserts, mut removals) = (live, it.3, it.3);
    for &(count, is_right) in did.expect(rt, "memory").as_slice() {
        holds(rt, is_right);
        let put = count / 32 * 16 + (count % 32).min(16);
        inserts = inserts.saturating_add(u64::from(put));
        removals = removals.saturating_add(u64::from(count.saturating_sub(put)));
    }
    let end = at_last(rt, &mut live, &mut user_of(None), (true, Close));
    let Closed(size, rounds, put, taken) = (if end == Not { last } else { end }) else {
        panic!(rt; "no end");
    };
    let left = inserts.saturating_sub(removals);
    equal(rt, (u64::from(size), put, taken), (left, inserts, removals));
    holds(rt, (it.4.0..=it.4.1).contains(&rounds));
    Ok(())
}

const NOTHING: Beside = (&[], 0, true);

const CLOSE: &[(Act, Reply)] = &[(Close, Done)];

// Pieces of the next round are laid out behind and before roll-overs.
const TENDED: &[(Act, Reply)] = &[(Tend, Done), (Tend, Done), (Roll, Done), (Tend, Done)];

// New handles for the lane 3 put key 3 in and take it out in turn.
const RENEW: &[(Act, Reply)] = &[
    (Renew(3), Done),
    (Do(3, Insert), Came(Accepted)),
    (Renew(3), Done),
    (Do(3, Remove), Came(Accepted)),
];

const MOST: u64 = u64::MAX;

const USES: &[Use] = &[
    ((4, 0, 2_000), (0, 10), NOTHING, 0, (200, 801)),
    ((4, 2, 200), (0, 1), NOTHING, 0, (200, 801)),
    // 16,000 updates. A round has room for 800, and uses all of them except those of lanes that were not spent at its end.
    ((4, 0, 4_000), (12, 50), NOTHING, 0, (20, 26)),
    ((4, 4, 4_000), (12, 50), NOTHING, 0, (20, 26)),
    // It is closed by a call that waits if those of all threads do.
    ((4, 0, 5_000_000), (0, 500), (CLOSE, 1, true), 0, (1, MOST)),
    ((4, 2, 5_000_000), (0, 500), (CLOSE, 1, false), 0, (1, MOST)),
    // Each of 50 roll-overs ends a round.
    ((4, 0, 2_000), (0, 1_000), (TENDED, 50, true), 0, (51, MOST)),
    ((4, 2, 2_000), (12, 50), (TENDED, 50, false), 0, (51, MOST)),
    // 6,200 updates, of which each lane has 40 in a round, and 3,020, of which it has 200.
    ((3, 0, 2_000), (0, 40), (RENEW, 100, true), 100, (50, 156)),
    ((3, 2, 1_000), (0, 200), (RENEW, 10, false), 10, (5, 16)),
];

#[test]
fn threads_see_their_own_updates_whatever_is_done_beside_them(
    rt: HostRuntime,
) -> Result<(), OpenError> {
    for it in USES {
        assert_used(&rt, it)?;
    }
    Ok(())
}
