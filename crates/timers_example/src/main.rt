//! A timer service: a tick is a key, and how many timers are due then its weight. Three threads arm timers and cancel some, and one fires them, for as
//! many seconds as the first argument says. At the end each timer was fired, or was cancelled, or is left.
#![tactic(auto)]

ghost use Rattle.std.specs.Prelude.{◌≡◌, IfOk, vec_len};

use anyhow::bail;
use aug_live::{Handle, Live, LiveError};
use aug_monoid::{Extent, Nothing};
use aug_trie::Outcome::{Accepted, Replaced};
use aug_trie::{Members, Told};
use std::alloc::Global;
use std::sync::Wait;
use std::thread::Threads;
use std::time::{Clock, Duration, Instant};
use std::{env, thread};

type User = Handle<Nothing, Extent>;

fn is_over<R: Clock>(rt: &R, end: Instant) -> bool {
    !matches!(Instant::now(rt), Ok(now) if now < end)
}

// One if an update was made.
fn made(told: Told) -> u64 {
    u64::from(matches!(told.outcome, Accepted | Replaced))
}

// Arms timers, and cancels each third one if it was not fired meanwhile: how many were armed, and how many cancelled. An update requires that its
// key is below the universe.
fn arm<R: Wait + Clock>(rt: &R, mut user: User, end: Instant) -> Result<(u64, u64), LiveError> {
    let (mut armed, mut cancelled) = (0u64, 0u64);
    for i in 0..u64::MAX {
        let tick = (i.wrapping_mul(619) % 1_024) as u32;
        if tick >= user.universe() || is_over(rt, end) {
            break;
        }
        armed = armed.saturating_add(made(user.add(rt, tick, 1)?));
        if i % 3 == 0 {
            cancelled = cancelled.saturating_add(made(user.sub(rt, tick, 1)?));
        }
    }
    Ok((armed, cancelled))
}

// Fires all timers of the first tick, again and again: how many. Whoever fires beside gets others.
fn fire<R: Wait + Clock>(rt: &R, mut user: User, end: Instant) -> Result<u64, LiveError> {
    let mut fired = 0u64;
    for _ in 0..u64::MAX {
        if is_over(rt, end) {
            break;
        }
        if let Some((_, timers)) = user.pop_first(rt)? {
            fired = fired.saturating_add(u64::from(timers));
        }
    }
    Ok(fired)
}

// An empty wheel, and its users.
fn opened(alloc: Global) -> anyhow::Result<(Live<Nothing, Extent>, Vec<User>)>
    ensures { IfOk result (λ t. vec_len t.1 ≡ 4) }
{
    let set = Members::empty(alloc, 10)?;
    Ok(Live::open(alloc, set, 4, 1 << 20).map_err(|(_, cause)| cause)?)
}

// Three users arm timers, and a fourth one fires them: how many were armed, and how many were fired or cancelled.
fn at_work<R: Threads + Wait + Clock + Sync>(
    rt: &R,
    users: Vec<User>,
    end: Instant,
) -> anyhow::Result<(u64, u64)>
    requires { vec_len users ≡ 4 }
{
    let mut users = users;
    let one = users.remove(0);
    let (counts, fired) = thread::join(
        rt,
        || thread::map_vec(rt, users, &|user| arm(rt, user, end)),
        || fire(rt, one, end),
    );
    let (mut armed, mut gone) = (0u64, fired?);
    for count in counts? {
        let (more, cancelled) = count?;
        armed = armed.saturating_add(more);
        gone = gone.saturating_add(cancelled);
    }
    Ok((armed, gone))
}

// How many timers there are.
fn timers(wheel: &Members) -> u64 {
    let mut all = 0u64;
    for &(_, timers) in wheel.as_slice() {
        all = all.saturating_add(u64::from(timers));
    }
    all
}

fn main(rt: HostRuntime) -> anyhow::Result<()> {
    let words: Vec<String> = env::args(&rt)?.skip(1).collect(rt.alloc())?;
    let seconds: u64 = words.first().map_or(1, |word| word.parse().unwrap_or(1));
    let Some(end) = Instant::now(&rt)?.checked_add(Duration::from_secs(seconds)) else {
        bail!("too many seconds");
    };
    let (live, users) = opened(rt.alloc())?;
    let (armed, gone) = at_work(&rt, users, end)?;
    let (wheel, counts) = live.close(&rt);
    let same = armed == gone.saturating_add(timers(&wheel));
    println!(rt; "as many were armed as were fired, cancelled or are left: {same}")?;
    println!(rt; "the trie rolled over: {}", counts.rounds > 1)?;
    Ok(())
}
