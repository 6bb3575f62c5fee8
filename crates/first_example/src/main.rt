//! An order book: a price is a key, and what is offered at it its weight. One thread offers, and another asks meanwhile.
#![tactic(auto)]

use aug_live::{Handle, Live, LiveError};
use aug_monoid::{Nothing, Sum};
use aug_query::descent::{Range, Rank};
use aug_trie::Members;
use std::sync::Wait;
use std::thread;

// Offers 10 at each of 200 prices. An update requires that its key is below the universe.
fn offer<R: Wait>(rt: &R, mut user: Handle<Sum, Nothing>) -> Result<(), LiveError> {
    for price in 1_900..2_100 {
        if price < user.universe() {
            user.put(rt, price, 10)?;
        }
    }
    Ok(())
}

// Whether each of 500 snapshots agrees with itself, whatever the other thread does meanwhile.
fn watch<R: Wait>(rt: &R, mut user: Handle<Sum, Nothing>) -> Result<bool, LiveError> {
    let mut agree = true;
    for _ in 0..500 {
        let mut now = user.look(rt)?;
        let (count, low) = (now.ask(Rank(2_000)), now.ask(Range(0, 2_000)));
        agree &= low.count == count && low.a.value() == 10 * u64::from(count);
    }
    Ok(agree)
}

fn main(rt: HostRuntime) -> anyhow::Result<()> {
    let (r, alloc) = (&rt, rt.alloc());
    let set = Members::empty(alloc, 12)?;
    let (book, mut users) = Live::open(alloc, set, 2, 1 << 20).map_err(|(_, cause)| cause)?;
    let two = users.remove(1);
    let one = users.remove(0);
    let (offered, agree) = thread::join(r, || offer(r, one), || watch(r, two));
    let (size, agree) = (book.close(r).0.size(), offered.and(agree)?);
    println!(rt; "{size} offers; each snapshot agreed: {agree}")?;
    Ok(())
}
