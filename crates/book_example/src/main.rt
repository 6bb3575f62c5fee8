//! An order book: a price is a key, and the volume of its orders its weight. Bids lie below the middle, and offers from it on. Four threads add volume
//! and take it away, all at the same prices, and a fifth one looks meanwhile.
#![tactic(auto)]

ghost use Rattle.std.specs.Prelude.{◌≡◌, IfOk, vec_len};
ghost use Rattle.aug_model.specs.Keys.{list_of};
ghost use Rattle.aug_model.specs.Queries.{first_of, last_of, range_of};
ghost use Rattle.aug_live.specs.LiveHandles.{set_of_look};

use aug_live::{Handle, Live, LiveError, Look};
use aug_monoid::{Extent, Sum};
use aug_query::descent::{Greatest, Least, Range, SelectByWeight};
use aug_trie::Members;
use std::alloc::Global;
use std::sync::Wait;
use std::thread;
use std::thread::Threads;

type User = Handle<Sum, Extent>;

type Book = Look<Sum, Extent>;

const MIDDLE: u32 = 2_000;

// Adds 30 at each of 200 prices, and takes 10 of it away, or all of it at each fifth price. An update requires that its key is below the universe.
fn trade<R: Wait>(rt: &R, mut user: User) -> Result<(), LiveError> {
    for price in MIDDLE - 100..MIDDLE + 100 {
        if price < user.universe() {
            user.add(rt, price, 30)?;
            user.sub(rt, price, if price % 5 == 0 { 30 } else { 10 })?;
        }
    }
    Ok(())
}

// The greatest price of the bids.
fn best_bid(book: &mut Book) -> Option<u32>
    ensures { result ≡ last_of (range_of (list_of (set_of_look book.old)) 0 2000) }
{
    book.ask(Greatest(0, MIDDLE))
}

// The least price of the offers.
fn best_offer(book: &mut Book) -> Option<u32>
    ensures { result ≡ first_of (range_of (list_of (set_of_look book.old)) 2000 4096) }
{
    book.ask(Least(MIDDLE, 4_096))
}

// All volume at the prices of an interval.
fn depth(book: &mut Book, from: u32, to: u32) -> u64 {
    book.ask(Range(from, to)).a.value()
}

// Whether each of 500 looks agrees with itself. Units of volume are numbered from the lowest price on: the last one of the bids is at the best
// bid, and the one after it at the best offer.
fn watch<R: Wait>(rt: &R, mut user: User) -> Result<bool, LiveError> {
    let mut agree = true;
    for _ in 0..500 {
        let mut book = user.look(rt)?;
        let bids = depth(&mut book, 0, MIDDLE);
        if bids > 0 {
            agree &= book.ask(SelectByWeight(bids - 1)) == best_bid(&mut book);
        }
        agree &= book.ask(SelectByWeight(bids)) == best_offer(&mut book);
    }
    Ok(agree)
}

// An empty book, and its users.
fn opened(alloc: Global) -> anyhow::Result<(Live<Sum, Extent>, Vec<User>)>
    ensures { IfOk result (λ t. vec_len t.1 ≡ 5) }
{
    let set = Members::empty(alloc, 12)?;
    Ok(Live::open(alloc, set, 5, 1 << 21).map_err(|(_, cause)| cause)?)
}

// Four users trade, and a fifth one watches: whether each of its looks agreed with itself.
fn at_work<R: Threads + Wait + Sync>(rt: &R, users: Vec<User>) -> anyhow::Result<bool>
    requires { vec_len users ≡ 5 }
{
    let mut users = users;
    let one = users.remove(0);
    let (traded, agree) = thread::join(
        rt,
        || thread::map_vec(rt, users, &|user| trade(rt, user)),
        || watch(rt, one),
    );
    for result in traded? {
        result?;
    }
    Ok(agree?)
}

// What a book shows: the best prices, all volume, that of the bids from 1950 on, and the highest price that whoever buys 1,000 at once has to pay.
#[derive(Clone, Copy)]
struct Figures {
    bid: Option<u32>,
    offer: Option<u32>,
    all: u64,
    near: u64,
    filled: Option<u32>,
}

fn figures_of(book: &mut Book) -> Figures {
    let bids = depth(book, 0, MIDDLE);
    Figures {
        bid: best_bid(book),
        offer: best_offer(book),
        all: depth(book, 0, 4_096),
        near: depth(book, 1_950, MIDDLE),
        filled: book.ask(SelectByWeight(bids.saturating_add(999))),
    }
}

// What the book shows to a new handle, in the lane of a thread that has ended, and the number of its prices.
fn closed<R: Wait>(rt: &R, live: Live<Sum, Extent>) -> Result<(Figures, u32), LiveError> {
    let mut live = live;
    let last = figures_of(&mut live.handle(rt, 0)?.look(rt)?);
    Ok((last, live.close(rt).0.size()))
}

fn main(rt: HostRuntime) -> anyhow::Result<()> {
    let (live, users) = opened(rt.alloc())?;
    let agree = at_work(&rt, users)?;
    let (last, prices) = closed(&rt, live)?;
    println!(rt; "each look agreed with itself: {agree}")?;
    println!(rt;
        "volume {} at {prices} prices, {} of it from 1950 to 1999",
        last.all, last.near
    )?;
    let (bid, offer, filled) = (
        last.bid.unwrap_or(0),
        last.offer.unwrap_or(0),
        last.filled.unwrap_or(0),
    );
    println!(rt; "best bid {bid}, best offer {offer}, 1000 are bought for {filled} at most")?;
    Ok(())
}
