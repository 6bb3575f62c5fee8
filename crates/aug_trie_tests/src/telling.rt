//! Notes that go across a channel.
ghost use Rattle.std.specs.Prelude.{◌≡◌, ◌^◌};
ghost use Rattle.aug_trie.specs.Round.{table_of};

use super::playing::changed;
use super::rounds::{CrewOf, Half, OfRound, RoundOf, Stage, begun, next_pass, or_empty};
use crate::assertions::{equal, holds};
use aug_monoid::{Extent, Sum};
use aug_query::descent::Has;
use aug_testing::Host;
use aug_trie::{BeginError, Note};
use aug_trie_testing::rows::Change::Insert;
use aug_trie_testing::rows::Way::Begin;
use crossbeam_channel::{Receiver, Sender, unbounded};
use std::alloc::Global;
use std::marker::{Brand, PhantomData, Send};
use std::sync::Wait;
use std::thread;
use std::thread::Threads;

// A note of this round.
#[derive(Drop)]
struct News<K: OfRound> {
    note: Note<Sum, Extent>,
    of: PhantomData<K>,
    ghost of_round: { note.round ≡ K.round },
}

impl<K: OfRound> News<K> {
    fn new(note: Note<Sum, Extent>) -> News<K>
        requires { note.round ≡ K.round }
    {
        News {
            note,
            of: PhantomData,
        }
    }
}

// Puts the keys of 4 bits in, and tells of each.
fn tells<K: OfRound, R: Wait>(
    rt: &R,
    round: &RoundOf,
    half: Half,
    to: Sender<(u32, News<K>)>,
) -> Half
    requires table { table_of K.round ≡ round.now }
    requires half { half.round ≡ K.round }
    requires keys { 16 ≡ 2 ^ K.round.bits }
    ensures { result.round ≡ half.round }
{
    let mut pass = round.pass(half);
    for key in 0..16 {
        changed(&mut pass, 16, Insert(key));
        let _ = to.send(rt, (key, News::new(pass.note())));
    }
    pass.into_half()
}

// Learns all of the news, and whether the snapshot then showed each of their keys.
fn hears<K: OfRound, R: Wait>(
    rt: &R,
    round: &RoundOf,
    half: Half,
    from: Receiver<(u32, News<K>)>,
) -> (Half, bool)
    requires table { table_of K.round ≡ round.now }
    requires half { half.round ≡ K.round }
    ensures { result.0.round ≡ half.round }
{
    let mut pass = round.pass(half);
    let mut shown = 0u32;
    for _ in 0..16 {
        if let Ok((key, News { note, of: _ })) = from.recv(rt) {
            let seen = pass.learn(note);
            shown = shown.saturating_add(u32::from(pass.ask(seen, Has(key))));
        }
    }
    (pass.into_half(), shown == 16)
}

// The news of one lane, which the other hears, each in a thread of its own: whether that saw each key when it heard of it.
fn spoken<K: OfRound + Send, R: Host + Threads + Wait + Sync>(
    rt: &R,
    round: &RoundOf,
    crew: CrewOf,
) -> (CrewOf, bool)
    requires table { table_of K.round ≡ round.now }
    requires crew { crew.round ≡ K.round }
    requires keys { 16 ≡ 2 ^ K.round.bits }
    ensures { result.0.round ≡ K.round }
{
    let mut crew = crew;
    let one = next_pass(&mut crew, round).expect(rt, "lane 0").into_half();
    let two = next_pass(&mut crew, round).expect(rt, "lane 1").into_half();
    let (to, from) = unbounded::<(u32, News<K>), Global>(rt.alloc()).expect(rt, "memory");
    let (one, (two, shown)) = thread::join(
        rt,
        move ||
            requires { (one.round ≡ K.round) × (table_of K.round ≡ round.now) × (16 ≡ 2 ^ K.round.bits) }
            ensures { result.round ≡ one.round }
        { tells::<K, R>(rt, round, one, to) },
        move ||
            requires { (two.round ≡ K.round) × (table_of K.round ≡ round.now) }
            ensures { result.0.round ≡ two.round }
        { hears::<K, R>(rt, round, two, from) },
    );
    crew.back(round.pass(one));
    crew.back(round.pass(two));
    (crew, shown)
}

#[test]
fn a_thread_that_heard_of_a_key_sees_it(rt: HostRuntime) -> Result<(), BeginError> {
    let Stage {
        round,
        crew,
        universe,
    } = begun(&rt, or_empty(&rt, None, 4)?, Begin, (4, 2, 16))?;
    holds(&rt, universe == 16);
    let (crew, shown) = spoken::<Brand, HostRuntime>(&rt, &round, crew);
    holds(&rt, shown);
    let ended = round.end(crew);
    equal(&rt, (ended.size(), ended.missing()), (16, 0));
    Ok(())
}
