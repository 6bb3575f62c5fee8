//! Threads that change the same keys at once, each again and again.
ghost use Rattle.std.specs.Prelude.{◌≡◌, ◌^◌};
ghost use Rattle.aug_trie.specs.Round.{table_of};

use super::asking::seen_size;
use super::playing::changed;
use super::rounds::{
    CrewOf, Half, OfRound, RoundOf, Stage, Trie, Walker, begun, next_pass, or_empty,
};
use super::rows::rows_over;
use crate::assertions::{equal, holds};
use aug_testing::Host;
use aug_trie::BeginError;
use aug_trie::Outcome::{Accepted, Refused};
use aug_trie_testing::rows::Act::Now;
use aug_trie_testing::rows::Change::{Insert, Remove};
use aug_trie_testing::rows::Line;
use aug_trie_testing::rows::Line::{A, B, End, Round};
use aug_trie_testing::rows::Reply::Came;
use aug_trie_testing::rows::Way::Begin;
use std::marker::{Brand, PhantomData};
use std::sync::Wait;
use std::thread::{Threads, map_vec};

// What a lane does: so often it puts the keys below a number in, and, if it says so, takes each out again at once.
type Task = (u32, u32, bool);

fn turn(pass: &mut Walker<'_>, universe: u32, keys: u32, removes: bool)
    requires { universe ≡ 2 ^ pass.old.round.bits }
    ensures { pass.new.round ≡ pass.old.round }
{
    for key in 0..keys {
        changed(pass, universe, Insert(key));
        if removes {
            changed(pass, universe, Remove(key));
        }
    }
}

// A lane at work in a thread of its own, and how many members it saw right behind that.
#[derive(Drop)]
struct Hand<'r, K: OfRound> {
    round: &'r RoundOf,
    half: Half,
    task: Task,
    saw: u32,
    of: PhantomData<K>,
    ghost together: { table_of K.round ≡ round.now },
    ghost of_round: { half.round ≡ K.round },
}

// Does its task.
fn work<'r, K: OfRound>(hand: Hand<'r, K>) -> Hand<'r, K> {
    let Hand {
        round,
        half,
        task,
        ..
    } = hand;
    let universe = half.universe();
    let mut pass = round.pass(half);
    for _ in 0..task.1 {
        turn(&mut pass, universe, task.0, task.2);
    }
    let saw = seen_size(&mut pass);
    Hand {
        round,
        half: pass.into_half(),
        task,
        saw,
        of: PhantomData,
    }
}

// Four lanes of a round at work on one task: the fewest and the most members that any of them saw.
fn crowded<K: OfRound + Send, R: Host + Threads + Wait + Sync>(
    rt: &R,
    round: &RoundOf,
    crew: CrewOf,
    task: Task,
) -> (CrewOf, (u32, u32))
    requires together { table_of K.round ≡ round.now }
    requires of_round { crew.round ≡ K.round }
    ensures { result.0.round ≡ K.round }
{
    let mut crew = crew;
    let mut hands: Vec<Hand<'_, K>> = Vec::new(rt.alloc());
    for _ in 0..4 {
        let half = next_pass(&mut crew, round).expect(rt, "a lane").into_half();
        let hand = Hand {
            round,
            half,
            task,
            saw: 0,
            of: PhantomData,
        };
        hands.push(hand).expect(rt, "memory");
    }
    let hands = map_vec(rt, hands, &|hand| work(hand)).expect(rt, "memory");
    let mut saw = (u32::MAX, 0);
    for hand in hands {
        saw = (saw.0.min(hand.saw), saw.1.max(hand.saw));
        crew.back(round.pass(hand.half));
    }
    (crew, saw)
}

// Rounds over the empty set: what they show, how many, their bits and the updates of a lane; what each lane does; the fewest and the most members that it
// sees as soon as its own updates have returned; the least and the most insertions, and members at the end; and the rounds after that.
struct Crowd {
    shows: &'static str,
    rounds: (u32, u32, u32),
    task: Task,
    sees: (u32, u32),
    inserts: (u32, u32),
    members: (u32, u32),
    then: &'static [Line],
}

// A round of such a crowd: the trie after it. Each key that went in and did not go out is a member.
fn assert_accounts<R: Host + Threads + Wait + Sync>(
    rt: &R,
    crowd: &Crowd,
) -> Result<Trie, BeginError> {
    let (_, bits, updates) = crowd.rounds;
    let ended = or_empty(rt, None, bits)?;
    let Stage { round, crew, .. } = begun(rt, ended, Begin, (bits, 4, updates))?;
    let (crew, saw) = crowded::<Brand, R>(rt, &round, crew, crowd.task);
    let ended = round.end(crew);
    let (inserts, members) = (ended.inserts(), ended.size());
    let out = u64::from(ended.removals()) + u64::from(members);
    let found = (crowd.shows, ended.missing(), out);
    equal(rt, found, (crowd.shows, 0, u64::from(inserts)));
    holds(rt, saw.0 >= crowd.sees.0 && saw.1 <= crowd.sees.1);
    holds(rt, inserts >= crowd.inserts.0 && inserts <= crowd.inserts.1);
    holds(rt, members >= crowd.members.0 && members <= crowd.members.1);
    Ok(ended)
}

const CROWDS: &[Crowd] = &[
    Crowd {
        shows: "one key that four threads put in and take out is accounted for",
        rounds: (1, 1, 1_000),
        task: (1, 500, true),
        sees: (0, 1),
        inserts: (500, 2_000),
        members: (0, 1),
        then: &[],
    },
    // The threads meet otherwise in each round.
    Crowd {
        shows: "each of four threads holds all keys once its own insertions returned, and the next round goes on",
        rounds: (500, 4, 16),
        task: (16, 1, false),
        sees: (16, 16),
        inserts: (16, 16),
        members: (16, 16),
        then: &[
            Round(Begin, (4, 2, 1), 2),
            A(Now(Remove(0)), Came(Accepted)),
            B(Now(Insert(1)), Came(Refused)),
            End(15, (0, 1, 0)),
        ],
    },
];

#[test]
fn what_threads_do_at_once_is_accounted_for(rt: HostRuntime) -> Result<(), BeginError> {
    for crowd in CROWDS {
        for _ in 0..crowd.rounds.0 {
            let ended = assert_accounts(&rt, crowd)?;
            rows_over(&rt, Some(ended), crowd.then)?;
        }
    }
    Ok(())
}
