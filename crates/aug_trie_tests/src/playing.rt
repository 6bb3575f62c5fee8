//! Rounds as scripts: what the lanes of a round do, one step after the other, and what each step comes to. The heavy contracts of passes are
//! met here once, so that the proof of a test is that of its data.
ghost use Rattle.std.specs.Prelude.{◌≡◌, ◌^◌, ◌<◌, IfOk, IfErr, IfSome};
ghost use Rattle.aug_trie.specs.Round.{table_of};

use super::asking::look_closer;
use super::rounds::{Climber, CrewOf, OfRound, RoundOf, Stage, Trie, Walker, next_pass};
use super::turning::{to_the_end, turns};
use crate::assertions::equal;
use aug_monoid::{Extent, Sum};
use aug_query::rank;
use aug_testing::Host;
use aug_trie::{BeginError, Pass};
use aug_trie_testing::rows::{Act, Change, Line, Reply, made};
use std::alloc::Global;
use std::marker::{Brand, PhantomData};
use std::mem::replace;

// Makes an update, if one is left.
pub(super) fn changed(pass: &mut Pass<Sum, Extent>, universe: u32, change: Change) -> Reply
    requires { universe ≡ 2 ^ pass.old.round.bits }
    ensures { pass.new.round ≡ pass.old.round }
{
    if pass.budget() == 0 {
        return Reply::Not;
    }
    match change {
        Change::Insert(k) if k < universe => Reply::Came(made(pass.insert(k))),
        Change::Remove(k) if k < universe => Reply::Came(made(pass.remove(k))),
        Change::Put(k, weight) if k < universe => Reply::Came(pass.put(k, weight)),
        Change::Add(k, amount) if k < universe => Reply::Came(pass.add(k, amount)),
        Change::Sub(k, amount) if k < universe => Reply::Came(pass.sub(k, amount)),
        Change::Take(k, weight) if k < universe => Reply::Came(made(pass.take(k, weight))),
        Change::PopFirst => Reply::Popped(pass.pop_first()),
        Change::PopLast => Reply::Popped(pass.pop_last()),
        _ => Reply::Not,
    }
}

// Puts keys in with great weights, as long as updates are left: how many.
fn filled(pass: &mut Pass<Sum, Extent>, universe: u32, from: u32, count: u32) -> Reply
    requires { universe ≡ 2 ^ pass.old.round.bits }
    ensures { pass.new.round ≡ pass.old.round }
{
    let mut made = 0u32;
    for k in from..from.saturating_add(count) {
        let reply = changed(pass, universe, Change::Put(k, u32::MAX - k));
        made = made.saturating_add(u32::from(matches!(reply, Reply::Came(_))));
    }
    Reply::Number(made)
}

// What a pass does that stays with its lane.
fn walk(pass: &mut Pass<Sum, Extent>, alloc: Global, universe: u32, act: Act) -> Reply
    requires { universe ≡ 2 ^ pass.old.round.bits }
    ensures { pass.new.round ≡ pass.old.round }
{
    match act {
        Act::Now(change) => changed(pass, universe, change),
        Act::Fill(from, count) => filled(pass, universe, from, count),
        Act::Lane => Reply::Number(pass.lane()),
        Act::Counts => Reply::Counted(pass.inserts(), pass.removals(), pass.budget()),
        _ => look_closer(pass, alloc, universe, act),
    }
}

// Begins an update by turns, if one is left.
fn start<'r>(pass: Walker<'r>, universe: u32, change: Change) -> Result<Climber<'r>, Walker<'r>>
    requires universe { universe ≡ 2 ^ pass.round.bits }
    ensures climb { IfOk result (λ c. c.start.round ≡ pass.entry.round) }
    ensures pass { IfErr result (λ p. p.round ≡ pass.entry.round) }
{
    if pass.budget() == 0 {
        return Err(pass);
    }
    match change {
        Change::Insert(k) if k < universe => Ok(pass.start_insert(k)),
        Change::Remove(k) if k < universe => Ok(pass.start_remove(k)),
        Change::Put(k, weight) if k < universe => Ok(pass.start_put(k, weight)),
        Change::Add(k, amount) if k < universe => Ok(pass.start_add(k, amount)),
        Change::Sub(k, amount) if k < universe => Ok(pass.start_sub(k, amount)),
        Change::Take(k, weight) if k < universe => Ok(pass.start_take(k, weight)),
        _ => Err(pass),
    }
}

// A pass of the round, and an update that such a pass makes by turns.
#[derive(Drop)]
struct PassOf<'r, K: OfRound> {
    pass: Walker<'r>,
    of: PhantomData<K>,
    ghost of_round: { pass.round ≡ K.round },
}

#[derive(Drop)]
struct ClimbOf<'r, K: OfRound> {
    climb: Climber<'r>,
    of: PhantomData<K>,
    ghost of_round: { climb.start.round ≡ K.round },
}

// What a lane of the round has out.
#[derive(Drop)]
enum Lane<'r, K: OfRound> {
    Out,
    Walks(PassOf<'r, K>),
    Climbs(ClimbOf<'r, K>),
}

// The lane of a pass.
fn walks<'r, K: OfRound>(pass: Walker<'r>) -> Lane<'r, K>
    requires { pass.round ≡ K.round }
{
    Lane::Walks(PassOf {
        pass,
        of: PhantomData,
    })
}

// The lane of an update by turns once so many of these are made, and what they come to.
fn goes_on<'r, K: OfRound>(climb: Climber<'r>, count: u32) -> (Lane<'r, K>, Reply)
    requires { climb.start.round ≡ K.round }
{
    match turns(climb, count) {
        Some(climb) => (
            Lane::Climbs(ClimbOf {
                climb,
                of: PhantomData,
            }),
            Reply::Done,
        ),
        None => (Lane::Out, Reply::Not),
    }
}

// What a lane does whose pass makes an update by turns.
fn climbed<'r, K: OfRound>(climb: Climber<'r>, act: Act) -> (Lane<'r, K>, Reply)
    requires { climb.start.round ≡ K.round }
{
    match act {
        Act::TurnsLeft => {
            let left = climb.turns_left();
            (goes_on(climb, 0).0, Reply::Number(left))
        }
        Act::Turns(count) => goes_on(climb, count),
        Act::Finish => match to_the_end(climb) {
            Some((pass, outcome, made)) => (walks(pass), Reply::Ended(outcome, made)),
            None => (Lane::Out, Reply::Not),
        },
        Act::GiveUp => (Lane::Out, Reply::Done),
        _ => (goes_on(climb, 0).0, Reply::Not),
    }
}

// What the lanes of a round share: the round, its crew, and how many keys there are.
#[derive(Drop)]
struct Scene<'r, K: OfRound> {
    round: &'r RoundOf,
    crew: CrewOf,
    universe: u32,
    of: PhantomData<K>,
    ghost together: { table_of K.round ≡ round.now },
    ghost of_round: { crew.round ≡ K.round },
    ghost keys: { universe ≡ 2 ^ K.round.bits },
}

impl<'r, K: OfRound> Scene<'r, K> {
    // What a lane does whose pass makes whole updates.
    fn walked(&mut self, pass: Walker<'r>, alloc: Global, act: Act) -> (Lane<'r, K>, Reply)
        requires { pass.round ≡ K.round }
    {
        let mut pass = pass;
        let reply = match act {
            Act::Back => {
                self.crew.back(pass);
                return (Lane::Out, Reply::Done);
            }
            Act::GiveUp => return (Lane::Out, Reply::Done),
            Act::RankByView(key) => {
                let snapshot = pass.snapshot();
                let found = rank(&mut pass.view(snapshot), key);
                return (Lane::Out, Reply::Number(found));
            }
            Act::Halve => {
                let half = pass.into_half();
                return (walks(self.round.pass(half)), Reply::Done);
            }
            Act::Start(change, count) => match start(pass, self.universe, change) {
                Ok(climb) => return goes_on(climb, count),
                Err(pass) => return (walks(pass), Reply::Not),
            },
            _ => walk(&mut pass, alloc, self.universe, act),
        };
        (walks(pass), reply)
    }

    // A lane that is opened, or that there is none.
    fn opened(&mut self) -> (Lane<'r, K>, Reply) {
        match next_pass(&mut self.crew, self.round) {
            Ok(pass) => (walks(pass), Reply::Done),
            Err(_) => (Lane::Out, Reply::Not),
        }
    }

    fn opened_if(&mut self, opens: bool) -> Lane<'r, K> {
        if opens { self.opened().0 } else { Lane::Out }
    }

    // What is done in the place of a pass that is not out.
    fn led(&mut self, act: Act) -> (Lane<'r, K>, Reply) {
        match act {
            Act::Open => self.opened(),
            Act::Handed => (Lane::Out, Reply::Number(self.crew.handed())),
            _ => (Lane::Out, Reply::Not),
        }
    }

    // What a lane does.
    fn done(&mut self, lane: Lane<'r, K>, alloc: Global, act: Act) -> (Lane<'r, K>, Reply) {
        match lane {
            Lane::Walks(PassOf { pass, of: _ }) => self.walked(pass, alloc, act),
            Lane::Climbs(ClimbOf { climb, of: _ }) => climbed(climb, act),
            Lane::Out => self.led(act),
        }
    }

    // The pass of a lane comes back, if it makes no update by turns.
    fn back(&mut self, lane: Lane<'r, K>) {
        if let Lane::Walks(PassOf { pass, of: _ }) = lane {
            self.crew.back(pass);
        }
    }
}

// Which of three lanes acts, what it does, and what that should come to, if the line is a step.
fn step_of(line: Line) -> Option<(usize, Act, Reply)>
    ensures { IfSome result (λ step. step.0 < 3) }
{
    match line {
        Line::A(act, expected) => Some((0, act, expected)),
        Line::B(act, expected) => Some((1, act, expected)),
        Line::C(act, expected) => Some((2, act, expected)),
        _ => None,
    }
}

// The first lines of a script, up to one that is no step, over so many lanes that are open: how many came to what they should, and what the next one
// came to and should have come to. At their end all passes come back.
fn played<K: OfRound>(
    alloc: Global,
    round: &RoundOf,
    crew: CrewOf,
    universe: u32,
    open: u32,
    lines: &[Line],
) -> (CrewOf, usize, Option<(Reply, Reply)>)
    requires together { table_of K.round ≡ round.now }
    requires of_round { crew.round ≡ K.round }
    requires keys { universe ≡ 2 ^ K.round.bits }
    ensures { result.0.round ≡ K.round }
{
    let mut scene: Scene<'_, K> = Scene {
        round,
        crew,
        universe,
        of: PhantomData,
    };
    let mut lanes = [
        scene.opened_if(open > 0),
        scene.opened_if(open > 1),
        scene.opened_if(open > 2),
    ];
    let (mut count, mut missed) = (0usize, None);
    for line in lines {
        let Some((lane, act, expected)) = step_of(*line) else {
            break;
        };
        let now = replace(&mut lanes[lane], Lane::Out);
        let (next, found) = scene.done(now, alloc, act);
        lanes[lane] = next;
        if found != expected {
            missed = Some((found, expected));
            break;
        }
        count = count.saturating_add(1);
    }
    for lane in lanes {
        scene.back(lane);
    }
    (scene.crew, count, missed)
}

// The same of a round: the trie after it, if each step came to what it should.
pub(super) fn steps(
    rt: &impl Host,
    stage: Stage,
    open: u32,
    shows: &str,
    lines: &[Line],
) -> Result<Trie, BeginError> {
    let Stage {
        round,
        crew,
        universe,
    } = stage;
    let (crew, count, missed) = played::<Brand>(rt.alloc(), &round, crew, universe, open, lines);
    if let Some((found, expected)) = missed {
        if found == Reply::NoMemory {
            return Err(BeginError::OutOfMemory);
        }
        equal(rt, (shows, count, found), (shows, count, expected));
    }
    Ok(round.end(crew))
}
