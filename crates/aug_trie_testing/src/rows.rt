//! Rows as tables of lines: who does what, one step after the other, and what each step comes to. A table is data, so that the proof of a test that
//! plays it is short. `aug_trie_tests` plays them with passes, and `aug_live_tests` with handles.

use aug_model::{Difference, Summary};
use aug_monoid::{Extent, Sum};
use aug_trie::{BeginError, Outcome, Pop, Request, Told};

/// An update.
#[derive(Clone, Copy)]
pub enum Change {
    Insert(u32),
    Remove(u32),
    Put(u32, u32),
    Add(u32, u32),
    Sub(u32, u32),
    /// Takes a key out that has this weight.
    Take(u32, u32),
    /// Takes out the member at one end.
    PopFirst,
    PopLast,
}

/// What is done.
#[derive(Clone, Copy)]
pub enum Act {
    /// An update at once; the same, and what its key weighs in a new snapshot or look behind it.
    Now(Change),
    See(Change),
    /// An update of a key at once, and what that tells.
    Tell(Change),
    /// What is asked of a new snapshot, of the look that is held, or of a trie at rest.
    Size,
    Has(u32),
    Weight(u32),
    Rank(u32),
    Select(u32),
    Before(u32),
    After(u32),
    Range(u32, u32),
    Keys,
    Pairs,

    /// How many passes the crew handed out. It hands the pass of this lane out, and takes it back.
    Handed,
    Open,
    Back,
    /// The pass, also amid an update by turns, or the handle, is given up. A look that is open beside the handle stays.
    GiveUp,
    /// The number of the lane, and what its pass counts: insertions, removals, and updates that are left. Of a trie at rest, insertions, removals, and
    /// passes that did not come back.
    Lane,
    Counts,
    /// An update by turns: its beginning, and so many turns. How many may be left; so many; all that are left.
    Start(Change, u32),
    TurnsLeft,
    Turns(u32),
    Finish,
    /// Its pass goes by way of a half.
    Halve,
    /// The rank of a key by a view of the pass, which is given up then.
    RankByView(u32),
    /// The children of the top of a new snapshot's tree.
    Left,
    Right,
    /// What a snapshot shows before and after some updates.
    KeptOver(&'static [Change]),
    /// What a cursor passes over a new snapshot: on from the key, on once more behind a newer snapshot, and back.
    PassesOver(u32),
    /// What changed from a key on, as a look tells it that makes no updates, since the snapshot before.
    Since(&'static [Change], u32),
    /// The bits of a trie at rest, and how many keys these have.
    Bits,
    Universe,

    /// Puts keys in, from the first number on as many as the second. How many of them went in.
    Fill(u32, u32),
    /// The pass, the crew in the place of a pass that is not out, or the handle makes a note. That of a handle is dropped.
    Note,
    /// How many updates are left to the lane of the handle.
    Room,
    /// The handle takes a look, which stays open beside it, the look takes a newer snapshot, and it is over.
    Look,
    Again,
    Over,
    /// Queries of a caller's own.
    Band(u32, u32),
    SelectByWeight(u64),
    /// A handle of the lane with this number comes in the place of the handle.
    Renew(u32),
    /// The round rolls over, a piece of the next one is laid out, or the trie is closed, or dropped.
    Roll,
    Tend,
    Close,
    DropTrie,
}

/// What an act comes to.
#[derive(Clone, Copy, PartialEq, Eq, Debug)]
pub enum Reply {
    /// It was done, or could not be done.
    Done,
    Not,
    Is(bool),
    /// What an update comes to, and what its key weighs behind it.
    Came(Outcome),
    Seen(Outcome, Option<u32>),
    /// What an update comes to, and what its key weighed before and weighs by it, as it tells itself.
    Tells(Outcome, Option<u32>, Option<u32>),
    Popped(Pop),
    Number(u32),
    Finds(Option<u32>),
    /// How many members a range has, their weights together, and the least and the greatest.
    Folded(u32, u64, Option<(u32, u32)>),
    /// A list of at most two keys, and one of at most three pairs. Of more pairs, how many there are, the first and the last.
    Two(Option<u32>, Option<u32>),
    Listed(Option<(u32, u32)>, Option<(u32, u32)>, Option<(u32, u32)>),
    Many(usize, Option<(u32, u32)>, Option<(u32, u32)>),
    /// Of a page of changes how many there are, and the first, the second and the last: their keys, and what these weighed before and weigh behind them.
    Changed(usize, Option<Differs>, Option<Differs>, Option<Differs>),

    Counted(u32, u32, u32),
    /// What an update by turns came to, and how many turns that took.
    Ended(Outcome, u32),
    /// The level and the place of a node, and the same of what it covers.
    Stands(u32, u32, u32, u64, Option<(u32, u32)>),
    /// How many members a snapshot has, and whether it has 1, before some updates and after them.
    Kept((u32, bool), (u32, bool)),

    /// Memory was refused, twice if it was requested twice.
    NoMemory,
    /// It would have to wait for a lock, or for looks, or the round that the lane came into was spent at once.
    Later,
    Anew,
    /// The look took a newer snapshot, which is of another round.
    NewRound,
    /// It was refused: the trie was closed, the lane has a newer handle, or a look that is open, or there is no such lane.
    IsClosed,
    IsReplaced,
    IsLooking,
    NoLane,
    /// It was refused for another cause.
    Fails,
    /// The members of a trie at its end, its rounds, and how many keys were put in and taken out.
    Closed(u32, u64, u64, u64),
}

/// A key, and what it weighs before a change and behind it.
pub type Differs = (u32, Option<u32>, Option<u32>);

/// The call by which a round begins. That of the list begins over the set of a trie that is given back.
#[derive(Clone, Copy)]
pub enum Way {
    Begin,
    Wider,
    OverList,
}

/// The bits of a round's keys, and its numbers of workers and of updates.
pub type Numbers = (u32, u32, u32);

/// A line of a table.
#[derive(Clone, Copy)]
pub enum Line {
    /// A row begins, which shows this, over the empty set.
    Row(&'static str),
    /// A round begins, and so many lanes are opened. At its end all passes come back.
    Round(Way, Numbers, u32),
    /// A round that is refused, and why.
    Refuses(Way, Numbers, BeginError),
    /// A live trie opens: the bits of its keys, its handles, its spare lanes, and the updates of a lane.
    Live(u32, u32, u32, u32),
    /// What a lane does, or a handle, from the last one of a live trie on.
    A(Act, Reply),
    B(Act, Reply),
    C(Act, Reply),
    /// The same by calls that wait for nobody.
    TryA(Act, Reply),
    TryB(Act, Reply),
    /// What the trie at rest answers. How many members it has, and its counts.
    Rest(Act, Reply),
    End(u32, (u32, u32, u32)),
}

/// What an update comes to that was made or refused.
pub fn made(done: bool) -> Outcome {
    if done {
        Outcome::Accepted
    } else {
        Outcome::Refused
    }
}

/// The key of an update that names one, and what is done to it.
pub fn request_of(change: Change) -> Option<(u32, Request)> {
    match change {
        Change::Insert(k) => Some((k, Request::Insert)),
        Change::Remove(k) => Some((k, Request::Remove)),
        Change::Put(k, weight) => Some((k, Request::Put(weight))),
        Change::Add(k, amount) => Some((k, Request::Add(amount))),
        Change::Sub(k, amount) => Some((k, Request::Sub(amount))),
        Change::Take(k, weight) => Some((k, Request::Take(weight))),
        Change::PopFirst | Change::PopLast => None,
    }
}

/// The key of an update that names one.
pub fn key_of(change: Change) -> Option<u32> {
    request_of(change).map(|asked| asked.0)
}

/// What an update tells.
pub fn tells(told: Told) -> Reply {
    Reply::Tells(told.outcome, told.before, told.now)
}

/// What is told of members.
pub fn folded(summary: Summary<Sum, Extent>) -> Reply {
    Reply::Folded(summary.count, summary.a.value(), summary.b.bounds())
}

/// Where a node stands, and what is told of the members that it covers.
pub fn stands(level: u32, place: u32, summary: Summary<Sum, Extent>) -> Reply {
    let (sum, extent) = (summary.a.value(), summary.b.bounds());
    Reply::Stands(level, place, summary.count, sum, extent)
}

/// What is told of a list of keys.
pub fn told_keys(list: &[u32]) -> Reply {
    if list.len() > 2 {
        return Reply::Not;
    }
    Reply::Two(list.first().copied(), list.get(1).copied())
}

/// What is told of a list of pairs.
pub fn told_pairs(list: &[(u32, u32)]) -> Reply {
    let (count, first) = (list.len(), list.first().copied());
    if count > 3 {
        return Reply::Many(count, first, list.last().copied());
    }
    Reply::Listed(first, list.get(1).copied(), list.get(2).copied())
}

/// What is told of a change, and of a page of changes.
fn differs(change: &Difference) -> Differs {
    (change.key, change.before, change.after)
}

pub fn told_changes(page: &[Difference]) -> Reply {
    let (first, second) = (page.first().map(differs), page.get(1).map(differs));
    Reply::Changed(page.len(), first, second, page.last().map(differs))
}

/// What an act comes to that asks one query, by a call that takes the query behind what it takes else. A list is requested again if memory was refused.
#[macro_export]
macro_rules! asked {
    ($act:expr, $alloc:expr, $($ask:ident).+($($of:expr,)*)) => {
        match $act {
            Act::Size => Reply::Number($($ask).+($($of,)* Size)),
            Act::Has(k) => Reply::Is($($ask).+($($of,)* Has(k))),
            Act::Weight(k) => Reply::Finds($($ask).+($($of,)* Weight(k))),
            Act::Rank(k) => Reply::Number($($ask).+($($of,)* Rank(k))),
            Act::Select(i) => Reply::Finds($($ask).+($($of,)* Select(i))),
            Act::Before(k) => Reply::Finds($($ask).+($($of,)* Before(k))),
            Act::After(k) => Reply::Finds($($ask).+($($of,)* After(k))),
            Act::Range(from, to) => folded($($ask).+($($of,)* Range(from, to))),
            Act::Keys => {
                let mut listed = $($ask).+($($of,)* Keys($alloc));
                if listed.is_err() {
                    listed = $($ask).+($($of,)* Keys($alloc));
                }
                listed.map_or(Reply::NoMemory, |list| told_keys(&list))
            }
            Act::Pairs => {
                let mut listed = $($ask).+($($of,)* Pairs($alloc));
                if listed.is_err() {
                    listed = $($ask).+($($of,)* Pairs($alloc));
                }
                listed.map_or(Reply::NoMemory, |list| told_pairs(&list))
            }
            _ => Reply::Not,
        }
    };
}
