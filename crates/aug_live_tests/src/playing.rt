//! The player of tables: a trie and two of its users.

use crate::acting::{
    Act, HandleOf, LiveOf, LookOf, Reply, Waits, does, looked, opened, renewed, rolled, shown,
};
use crate::assertions::equal;
use aug_live::OpenError;

/// A line of a table: a row begins, which shows this; a trie with two tables opens, with the bits of its keys, its handles, its spare lanes, and the updates of
/// a lane; what the user of the last lane does, or that of the one before it; and the same by calls that wait for nobody.
#[derive(Clone, Copy)]
pub(crate) enum Line {
    Row(&'static str),
    Live(u32, u32, u32, u32),
    A(Act, Reply),
    B(Act, Reply),
    TryA(Act, Reply),
    TryB(Act, Reply),
}

/// A handle, unless there is none, and a look of its lane, if one is open.
#[derive(Drop)]
pub(crate) struct User {
    pub(crate) hand: Option<HandleOf>,
    pub(crate) look: Option<LookOf>,
}

/// A user of a handle, or nobody.
pub(crate) fn user_of(hand: Option<HandleOf>) -> User {
    User { hand, look: None }
}

// Takes a look, which stays open, or asks the open one, or else one that is taken for that.
fn looks<R: Waits>(rt: &R, user: &mut User, waits: bool, act: Act) -> Reply {
    let stays = matches!(act, Act::Look);
    match (&mut user.look, &mut user.hand) {
        (Some(look), _) if !stays => shown(rt.alloc(), look, act),
        (_, Some(hand)) => match looked(rt, hand, waits) {
            Ok(look) if stays => {
                user.look = Some(look);
                Reply::Done
            }
            Ok(mut look) => shown(rt.alloc(), &mut look, act),
            Err(reply) => reply,
        },
        _ => Reply::Not,
    }
}

// Closes a trie, unless that has to wait.
fn ends<R: Waits>(rt: &R, live: LiveOf, waits: bool) -> Result<Reply, LiveOf> {
    let (set, it) = if waits {
        live.close(rt)
    } else {
        live.try_close().map_err(|held| held.0)?
    };
    Ok(Reply::Closed(set.size(), it.rounds, it.inserts, it.removals))
}

// What is done with a trie. That it has to be closed later leaves it there.
fn with_trie<R: Waits>(
    rt: &R,
    live: LiveOf,
    user: &mut User,
    waits: bool,
    act: Act,
) -> (Option<LiveOf>, Reply) {
    let mut live = live;
    let reply = match act {
        Act::DropTrie => return (None, Reply::Done),
        Act::Close => match ends(rt, live, waits) {
            Ok(end) => return (None, end),
            Err(same) => return (Some(same), Reply::Later),
        },
        Act::Renew(lane) => match renewed(rt, &mut live, waits, lane) {
            Ok(hand) => {
                user.hand = Some(hand);
                Reply::Done
            }
            Err(reply) => reply,
        },
        Act::Roll => rolled(rt, &mut live, waits),
        _ => {
            live.tend();
            Reply::Done
        }
    };
    (Some(live), reply)
}

/// What is done with a trie, or by a user of it.
pub(crate) fn done<R: Waits>(
    rt: &R,
    live: &mut Option<LiveOf>,
    user: &mut User,
    waits: bool,
    act: Act,
) -> Reply {
    match act {
        Act::Close | Act::DropTrie | Act::Renew(_) | Act::Roll | Act::Tend => {
            let Some(it) = live.take() else {
                return Reply::Not;
            };
            let (it, reply) = with_trie(rt, it, user, waits, act);
            *live = it;
            reply
        }
        Act::Over => user.look.take().map_or(Reply::Not, |_| Reply::Done),
        Act::GiveUp => user.hand.take().map_or(Reply::Not, |_| Reply::Done),
        Act::Look | Act::Size | Act::Has(_) | Act::Shows(_) | Act::Band(..) | Act::LastOf(..) => {
            looks(rt, user, waits, act)
        }
        _ => match &mut user.hand {
            Some(hand) => does(rt, hand, waits, act),
            None => Reply::Not,
        },
    }
}

// What a user does comes to this, in a line of this number behind this name; and so does each of several acts.
fn assert_done<R: Waits>(
    rt: &R,
    live: &mut Option<LiveOf>,
    user: &mut User,
    waits: bool,
    (shows, number): (&str, usize),
    (act, expected): (Act, Reply),
) {
    let Act::Each(acts) = act else {
        let reply = done(rt, live, user, waits, act);
        return equal(rt, (shows, number, reply), (shows, number, expected));
    };
    for act in acts {
        let reply = done(rt, live, user, waits, *act);
        equal(rt, (shows, number, reply), (shows, number, expected));
    }
}

// What a line comes to, over a trie and its two users.
fn played<R: Waits>(
    rt: &R,
    live: &mut Option<LiveOf>,
    users: &mut (User, User),
    waits: bool,
    at: (&str, usize),
    line: &Line,
) -> Result<(), OpenError> {
    match *line {
        Line::A(act, is) => assert_done(rt, live, &mut users.0, waits, at, (act, is)),
        Line::B(act, is) => assert_done(rt, live, &mut users.1, waits, at, (act, is)),
        Line::TryA(act, is) => assert_done(rt, live, &mut users.0, false, at, (act, is)),
        Line::TryB(act, is) => assert_done(rt, live, &mut users.1, false, at, (act, is)),
        Line::Row(_) => {}
        Line::Live(bits, handles, spare, updates) => {
            let lanes = (handles, handles.saturating_add(spare));
            let (next, mut hands) = opened(rt.alloc(), bits, lanes, (updates, 2))?;
            *live = Some(next);
            *users = (user_of(hands.pop()), user_of(hands.pop()));
        }
    }
    Ok(())
}

// The name of the row that a line begins, or the one before.
fn name_of(line: &Line, before: &'static str) -> &'static str {
    match *line {
        Line::Row(name) => name,
        _ => before,
    }
}

/// Plays a table, over a trie that was opened or none, by calls that wait or by those that wait for nobody, but for lines that say how. Of the handles the last two
/// have users.
pub(crate) fn plays<R: Waits>(
    rt: &R,
    live: Option<LiveOf>,
    hands: Vec<HandleOf>,
    waits: bool,
    table: &[Line],
) -> Result<(), OpenError> {
    let (mut shows, mut live, mut hands) = ("", live, hands);
    let mut users = (user_of(hands.pop()), user_of(hands.pop()));
    for number in 0..table.len() {
        let line = &table[number];
        shows = name_of(line, shows);
        played(rt, &mut live, &mut users, waits, (shows, number), line)?;
    }
    Ok(())
}
