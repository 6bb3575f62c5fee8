//! The calls on a trie.
ghost use Rattle.std.specs.Prelude.{◌≡◌, ◌≢◌, IsNone, None, pos};
ghost use Rattle.aug_core.specs.Layout.{IsWithin};
ghost use Rattle.aug_live.specs.Plans.{Suits};
ghost use Rattle.aug_c.specs.Codes.{closed, is_open};
ghost use Rattle.aug_c.specs.Handles.{state_of};
ghost use Rattle.aug_c.specs.Marks.{trie_mark, user_mark};
ghost use Rattle.aug_c.specs.TrieCalls.{ClosesOpened, ClosesTrie, OnTrie, OpensTrie, OpensUser, TendsTrie, empty_of};

use crate::codes::{AGAIN, BAD_BITS, BAD_USERS, CLOSED, NO_MEMORY, NO_USER, OPEN, TOO_LARGE};
use crate::raw_handle::{HandleSlot, RawHandle, TRIE, USER};
use crate::state::{HandleState, Opened, SummedTrie, User};
use aug_live::Plan;
use aug_trie::Members;
use std::alloc::Global;

/// What the life of a trie came to. A weight that was replaced counts as an insertion and a removal.
#[repr(C)]
#[derive(Drop)]
pub struct ClosingReport {
    /// How many keys were put in.
    pub inserts: u64,
    /// How many keys were taken out.
    pub removals: u64,
    /// How many members there were at the end.
    pub size: u32,
}

/// Opens the empty trie for keys below `2^bits`, with so many users, whose table takes at most so many bytes. `TOO_LARGE` if 64 updates of each user take
/// more, or for more than 3 * 2^29 bytes.
#[unsafe(no_mangle)]
pub extern "C" fn aug_try_open(
    alloc: Global,
    trie: &mut RawHandle,
    bits: u32,
    users: u32,
    bytes: u64,
) -> i64
    ensures open { trie.old.tag ≡ trie_mark → (result ≡ is_open) × (trie.new ≡ trie.old) }
    ensures other_kind { trie.old.tag ≡ user_mark → (result ≡ closed) × (trie.new ≡ trie.old) }
    ensures opens { IsNone trie.old.held.value → OpensTrie bits users bytes trie.old trie.new result }
{
    if trie.tag == TRIE {
        return OPEN;
    }
    if trie.tag == USER {
        return CLOSED;
    }
    let Ok(set) = Members::empty(alloc, bits) else {
        return BAD_BITS;
    };
    if !(1..=64).contains(&users) {
        return BAD_USERS;
    }
    let Some(_plan) = Plan::new(bits, users, bytes) else {
        return TOO_LARGE;
    };
    open_set(alloc, trie, set, users, bytes)
}

// Opens a trie over an empty set in a handle, by numbers that suit it.
fn open_set(alloc: Global, trie: &mut RawHandle, set: Members, users: u32, bytes: u64) -> i64
    requires empty { set ≡ empty_of set.bits }
    requires bits { IsWithin 1 16 set.bits }
    requires users { IsWithin 1 64 users }
    requires suits { Suits set.bits users bytes }
    ensures { OpensTrie set.bits users bytes trie.old trie.new result }
{
    let Ok(slot) = Box::new(alloc, HandleSlot::closed()) else {
        return NO_MEMORY;
    };
    let Ok((live, spare)) = SummedTrie::open(alloc, set, users, bytes) else {
        return NO_MEMORY;
    };
    let slot = filled(slot, HandleState::Trie(Opened { live, spare }));
    trie.hold(TRIE, slot);
    0
}

// The slot, which stands for this from now on.
fn filled(mut slot: Box<HandleSlot, Global>, state: HandleState) -> Box<HandleSlot, Global>
    ensures { result.value.state ≡ state }
{
    slot.state = state;
    slot
}

// Gives the next access of a trie to a handle.
fn open_user(alloc: Global, trie: &mut Opened, user: &mut RawHandle) -> i64
    ensures { OpensUser user.old user.new trie.old trie.new result }
{
    if trie.spare.is_empty() {
        return NO_USER;
    }
    let Ok(slot) = Box::new(alloc, HandleSlot::closed()) else {
        return NO_MEMORY;
    };
    let Some(access) = trie.spare.pop() else {
        unreachable!()
    };
    let slot = filled(slot, HandleState::User(User::of(access)));
    user.hold(USER, slot);
    0
}

/// Opens a user of a trie.
#[unsafe(no_mangle)]
pub extern "C" fn aug_try_user_open(
    alloc: Global,
    trie: &mut RawHandle,
    user: &mut RawHandle,
) -> i64
    ensures open { user.old.tag ≡ user_mark → (result ≡ is_open) × (trie.new ≡ trie.old) × (user.new ≡ user.old) }
    ensures other_kind { user.old.tag ≡ trie_mark → (result ≡ closed) × (trie.new ≡ trie.old) × (user.new ≡ user.old) }
    ensures opens { IsNone user.old.held.value → OnTrie (OpensUser user.old user.new) (user.new ≡ user.old) (state_of trie.old) (state_of trie.new) result }
    ensures tag { trie.new.tag ≡ trie.old.tag }
    ensures foreign { IsNone trie.old.held.value → (trie.new ≡ trie.old) × (user.new ≡ user.old) }
{
    if user.tag == USER {
        return OPEN;
    }
    if user.tag == TRIE || !trie.is_open() {
        return CLOSED;
    }
    match &mut trie.held.as_slot().state {
        HandleState::Trie(opened) => open_user(alloc, opened, user),
        _ => CLOSED,
    }
}

// Lays a piece of the next round of a trie out.
fn tend(trie: &mut Opened) -> i64
    ensures { TendsTrie trie.old trie.new result }
{
    if trie.live.tend() { 1 } else { 0 }
}

/// Lays a piece of a trie's next round out: 1 if there is more to do now, or 0.
#[unsafe(no_mangle)]
pub extern "C" fn aug_try_tend(trie: &mut RawHandle) -> i64
    ensures tends { OnTrie TendsTrie (Unit {0}) (state_of trie.old) (state_of trie.new) result }
    ensures tag { trie.new.tag ≡ trie.old.tag }
    ensures foreign { IsNone trie.old.held.value → trie.new ≡ trie.old }
{
    if !trie.is_open() {
        return CLOSED;
    }
    match &mut trie.held.as_slot().state {
        HandleState::Trie(opened) => tend(opened),
        _ => CLOSED,
    }
}

/// Closes a user, and ends its look.
#[unsafe(no_mangle)]
pub extern "C" fn aug_user_free(alloc: Global, user: &mut RawHandle) -> i64
    ensures open { user.old.tag ≡ user_mark → (result ≡ pos 0) × (user.new.held.value ≡ None) }
    ensures closed { user.old.tag ≢ user_mark → (result ≡ closed) × (user.new ≡ user.old) }
{
    match user.take(USER, alloc) {
        Some(_) => 0,
        None => CLOSED,
    }
}

/// Closes a trie, unless a user is in a call. Its users answer `CLOSED` from then on, but the queries of an open look answer as before.
#[unsafe(no_mangle)]
pub extern "C" fn aug_try_close(alloc: Global, trie: &mut RawHandle, out: &mut ClosingReport) -> i64
    ensures closed { trie.old.tag ≢ trie_mark → (result ≡ closed) × (trie.new ≡ trie.old) × (out.new ≡ out.old) }
    ensures closes { trie.old.tag ≡ trie_mark → ClosesTrie (state_of trie.old) trie.new out.old out.new result }
{
    let Some(mut slot) = trie.take(TRIE, alloc) else {
        return CLOSED;
    };
    let HandleState::Trie(opened) = std::mem::replace(&mut slot.state, HandleState::Closed) else {
        return CLOSED;
    };
    close_opened(slot, opened, trie, out)
}

// Closes a trie that was taken out of a handle, or puts it back.
fn close_opened(
    slot: Box<HandleSlot, Global>,
    opened: Opened,
    trie: &mut RawHandle,
    out: &mut ClosingReport,
) -> i64
    requires { trie.old.held.value ≡ None }
    ensures { ClosesOpened opened trie.new out.old out.new result }
{
    let Opened { live, spare } = opened;
    match live.try_close() {
        Ok((set, counts)) => {
            *out = ClosingReport {
                inserts: counts.inserts,
                removals: counts.removals,
                size: set.size(),
            };
            0
        }
        Err((live, _)) => {
            let slot = filled(slot, HandleState::Trie(Opened { live, spare }));
            trie.hold(TRIE, slot);
            AGAIN
        }
    }
}
