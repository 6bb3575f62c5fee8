//! The members of a look's snapshot, many of them in one call, a page after the other.
ghost use Rattle.std.specs.Prelude.{◌≡◌, ℕ, ◌+◌, ◌-◌, ◌^◌, ◌<◌, ◌≤◌, ◌++◌, ◌==◌, if◌then◌else◌, List, Some, None, IfSome, IfNone, length, map, take, drop, reverse, min, pos, slice_index_or};
ghost use Rattle.aug_model.specs.Keys.{SetFacts};
ghost use Rattle.aug_query.specs.Yields.{members_from, members_below};
ghost use Rattle.aug_live.specs.LiveHandles.{IsAsked, set_of_look};
ghost use Rattle.aug_c.specs.Handles.{AsksUser};
ghost use Rattle.aug_c.specs.UserCalls.{span_of};
ghost use Rattle.aug_c.specs.inside.KeyRequests.{member_part};
ghost use Rattle.aug_c.specs.ArrayCalls.{ListsAllBoth, ListsBoth, ListsKeys, ListsMembers, weights_of};

use crate::codes::BAD_LENGTH;
use crate::raw_handle::{RawHandle, on_look};
use crate::state::SummedLook;
use aug_query::descent::{MembersBelow, MembersFrom, Page};

// In which order members are listed.
trait Order {
    // The members on the side of a key that is listed.
    ghost members: { SetFacts → ℕ → List (ℕ × ℕ) };

    // The first page of them, and the key of the next page if this one is full.
    fn page(look: &mut SummedLook, key: u32) -> (Page, Option<u32>)
        ensures page { result.0.items ≡ take 32 (members (set_of_look look.old) key) }
        ensures full { IfSome result.1 (λ next. length result.0.items ≡ 32) }
        ensures more { IfSome result.1 (λ next. members (set_of_look look.old) next ≡ drop 32 (members (set_of_look look.old) key)) }
        ensures last { IfNone result.1 (length result.0.items < 32) }
        ensures asked { (most : ℕ) × IsAsked span_of most look.old look.new };
}

// The key of the last member of a page, if it is full.
fn last_key(page: &Page) -> Option<u32>
    ensures { result ≡ (if length page.now.items == 32 then Some (slice_index_or page.now.items 31 (0, 0)).0 else None) }
{
    if !page.is_full() {
        return None;
    }
    Some(page.as_slice()[31].0)
}

struct Rising;

impl Order for Rising {
    ghost members = { λ set key. members_from set key };

    fn page(look: &mut SummedLook, key: u32) -> (Page, Option<u32>) {
        let page = look.ask(MembersFrom(key));
        match last_key(&page) {
            Some(last) => (page, Some(last + 1)),
            None => (page, None),
        }
    }
}

struct Falling;

impl Order for Falling {
    ghost members = { λ set key. reverse (members_below set key) };

    fn page(look: &mut SummedLook, key: u32) -> (Page, Option<u32>) {
        let page = look.ask(MembersBelow(key));
        let next = last_key(&page);
        (page, next)
    }
}

// Writes the key of each member of a page, or its weight, to the places from `at` on, as many as there are.
#[inline(always)]
fn write_members(page: &[(u32, u32)], weights: bool, at: usize, out: &mut [u32])
    ensures { out.new ≡ take at out.old ++ (take (length out.old - at) (map (member_part weights) page.now) ++ drop (at + length page.now) out.old) }
{
    if out.len() <= at {
        return;
    }
    let count = page.len().min(out.len() - at);
    for i in 0..count {
        let (key, weight) = page[i];
        out[at + i] = if weights { weight } else { key };
    }
}

// Writes the first members on the side of a key that is listed, as many as there are places for keys, and answers how many. There may be fewer
// places for weights.
fn list<O: Order>(look: &mut SummedLook, key: u32, keys: &mut [u32], weights: &mut [u32]) -> i64
    requires { length weights.old ≤ length keys.old }
    ensures keys { ListsKeys (λ set. O.members set key) keys.old keys.new look.old look.new result }
    ensures weights { ListsMembers (weights_of (O.members (set_of_look look.old) key)) weights.old weights.new (min (length weights.old) (length (O.members (set_of_look look.old) key))) }
{
    let mut from = key;
    let mut listed = 0;
    while listed < keys.len() {
        let (page, next) = O::page(look, from);
        write_members(page.as_slice(), false, listed, keys);
        write_members(page.as_slice(), true, listed, weights);
        listed += page.len();
        let Some(next) = next else {
            return listed.min(keys.len()) as i64;
        };
        from = next;
    }
    keys.len() as i64
}

/// Writes the least members of the snapshot from `from` on, rising, as many as `out` has places for. Answers how many.
#[unsafe(no_mangle)]
pub extern "C" fn aug_try_keys(user: &mut RawHandle, from: u32, out: &mut [u32]) -> i64
    ensures { AsksUser (ListsKeys (λ set. members_from set from) out.old out.new) (out.new ≡ out.old) user.old user.new result }
{
    on_look!(user, look => list::<Rising>(look, from, out, &mut []))
}

// Lists members with their weights, in two arrays of the same length.
fn list_both<O: Order>(
    look: &mut SummedLook,
    key: u32,
    keys: &mut [u32],
    weights: &mut [u32],
) -> i64
    ensures { ListsBoth (λ set. O.members set key) keys.old keys.new weights.old weights.new look.old look.new result }
{
    if weights.len() != keys.len() {
        return BAD_LENGTH;
    }
    list::<O>(look, key, keys, weights)
}

// The same of a handle's user.
fn both_of<O: Order>(user: &mut RawHandle, key: u32, keys: &mut [u32], weights: &mut [u32]) -> i64
    ensures { ListsAllBoth (λ set. O.members set key) keys.old keys.new weights.old weights.new user.old user.new result }
{
    on_look!(user, look => list_both::<O>(look, key, keys, weights))
}

/// Writes the least members of the snapshot from `from` on, rising, as many as `keys` has places for, and the weight of each. Answers how
/// many, or `BAD_LENGTH` if there are not as many places for weights.
#[unsafe(no_mangle)]
pub extern "C" fn aug_try_list(
    user: &mut RawHandle,
    from: u32,
    keys: &mut [u32],
    weights: &mut [u32],
) -> i64
    ensures { ListsAllBoth (λ set. members_from set from) keys.old keys.new weights.old weights.new user.old user.new result }
{
    both_of::<Rising>(user, from, keys, weights)
}

/// Writes the greatest members of the snapshot below `below`, falling, as `aug_try_list`.
#[unsafe(no_mangle)]
pub extern "C" fn aug_try_list_back(
    user: &mut RawHandle,
    below: u32,
    keys: &mut [u32],
    weights: &mut [u32],
) -> i64
    ensures { ListsAllBoth (λ set. reverse (members_below set below)) keys.old keys.new weights.old weights.new user.old user.new result }
{
    both_of::<Falling>(user, below, keys, weights)
}
