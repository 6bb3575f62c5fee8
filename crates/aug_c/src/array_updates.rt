//! The updates of a user for arrays of keys.
ghost use Rattle.std.specs.Prelude.{◌≡◌, ◌↔◌, ◌^◌, ◌<◌, ◌≤◌, ◌-◌, length, min, get_or, All, true};
ghost use Rattle.aug_trie.specs.declared.updates.request.Request.TheVariants as request;
ghost use Rattle.aug_c.specs.ArrayCalls.{change_by, changes, AsksFrom, MakesEach, UpdatesAll, UpdatesAllFree};
ghost use Rattle.aug_c.specs.inside.KeyRequests.{request_by, requests_of};
ghost use Rattle.aug_c.specs.inside.SameLanes.{IsOfSameLane};

use crate::codes::{BAD_KEY, BAD_LENGTH};
use crate::raw_handle::{RawHandle, on_user};
use crate::refusal::CallRefusal;
use crate::state::SummedAccess;
use aug_trie::{Outcome, Request};

/// How far a call for an array has come. C has it zeroed before the first call.
#[repr(C)]
#[derive(Clone, Copy)]
pub struct ArrayProgress {
    /// For how many of the keys an update was made.
    pub made: u32,
    /// How many of these changed the set.
    pub changed: u32,
}

// What is asked of a key with this weight, where this is asked of each.
#[inline(always)]
fn with_weight(each: Request, weight: u32) -> Request
    ensures { result ≡ request_by each weight }
{
    match each {
        Request::Put(_) => Request::Put(weight),
        other => other,
    }
}

// Whether all keys are below a bound.
fn are_below(keys: &[u32], bound: u32) -> bool
    ensures { (result ≡ true) ↔ All (λ k. k < bound) keys.now }
{
    for place in 0..keys.len() {
        if keys[place] >= bound {
            return false;
        }
    }
    true
}

// 1 if the set was changed.
#[inline(always)]
fn changed_by(done: Outcome) -> u32
    ensures value { result ≡ change_by done }
    ensures few { result ≤ 1 }
{
    match done {
        Outcome::Accepted | Outcome::Replaced => 1,
        _ => 0,
    }
}

// How many keys one batch has at most.
const BATCH: usize = 32;

// How many of the outcomes of a batch are of a change.
fn changed_in(outcomes: &[Outcome]) -> u32
    requires { length outcomes.now ≤ 32 }
    ensures value { result ≡ changes outcomes.now }
    ensures few { result ≤ length outcomes.now }
{
    let mut changed = 0;
    for place in 0..outcomes.len() {
        changed += changed_by(outcomes[place]);
    }
    changed
}

// What is asked of the keys of a batch, whose first weight has this index.
fn requests_from(each: Request, weights: &[u32], first: usize) -> [Request; BATCH]
    requires { first < length weights.now }
    ensures { AsksFrom (requests_of each weights.now) first (min 32 (length weights.now - first)) result }
{
    let mut requests = [with_weight(each, 0); BATCH];
    for place in 0..BATCH.min(weights.len() - first) {
        requests[place] = with_weight(each, weights[first + place]);
    }
    requests
}

// Makes an update for each key from the index on that the progress has come to, in batches, until one is not made.
fn update_each(
    access: &mut SummedAccess,
    each: Request,
    keys: &[u32],
    weights: &[u32],
    before: ArrayProgress,
) -> (ArrayProgress, i64)
    requires below { All (λ k. k < 2 ^ access.old.half.round.bits) keys.now }
    requires weights { length weights.now ≡ length keys.now }
    requires few { length keys.now ≤ 4294967295 }
    requires made { before.made ≤ length keys.now }
    requires changed { before.changed ≤ before.made }
    ensures { MakesEach (requests_of each weights.now) keys.now before result.0 access.old access.new result.1 }
{
    let mut so_far = before;
    for place in before.made..keys.len() as u32 {
        if place < so_far.made {
            continue;
        }
        let first = place as usize;
        let next = &keys[first..keys.len().min(first + BATCH)];
        let requests = requests_from(each, weights, first);
        let mut outcomes = [Outcome::Refused; BATCH];
        match access.try_update_all(next, &requests, &mut outcomes) {
            Ok(count) => {
                so_far.made += count as u32;
                so_far.changed += changed_in(&outcomes[..count]);
            }
            Err(cause) => return (so_far, CallRefusal::of(cause).code()),
        }
    }
    (so_far, 0)
}

// Whether the lengths and the progress are those of a call for so many keys.
fn has_lengths(universe: u32, keys: usize, weights: usize, progress: ArrayProgress) -> bool
    ensures { (result ≡ true) ↔ ((weights ≡ keys) × (keys ≤ universe) × (progress.made ≤ keys) × (progress.changed ≤ progress.made)) }
{
    weights == keys
        && keys <= universe as usize
        && progress.made as usize <= keys
        && progress.changed <= progress.made
}

// Makes updates by the access of a user.
fn update_all_by_access(
    access: &mut SummedAccess,
    each: Request,
    keys: &[u32],
    weights: &[u32],
    progress: &mut ArrayProgress,
) -> i64
    ensures updates { UpdatesAllFree (requests_of each weights.now) keys.now (length weights.now) progress.old progress.new access.old access.new result }
    ensures lane { IsOfSameLane access.old access.new }
{
    let universe = access.universe();
    if !has_lengths(universe, keys.len(), weights.len(), *progress) {
        return BAD_LENGTH;
    }
    if !are_below(keys, universe) {
        return BAD_KEY;
    }
    let (after, code) = update_each(access, each, keys, weights, *progress);
    *progress = after;
    code
}

// Makes updates by a handle's user.
fn update_all(
    user: &mut RawHandle,
    each: Request,
    keys: &[u32],
    weights: &[u32],
    progress: &mut ArrayProgress,
) -> i64
    ensures { UpdatesAll (requests_of each weights.now) keys.now (length weights.now) progress.old progress.new user.old user.new result }
{
    on_user!(user, held => update_all_by_access(&mut held.access, each, keys, weights, progress))
}

/// Puts each key in, with itself as its weight, from the index on that the progress has come to. Answers 0 once an update was made for
/// each, and `BAD_LENGTH` or `BAD_KEY` if none is made. After `AGAIN` the same call goes on.
#[unsafe(no_mangle)]
pub extern "C" fn aug_try_insert_all(
    user: &mut RawHandle,
    keys: &[u32],
    progress: &mut ArrayProgress,
) -> i64
    ensures { UpdatesAll (λ _. request.Insert) keys.now (length keys.now) progress.old progress.new user.old user.new result }
{
    update_all(user, Request::Insert, keys, keys, progress)
}

/// Takes each key out, as `aug_try_insert_all` puts it in.
#[unsafe(no_mangle)]
pub extern "C" fn aug_try_remove_all(
    user: &mut RawHandle,
    keys: &[u32],
    progress: &mut ArrayProgress,
) -> i64
    ensures { UpdatesAll (λ _. request.Remove) keys.now (length keys.now) progress.old progress.new user.old user.new result }
{
    update_all(user, Request::Remove, keys, keys, progress)
}

/// Puts each key in with the weight that has its index, or gives a member this weight, as `aug_try_insert_all`.
#[unsafe(no_mangle)]
pub extern "C" fn aug_try_put_all(
    user: &mut RawHandle,
    keys: &[u32],
    weights: &[u32],
    progress: &mut ArrayProgress,
) -> i64
    ensures { UpdatesAll (λ place. request.Put (get_or weights.now place 0)) keys.now (length weights.now) progress.old progress.new user.old user.new result }
{
    update_all(user, Request::Put(0), keys, weights, progress)
}
