//! The updates of a user, how many are left to it, and its looks.
ghost use Rattle.std.specs.Prelude.{◌≡◌, ◌↔◌, ◌^◌, ◌≤◌, IfOk, IfErr, IsErrOf};
ghost use Rattle.aug_trie.specs.Updates.{Updates};
ghost use Rattle.aug_trie.specs.declared.updates.request.Request.TheVariants as request;
ghost use Rattle.aug_live.specs.LiveHandles.{Follows, Makes};
ghost use Rattle.aug_c.specs.declared.refusal.CallRefusal.TheVariants as refusal;
ghost use Rattle.aug_c.specs.UserCalls.{told_in, update_code, AsksRoom, InsertsKey, LooksAnew, LooksDone, ShowsClosed, TakesALook, TellsRoom, UpdatesKey};

use crate::codes::{TOO_GREAT, TOO_LITTLE};
use crate::queries::Number;
use crate::raw_handle::{RawHandle, on_user};
use crate::refusal::CallRefusal;
use crate::state::SummedAccess;
use aug_trie::{Outcome, Request, Told};

/// What a key weighed before an update, and what it weighs by it.
#[repr(C)]
#[derive(Drop)]
pub struct WeightsTold {
    /// What it weighed when the update found it, or -1 if it was no member.
    pub before: i64,
    /// What it weighs by the update, or -1 if it is no member. The same if nothing was stored.
    pub now: i64,
}

// Writes what an update tells, if it was made, and gives its code.
#[inline(always)]
fn tell(answer: Result<Told, CallRefusal>, out: &mut WeightsTold) -> i64
    ensures code { result ≡ update_code answer }
    ensures tells { told_in answer out.old out.new }
{
    let told = match answer {
        Ok(told) => told,
        Err(cause) => return cause.code(),
    };
    *out = WeightsTold {
        before: told.before.number(),
        now: told.now.number(),
    };
    match told.outcome {
        Outcome::Accepted => 1,
        Outcome::Replaced => 2,
        Outcome::Refused => 0,
        Outcome::Unchanged => 3,
        Outcome::TooGreat => TOO_GREAT,
        Outcome::TooLittle => TOO_LITTLE,
    }
}

// Makes an update of a key.
#[inline(always)]
fn update_by_access(
    access: &mut SummedAccess,
    key: u32,
    request: Request,
) -> Result<Told, CallRefusal>
    ensures bad_key { IsErrOf result refusal.BadKey ↔ (2 ^ access.old.half.round.bits ≤ key) }
    ensures same { IsErrOf result refusal.BadKey → access.new ≡ access.old }
    ensures made { IfOk result (λ told. Makes 1 (λ a b. Updates request key told a.knows b.knows) access.old access.new) }
    ensures not_made { IfErr result (λ _. Follows access.old access.new) }
    ensures closed { IsErrOf result refusal.Closed → ShowsClosed access.new }
{
    if key >= access.universe() {
        return Err(CallRefusal::BadKey);
    }
    match access.try_update(key, request) {
        Ok(told) => Ok(told),
        Err(cause) => Err(CallRefusal::of(cause)),
    }
}

// Makes an update of a key by a handle's user.
#[inline(always)]
fn update(user: &mut RawHandle, key: u32, request: Request, out: &mut WeightsTold) -> i64
    ensures { UpdatesKey request key out.old out.new user.old user.new result }
{
    on_user!(user, held => tell(update_by_access(&mut held.access, key, request), out))
}

/// Puts a key in, with the key itself as its weight: 1 if it was not there, 0 if it was.
#[unsafe(no_mangle)]
pub extern "C" fn aug_try_insert(user: &mut RawHandle, key: u32) -> i64
    ensures { InsertsKey key user.old user.new result }
{
    let mut unwanted = WeightsTold { before: 0, now: 0 };
    update(user, key, Request::Insert, &mut unwanted)
}

/// Takes a key out: 1 if it was there, 0 if it was not, or if another change of the key came in between and nothing was stored. What the key weighed is
/// written, as by the next three calls.
#[unsafe(no_mangle)]
pub extern "C" fn aug_try_remove(user: &mut RawHandle, key: u32, out: &mut WeightsTold) -> i64
    ensures { UpdatesKey request.Remove key out.old out.new user.old user.new result }
{
    update(user, key, Request::Remove, out)
}

/// Puts a key in with a weight, or gives a member this weight: 1 if it was not there, 2 if it was, 0 if another change of the
/// key came in between and nothing was stored.
#[unsafe(no_mangle)]
pub extern "C" fn aug_try_put(
    user: &mut RawHandle,
    key: u32,
    weight: u32,
    out: &mut WeightsTold,
) -> i64
    ensures { UpdatesKey (request.Put weight) key out.old out.new user.old user.new result }
{
    update(user, key, Request::Put(weight), out)
}

/// Adds an amount to the weight of a key, which goes in with it if it was not there: 1 if it was not there, 2 if it was, 3 if the amount
/// is 0; 0 if another change of the key came in between, and `TOO_GREAT` if the sum is no weight. Then nothing was stored.
#[unsafe(no_mangle)]
pub extern "C" fn aug_try_add(
    user: &mut RawHandle,
    key: u32,
    amount: u32,
    out: &mut WeightsTold,
) -> i64
    ensures { UpdatesKey (request.Add amount) key out.old out.new user.old user.new result }
{
    update(user, key, Request::Add(amount), out)
}

/// Takes an amount from the weight of a key, which goes out if nothing is left: 1 if it went out, 2 if it is still there, 3 if the amount
/// is 0; 0 if another change of the key came in between, and `TOO_LITTLE` if there is less. Then nothing was stored.
#[unsafe(no_mangle)]
pub extern "C" fn aug_try_sub(
    user: &mut RawHandle,
    key: u32,
    amount: u32,
    out: &mut WeightsTold,
) -> i64
    ensures { UpdatesKey (request.Sub amount) key out.old out.new user.old user.new result }
{
    update(user, key, Request::Sub(amount), out)
}

// How many updates are left to a lane, or the code of why that is not told.
fn room(access: &mut SummedAccess) -> i64
    ensures { TellsRoom access.old access.new result }
{
    match access.try_room() {
        Ok(left) => i64::from(left),
        Err(cause) => CallRefusal::of(cause).code(),
    }
}

/// How many updates are left to the user's lane in this round.
#[unsafe(no_mangle)]
pub extern "C" fn aug_try_room(user: &mut RawHandle) -> i64
    ensures { AsksRoom user.old user.new result }
{
    on_user!(user, held => room(&mut held.access))
}

/// Takes a snapshot, which the queries are answered from until the look is done. A user has one look at a time.
#[unsafe(no_mangle)]
pub extern "C" fn aug_try_look(user: &mut RawHandle) -> i64
    ensures { TakesALook user.old user.new result }
{
    on_user!(user, held => held.try_look())
}

/// Takes a newer snapshot in the same look: 0 if it is of the same round as the one that the look showed, and 1 if the round rolled over in between, so that
/// there is none to compare it with. If it is not taken, the look shows what it showed.
#[unsafe(no_mangle)]
pub extern "C" fn aug_try_look_again(user: &mut RawHandle) -> i64
    ensures { LooksAnew user.old user.new result }
{
    on_user!(user, held => held.try_again())
}

/// Ends the look.
#[unsafe(no_mangle)]
pub extern "C" fn aug_try_look_done(user: &mut RawHandle) -> i64
    ensures { LooksDone user.old user.new result }
{
    on_user!(user, held => held.end_look())
}
