//! How a user takes out the first or the last member.
ghost use Rattle.std.specs.Prelude.{◌≡◌, IfOk, IfErr, IsErrOf};
ghost use Rattle.aug_trie.specs.Pops.{pop_updates, Pops};
ghost use Rattle.aug_trie.specs.declared.rounds.pop.Side.TheVariants as side;
ghost use Rattle.aug_live.specs.LiveHandles.{Follows, Makes};
ghost use Rattle.aug_c.specs.PopCalls.{pop_code, written_by, PopsMember};
ghost use Rattle.aug_c.specs.UserCalls.{ShowsClosed, span_of};
ghost use Rattle.aug_c.specs.declared.refusal.CallRefusal.TheVariants as refusal;

use crate::codes::NONE;
use crate::raw_handle::{RawHandle, on_user};
use crate::refusal::CallRefusal;
use crate::state::SummedAccess;
use aug_trie::{Pop, Side};

/// A member: a key, and what it weighs.
#[repr(C)]
#[derive(Drop)]
pub struct Member {
    /// The key.
    pub key: u32,
    /// Its weight.
    pub weight: u32,
}

// Writes the member that was taken out, if there is one, and gives the code of the call.
#[inline(always)]
fn tell(answer: Result<Pop, CallRefusal>, out: &mut Member) -> i64
    ensures code { result ≡ pop_code answer }
    ensures tells { written_by answer out.old out.new }
{
    match answer {
        Ok(Pop::Member(key, weight)) => {
            *out = Member { key, weight };
            1
        }
        Ok(Pop::Empty) => NONE,
        Ok(Pop::Refused) => 0,
        Err(cause) => cause.code(),
    }
}

#[inline(always)]
fn pop_by_access(access: &mut SummedAccess, side: Side) -> Result<Pop, CallRefusal>
    ensures popped { IfOk result (λ done. Makes (pop_updates done) (Pops span_of side done) access.old access.new) }
    ensures not_made { IfErr result (λ _. Follows access.old access.new) }
    ensures closed { IsErrOf result refusal.Closed → ShowsClosed access.new }
{
    let answer = match side {
        Side::First => access.try_pop_first(),
        Side::Last => access.try_pop_last(),
    };
    match answer {
        Ok(done) => Ok(done),
        Err(cause) => Err(CallRefusal::of(cause)),
    }
}

// Takes out the member at one end by a handle's user.
#[inline(always)]
fn pop(user: &mut RawHandle, side: Side, out: &mut Member) -> i64
    ensures { PopsMember side out.old out.new user.old user.new result }
{
    on_user!(user, held => tell(pop_by_access(&mut held.access, side), out))
}

/// Takes out the member with the least key, and writes it: 1 if it did, `NONE` if there is no member, and 0 if another change of that member came in
/// between and nothing was stored.
#[unsafe(no_mangle)]
pub extern "C" fn aug_try_pop_first(user: &mut RawHandle, out: &mut Member) -> i64
    ensures { PopsMember side.First out.old out.new user.old user.new result }
{
    pop(user, Side::First, out)
}

/// Takes out the member with the greatest key, as `aug_try_pop_first`.
#[unsafe(no_mangle)]
pub extern "C" fn aug_try_pop_last(user: &mut RawHandle, out: &mut Member) -> i64
    ensures { PopsMember side.Last out.old out.new user.old user.new result }
{
    pop(user, Side::Last, out)
}
