//! The queries of a user, answered from the snapshot of its look.
ghost use Rattle.std.specs.Prelude.{◌≡◌, ℤ, ⊤, pos, length};
ghost use Rattle.aug_model.specs.Keys.{is_member, list_of};
ghost use Rattle.aug_model.specs.Queries.{rank_of, select_of, before_of, after_of, first_of, last_of, weight_of, weighted_range_of};
ghost use Rattle.aug_query.specs.RunningSums.{select_by_weight_of};
ghost use Rattle.aug_c.specs.Handles.{AsksUser};
ghost use Rattle.aug_c.specs.UserCalls.{found, truth, Asks, AsksRange, IsSpan};
ghost use Rattle.aug_c.specs.inside.Answered.{AnswersLook};

use crate::codes::NONE;
use crate::raw_handle::{RawHandle, on_look};
use aug_model::Summary;
use aug_monoid::{Extent, Sum};
use aug_query::Query;
use aug_query::descent::{
    After, Before, First, Has, Last, Range, Rank, Select, SelectByWeight, Size, Weight,
};

/// The count, the sum of the weights, the least and the greatest of some members. The last two are 0 if there are none.
#[repr(C)]
#[derive(Drop)]
pub struct Span {
    /// The sum of the weights, modulo 2^64.
    pub sum: u64,
    /// How many members there are.
    pub count: u32,
    /// The least of them.
    pub least: u32,
    /// The greatest of them.
    pub greatest: u32,
}

// An answer that C has as one number.
pub(crate) trait Number {
    ghost number_of: { Self → ℤ };

    fn number(self) -> i64
        ensures { result ≡ number_of self };
}

impl Number for u32 {
    ghost number_of = { λ n. pos n };

    #[inline(always)]
    fn number(self) -> i64 {
        i64::from(self)
    }
}

impl Number for Option<u32> {
    ghost number_of = { λ n. found n };

    #[inline(always)]
    fn number(self) -> i64 {
        match self {
            Some(number) => i64::from(number),
            None => NONE,
        }
    }
}

impl Number for bool {
    ghost number_of = { λ b. truth b };

    #[inline(always)]
    fn number(self) -> i64 {
        if self { 1 } else { 0 }
    }
}

// Asks the snapshot of a user's look.
#[inline(always)]
fn ask<X: Number, Q: Query<Sum, Extent, Answer = X> + Drop>(user: &mut RawHandle, query: Q) -> i64
    ensures { AsksUser (AnswersLook (λ set answer. Q.Answers query set answer) X.number_of) ⊤ user.old user.new result }
{
    on_look!(user, look => look.ask(query).number())
}

fn span_from(told: Summary<Sum, Extent>) -> Span
    ensures { IsSpan told result }
{
    let (least, greatest) = match told.b.bounds() {
        Some(bounds) => bounds,
        None => (0, 0),
    };
    Span {
        sum: told.a.value(),
        count: told.count,
        least,
        greatest,
    }
}

/// Whether the snapshot has the key, 1 or 0.
#[unsafe(no_mangle)]
pub extern "C" fn aug_try_has(user: &mut RawHandle, key: u32) -> i64
    ensures { Asks (λ set. truth (is_member (list_of set) key)) user.old user.new result }
{
    ask(user, Has(key))
}

/// The weight of a member of the snapshot.
#[unsafe(no_mangle)]
pub extern "C" fn aug_try_weight(user: &mut RawHandle, key: u32) -> i64
    ensures { Asks (λ set. found (weight_of set.pairs key)) user.old user.new result }
{
    ask(user, Weight(key))
}

/// How many members the snapshot has.
#[unsafe(no_mangle)]
pub extern "C" fn aug_try_size(user: &mut RawHandle) -> i64
    ensures { Asks (λ set. pos (length (list_of set))) user.old user.new result }
{
    ask(user, Size)
}

/// How many members of the snapshot are below the key.
#[unsafe(no_mangle)]
pub extern "C" fn aug_try_rank(user: &mut RawHandle, key: u32) -> i64
    ensures { Asks (λ set. pos (rank_of (list_of set) key)) user.old user.new result }
{
    ask(user, Rank(key))
}

/// The member of the snapshot with exactly `index` members below it.
#[unsafe(no_mangle)]
pub extern "C" fn aug_try_select(user: &mut RawHandle, index: u32) -> i64
    ensures { Asks (λ set. found (select_of (list_of set) index)) user.old user.new result }
{
    ask(user, Select(index))
}

/// The member of the snapshot up to which the weights, added up from the least member on, first come to more than `sum`. No sum wraps.
#[unsafe(no_mangle)]
pub extern "C" fn aug_try_select_by_weight(user: &mut RawHandle, sum: u64) -> i64
    ensures { Asks (λ set. found (select_by_weight_of set.pairs sum)) user.old user.new result }
{
    ask(user, SelectByWeight(sum))
}

/// The greatest member of the snapshot below the key.
#[unsafe(no_mangle)]
pub extern "C" fn aug_try_before(user: &mut RawHandle, key: u32) -> i64
    ensures { Asks (λ set. found (before_of (list_of set) key)) user.old user.new result }
{
    ask(user, Before(key))
}

/// The least member of the snapshot above the key.
#[unsafe(no_mangle)]
pub extern "C" fn aug_try_after(user: &mut RawHandle, key: u32) -> i64
    ensures { Asks (λ set. found (after_of (list_of set) key)) user.old user.new result }
{
    ask(user, After(key))
}

/// The least member of the snapshot.
#[unsafe(no_mangle)]
pub extern "C" fn aug_try_first(user: &mut RawHandle) -> i64
    ensures { Asks (λ set. found (first_of (list_of set))) user.old user.new result }
{
    ask(user, First)
}

/// The greatest member of the snapshot.
#[unsafe(no_mangle)]
pub extern "C" fn aug_try_last(user: &mut RawHandle) -> i64
    ensures { Asks (λ set. found (last_of (list_of set))) user.old user.new result }
{
    ask(user, Last)
}

/// The summary of the members of the snapshot from `from` on that are below `to`. Answers how many they are.
#[unsafe(no_mangle)]
pub extern "C" fn aug_try_range(user: &mut RawHandle, from: u32, to: u32, out: &mut Span) -> i64
    ensures { AsksUser (AsksRange from to out.new) (out.new ≡ out.old) user.old user.new result }
{
    on_look!(user, look => {
        let told = look.ask(Range(from, to));
        let count = told.count;
        *out = span_from(told);
        i64::from(count)
    })
}
