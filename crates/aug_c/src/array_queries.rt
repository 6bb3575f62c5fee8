//! The queries of a user for arrays of keys, answered from the snapshot of its look.
ghost use Rattle.std.specs.Prelude.{◌≡◌, ℕ};
ghost use Rattle.aug_model.specs.Keys.{SetFacts, is_member, list_of};
ghost use Rattle.aug_model.specs.Queries.{rank_of, weight_of};
ghost use Rattle.aug_live.specs.LiveHandles.{IsAsked, set_of_look};
ghost use Rattle.aug_c.specs.UserCalls.{found, span_of};
ghost use Rattle.aug_c.specs.ArrayCalls.{bit_of, AnswersArray, AsksAll};

use crate::codes::BAD_LENGTH;
use crate::queries::Number;
use crate::raw_handle::{RawHandle, on_look};
use crate::state::SummedLook;
use aug_batch::Four;
use aug_query::descent::{Has, Rank, Weight};

// What is asked for each key of an array, and what is written of the answer.
trait KeyQuery<T> {
    ghost answer_of: { SetFacts → ℕ → T };

    fn ask(look: &mut SummedLook, key: u32) -> T
        ensures answer { result ≡ answer_of (set_of_look look.old) key }
        ensures asked { (most : ℕ) × IsAsked span_of most look.old look.new };

    // The same for four keys, which go down together.
    fn ask_four(look: &mut SummedLook, p: u32, q: u32, r: u32, s: u32) -> (T, T, T, T)
        ensures p { result.0 ≡ answer_of (set_of_look look.old) p }
        ensures q { result.1 ≡ answer_of (set_of_look look.old) q }
        ensures r { result.2 ≡ answer_of (set_of_look look.old) r }
        ensures s { result.3 ≡ answer_of (set_of_look look.old) s }
        ensures asked { (most : ℕ) × IsAsked span_of most look.old look.new };
}

// 1 or 0.
#[inline(always)]
fn bit(answer: bool) -> u8
    ensures { result ≡ bit_of answer }
{
    if answer { 1 } else { 0 }
}

impl KeyQuery<u32> for Rank {
    ghost answer_of = { λ set k. rank_of (list_of set) k };

    #[inline(always)]
    fn ask(look: &mut SummedLook, key: u32) -> u32 {
        look.ask(Rank(key))
    }

    #[inline(always)]
    fn ask_four(look: &mut SummedLook, p: u32, q: u32, r: u32, s: u32) -> (u32, u32, u32, u32) {
        look.ask(Four(Rank(p), Rank(q), Rank(r), Rank(s)))
    }
}

impl KeyQuery<u8> for Has {
    ghost answer_of = { λ set k. bit_of (is_member (list_of set) k) };

    #[inline(always)]
    fn ask(look: &mut SummedLook, key: u32) -> u8 {
        bit(look.ask(Has(key)))
    }

    #[inline(always)]
    fn ask_four(look: &mut SummedLook, p: u32, q: u32, r: u32, s: u32) -> (u8, u8, u8, u8) {
        let (p, q, r, s) = look.ask(Four(Has(p), Has(q), Has(r), Has(s)));
        (bit(p), bit(q), bit(r), bit(s))
    }
}

impl KeyQuery<i64> for Weight {
    ghost answer_of = { λ set k. found (weight_of set.pairs k) };

    #[inline(always)]
    fn ask(look: &mut SummedLook, key: u32) -> i64 {
        look.ask(Weight(key)).number()
    }

    #[inline(always)]
    fn ask_four(look: &mut SummedLook, p: u32, q: u32, r: u32, s: u32) -> (i64, i64, i64, i64) {
        let (p, q, r, s) = look.ask(Four(Weight(p), Weight(q), Weight(r), Weight(s)));
        (p.number(), q.number(), r.number(), s.number())
    }
}

// Asks a look for each key, for four at a time while there are as many.
fn ask_each<T: Copy, E: KeyQuery<T>>(look: &mut SummedLook, keys: &[u32], out: &mut [T]) -> i64
    ensures { AnswersArray E.answer_of keys.now out.old out.new look.old look.new result }
{
    if out.len() < keys.len() {
        return BAD_LENGTH;
    }
    let mut place = 0;
    while keys.len() - place >= 4 {
        let (p, q, r, s) = E::ask_four(
            look,
            keys[place],
            keys[place + 1],
            keys[place + 2],
            keys[place + 3],
        );
        out[place] = p;
        out[place + 1] = q;
        out[place + 2] = r;
        out[place + 3] = s;
        place += 4;
    }
    for at in place..keys.len() {
        let answer = E::ask(look, keys[at]);
        out[at] = answer;
    }
    0
}

// Asks the look of a handle's user for each key.
fn ask_all<T: Copy, E: KeyQuery<T>>(user: &mut RawHandle, keys: &[u32], out: &mut [T]) -> i64
    ensures { AsksAll E.answer_of keys.now out.old out.new user.old user.new result }
{
    on_look!(user, look => ask_each::<T, E>(look, keys, out))
}

/// Writes how many members of the snapshot are below each key to the place with its index. The keys stand in any order. Answers 0, or
/// `BAD_LENGTH` if there are fewer places than keys.
#[unsafe(no_mangle)]
pub extern "C" fn aug_try_rank_all(user: &mut RawHandle, keys: &[u32], out: &mut [u32]) -> i64
    ensures { AsksAll (λ set k. rank_of (list_of set) k) keys.now out.old out.new user.old user.new result }
{
    ask_all::<u32, Rank>(user, keys, out)
}

/// Writes whether the snapshot has each key, 1 or 0, as `aug_try_rank_all`.
#[unsafe(no_mangle)]
pub extern "C" fn aug_try_has_all(user: &mut RawHandle, keys: &[u32], out: &mut [u8]) -> i64
    ensures { AsksAll (λ set k. bit_of (is_member (list_of set) k)) keys.now out.old out.new user.old user.new result }
{
    ask_all::<u8, Has>(user, keys, out)
}

/// Writes the weight of each key that is a member of the snapshot, and `NONE` for each other, as `aug_try_rank_all`.
#[unsafe(no_mangle)]
pub extern "C" fn aug_try_weight_all(user: &mut RawHandle, keys: &[u32], out: &mut [i64]) -> i64
    ensures { AsksAll (λ set k. found (weight_of set.pairs k)) keys.now out.old out.new user.old user.new result }
{
    ask_all::<i64, Weight>(user, keys, out)
}
