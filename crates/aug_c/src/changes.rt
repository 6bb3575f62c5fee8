//! What changed between the snapshot that a look showed before, or a list of the caller's, and the snapshot that it shows.
ghost use Rattle.std.specs.Prelude.{◌≡◌, ◌+◌, ◌-◌, ◌<◌, ◌++◌, ◌↔◌, true, length, map, take, drop, get_or};
ghost use Rattle.std.specs.List.Sorted.{IsStrictlyIncreasing};
ghost use Rattle.aug_c.specs.ChangeCalls.{ListsChanges, ListsPage, ListsSince, change_of, changes_since, set_of_arrays};
ghost use Rattle.aug_c.specs.Handles.{AsksUser};

use crate::codes::{BAD_KEY, BAD_LENGTH};
use crate::queries::Number;
use crate::raw_handle::{RawHandle, on_look};
use crate::state::SummedLook;
use aug_model::Difference;
use aug_query::MemberList;

/// A key whose weight differs between two snapshots.
#[repr(C)]
#[derive(Clone, Copy)]
pub struct WeightChange {
    /// The key.
    pub key: u32,
    /// What it weighed in the earlier snapshot, or -1 if it was no member.
    pub before: i64,
    /// What it weighs in the later one, or -1 if it is no member.
    pub now: i64,
}

fn as_change(one: Difference) -> WeightChange
    ensures { result ≡ change_of one }
{
    WeightChange {
        key: one.key,
        before: one.before.number(),
        now: one.after.number(),
    }
}

// Writes each change of a page to the places from `at` on, as many as there are.
fn write_changes(page: &[Difference], at: usize, out: &mut [WeightChange])
    ensures { out.new ≡ take at out.old ++ (take (length out.old - at) (map change_of page.now) ++ drop (at + length page.now) out.old) }
{
    if out.len() <= at {
        return;
    }
    let count = page.len().min(out.len() - at);
    for i in 0..count {
        out[at + i] = as_change(page[i]);
    }
}

fn page_of(look: &mut SummedLook, from: u32, out: &mut [WeightChange]) -> i64
    ensures { ListsChanges from out.old out.new look.old look.new result }
{
    let page = look.changes(from);
    write_changes(page.as_slice(), 0, out);
    out.len().min(page.len()) as i64
}

/// Writes a page of what changed between the snapshot that the user's look showed before and the one that it shows: the first changes with rising keys
/// from `from` on, at most 32, and as many as `out` has places for. Answers how many.
#[unsafe(no_mangle)]
pub extern "C" fn aug_try_changes(user: &mut RawHandle, from: u32, out: &mut [WeightChange]) -> i64
    ensures { AsksUser (ListsChanges from out.old out.new) (out.new ≡ out.old) user.old user.new result }
{
    on_look!(user, look => page_of(look, from, out))
}

// Members that rise in one array, and their weights in another.
#[derive(Drop)]
struct Arrays<'l> {
    keys: &'l [u32],
    weights: &'l [u32],
    ghost rising: { IsStrictlyIncreasing keys.now },
    ghost lengths: { length weights.now ≡ length keys.now },
}

impl MemberList for Arrays<'_> {
    ghost use Rattle.aug_c.specs.ChangeCalls.{set_of_arrays};

    ghost set_of = { λ arrays. set_of_arrays arrays.keys.now arrays.weights.now };

    fn len(&self) -> usize {
        self.keys.len()
    }

    fn member(&self, place: usize) -> (u32, u32) {
        let key = number_at(self.keys, place);
        let weight = number_at(self.weights, place);
        (key, weight)
    }
}

// The number at a place of an array.
fn number_at(numbers: &[u32], place: usize) -> u32
    requires { place < length numbers.now }
    ensures { result ≡ get_or numbers.now place 0 }
{
    numbers[place]
}

// Whether each key is above the one before it.
fn is_rising(keys: &[u32]) -> bool
    ensures { (result ≡ true) ↔ IsStrictlyIncreasing keys.now }
{
    for place in 1..keys.len() {
        if keys[place - 1] >= keys[place] {
            return false;
        }
    }
    true
}

// Writes the first changes since a list, a page after the other, as many as there are places for, and tells how many these are.
fn list_since(look: &mut SummedLook, list: &Arrays, from: u32, out: &mut [WeightChange]) -> i64
    ensures { ListsPage (changes_since list.now.keys.now list.now.weights.now look.old from) out.old out.new look.old look.new result }
{
    let mut next = from;
    let mut listed = 0;
    while listed < out.len() {
        let page = look.changes_since(list, next);
        write_changes(page.as_slice(), listed, out);
        listed += page.len();
        if !page.is_full() {
            return listed.min(out.len()) as i64;
        }
        next = page.as_slice()[31].key + 1;
    }
    out.len() as i64
}

fn since(
    look: &mut SummedLook,
    keys: &[u32],
    weights: &[u32],
    from: u32,
    out: &mut [WeightChange],
) -> i64
    ensures { ListsSince keys.now weights.now from out.old out.new look.old look.new result }
{
    if weights.len() != keys.len() {
        return BAD_LENGTH;
    }
    if !is_rising(keys) {
        return BAD_KEY;
    }
    let list = Arrays { keys, weights };
    list_since(look, &list, from, out)
}

/// Writes what changed between a set that the caller kept and the snapshot that the user's look shows: the first changes with rising keys from `from` on, as
/// many as `out` has places for. The set's members are `keys`, and each weighs what stands in `weights` at its place. Answers how many, or `BAD_LENGTH` if
/// there are not as many weights as keys, and `BAD_KEY` if the keys do not rise, which is tested once.
#[unsafe(no_mangle)]
pub extern "C" fn aug_try_changes_since(
    user: &mut RawHandle,
    keys: &[u32],
    weights: &[u32],
    from: u32,
    out: &mut [WeightChange],
) -> i64
    ensures { AsksUser (ListsSince keys.now weights.now from out.old out.new) (out.new ≡ out.old) user.old user.new result }
{
    on_look!(user, look => since(look, keys, weights, from, out))
}
