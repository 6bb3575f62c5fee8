//! Updates of several keys: each at its leaf first, and then each node above them once.
ghost use Rattle.std.specs.Prelude.{◌≡◌, ◌+◌, ◌*◌, ◌^◌, ◌<◌, ◌≤◌, All, length, drop};
ghost use Rattle.aug_core.specs.Faces.{face};
ghost use Rattle.aug_core.specs.Counts.{changes_of};
ghost use Rattle.aug_core.specs.Effects.{MayChange, KnowsBook};
ghost use Rattle.aug_words.specs.Seats.{StaysAt};
ghost use Rattle.aug_trie.specs.Requests.{word_left};
ghost use Rattle.aug_trie.specs.UpdateBatches.{apart};
ghost use Rattle.aug_trie.specs.inside.Climbing.{FitsRequest};
ghost use Rattle.aug_trie.specs.inside.Goes.{HasLeaves, HasRoom};
ghost use Rattle.aug_trie.specs.inside.Batching.{IsAccountAfter, LeftAll, LeftFrom, RaisedAll};
ghost use Rattle.aug_trie.specs.inside.Counted.{HasCounts};
ghost use Rattle.aug_trie.specs.inside.PassState.{IsPass};

use crate::rounds::account::Account;
use crate::updates::propagate::propagate;
use crate::updates::request::Request;
use crate::updates::told::LeafUpdate;
use crate::updates::update::{at_once, goes_on, outcome_of, word_after};
use aug_model::Outcome;
use aug_monoid::Monoid;
use aug_words::WordPass;

// The weight or the amount in a request. It tells that this has 32 bits.
#[inline(always)]
pub(crate) fn amount_in(request: Request) -> u32
    ensures { FitsRequest request }
{
    match request {
        Request::Insert | Request::Remove => 0,
        Request::Put(amount)
        | Request::Add(amount)
        | Request::Sub(amount)
        | Request::Take(amount) => amount,
    }
}

// Changes the leaf of a key as it is asked to, unless its word refuses that.
#[inline(always)]
pub(crate) fn at_leaf<A: Monoid, B: Monoid>(
    pass: &mut WordPass<A, B>,
    key: u32,
    request: Request,
) -> LeafUpdate
    requires key { key < 2 ^ pass.old.view.shape.bits }
    requires knows { KnowsBook (face A.parts B.parts) pass.old.view }
    requires may { MayChange pass.old.view }
    ensures at { StaysAt pass.old pass.new (LeftFrom (face A.parts B.parts) pass.old.view key request pass.new.view result.found result.outcome) }
    ensures left { result.left ≡ word_left request key result.found result.outcome }
{
    let _amount = amount_in(request);
    let leaf = key as usize;
    let word = pass.begin_at_leaf(leaf);
    if !goes_on(request, word) {
        let outcome = at_once(request);
        return LeafUpdate {
            outcome,
            found: word,
            left: word,
        };
    }
    let next = word_after(request, key, word);
    let done = pass.try_leaf(leaf, word, next);
    let outcome = outcome_of(request, word, done);
    let left = if done { next } else { word };
    LeafUpdate {
        outcome,
        found: word,
        left,
    }
}

// Changes the leaf of each key as it is asked to, and puts down what that came to.
pub(crate) fn at_leaves<A: Monoid, B: Monoid>(
    pass: &mut WordPass<A, B>,
    keys: &[u32],
    requests: &[Request],
    outcomes: &mut [Outcome],
    account: Account,
) -> Account
    requires keys { All (λ k. k < 2 ^ pass.old.view.shape.bits) keys.now }
    requires requests { length keys.now ≤ length requests.now }
    requires outcomes { length keys.now ≤ length outcomes.old }
    requires pass { IsPass (face A.parts B.parts) pass.old.view account.leaves account.bits account.next account.left }
    requires counts { HasCounts (changes_of pass.old.view.held) account.inserts account.removals }
    requires budget { length keys.now ≤ account.left }
    ensures table { pass.new.table ≡ pass.old.table }
    ensures rest { drop (length keys.now) outcomes.new ≡ drop (length keys.now) outcomes.old }
    ensures left { LeftAll (face A.parts B.parts) keys.now requests.now outcomes.new pass.old.view (length keys.now) pass.new.view }
    ensures account { IsAccountAfter (length keys.now) account result }
    ensures counts { HasCounts (changes_of pass.new.view.held) result.inserts result.removals }
{
    let mut account = account;
    for place in 0..keys.len() {
        let request = requests[place];
        let done = at_leaf(pass, keys[place], request).outcome;
        outcomes[place] = done;
        account = account.after(request, done);
    }
    account
}

// The highest level at which the ways of two keys are apart, or 0.
#[inline(always)]
pub(crate) fn levels_apart(bits: u32, key: u32, next: u32) -> u32
    ensures { result ≡ apart bits key next }
{
    let mut node = key;
    let mut other = next;
    for level in 0..bits {
        node /= 2;
        other /= 2;
        if node == other {
            return level;
        }
    }
    bits
}

// Goes up the way of each key, but only so far as it is not that of the next key. So of rising keys each node is brought up to its children once, by the
// last key below it.
#[inline(always)]
pub(crate) fn propagate_all<'r, A: Monoid, B: Monoid>(
    pass: WordPass<'r, A, B>,
    leaves: usize,
    bits: u32,
    keys: &[u32],
    number: u64,
) -> WordPass<'r, A, B>
    requires leaves { HasLeaves pass.view.shape leaves }
    requires bits { bits ≡ pass.view.shape.bits }
    requires keys { All (λ k. k < 2 ^ pass.view.shape.bits) keys.now }
    requires knows { KnowsBook (face A.parts B.parts) pass.view }
    requires room { HasRoom pass.view number (length keys.now * bits) }
    requires small { number + length keys.now * bits < 2 ^ 60 }
    ensures table { result.table ≡ pass.entry.table }
    ensures raised { RaisedAll (face A.parts B.parts) keys.now number pass.entry.view result.view }
{
    let mut pass = pass;
    let mut number = number;
    if keys.is_empty() {
        return pass;
    }
    let last = keys.len() - 1;
    for place in 0..last {
        let key = keys[place];
        let levels = levels_apart(bits, key, keys[place + 1]);
        pass = propagate(pass, leaves, levels, key as usize, number);
        number += u64::from(bits);
    }
    propagate(pass, leaves, bits, keys[last] as usize, number)
}
