//! Updates over a pass that knows only its words.
ghost use Rattle.std.specs.Prelude.{◌≡◌, ℕ, ◌+◌, ◌*◌, ◌^◌, ◌<◌, ◌≤◌, Bool, true, false, if◌then◌else◌, length};
ghost use Rattle.aug_core.specs.Faces.{face};
ghost use Rattle.aug_core.specs.Counts.{changes_of};
ghost use Rattle.aug_core.specs.Effects.{KnowsBook};
ghost use Rattle.aug_model.specs.declared.outcome.Outcome.TheVariants as outcome;
ghost use Rattle.aug_trie.specs.inside.Climbing.{UpdatedFrom, FitsRequest};
ghost use Rattle.aug_trie.specs.inside.Goes.{HasLeaves, HasRoom};
ghost use Rattle.aug_trie.specs.LeafWords.{serial_in_word};
ghost use Rattle.aug_trie.specs.Requests.{goes_from, outcome_by, outcome_at_once, word_after as word_of_request, word_left};

use crate::updates::leaf_words::{leaf_serial, leaf_weight, leaf_word};
use crate::updates::propagate::propagate;
use crate::updates::request::Request;
use crate::updates::told::LeafUpdate;
use aug_model::Outcome;
use aug_monoid::Monoid;
use aug_words::WordPass;

// Whether an update goes on from a leaf with this word.
#[inline(always)]
pub(crate) fn goes_on(request: Request, word: u64) -> bool
    ensures { result ≡ goes_from request word }
{
    let odd = leaf_serial(word) % 2 == 1;
    match request {
        Request::Insert => !odd,
        Request::Remove => odd,
        Request::Put(_) => true,
        Request::Add(amount) => amount > 0 && amount <= u32::MAX - leaf_weight(word),
        Request::Sub(amount) => amount > 0 && odd && amount <= leaf_weight(word),
        Request::Take(weight) => odd && leaf_weight(word) == weight,
    }
}

// What an update comes to that does not go on.
#[inline(always)]
pub(crate) fn at_once(request: Request) -> Outcome
    ensures { result ≡ outcome_at_once request }
{
    match request {
        Request::Add(0) | Request::Sub(0) => Outcome::Unchanged,
        Request::Add(_) => Outcome::TooGreat,
        Request::Sub(_) => Outcome::TooLittle,
        _ => Outcome::Refused,
    }
}

// The word that an update makes of that of its leaf. If a key that is there gets another weight, the serial goes past the removal to the
// insertion after it, so that no word ever says that the key was gone.
#[inline(always)]
pub(crate) fn word_after(request: Request, key: u32, word: u64) -> u64
    requires { goes_from request word ≡ true }
    ensures { result ≡ word_of_request request key word }
{
    let serial = leaf_serial(word);
    match request {
        Request::Insert => leaf_word(serial + 1, key),
        Request::Remove => leaf_word(serial + 1, 0),
        Request::Put(weight) => leaf_word(serial + 1 + serial % 2, weight),
        Request::Add(amount) => leaf_word(serial + 1 + serial % 2, leaf_weight(word) + amount),
        Request::Sub(amount) if amount < leaf_weight(word) => {
            leaf_word(serial + 2, leaf_weight(word) - amount)
        }
        Request::Sub(_) | Request::Take(_) => leaf_word(serial + 1, 0),
    }
}

// What an update comes to whose exchange of its leaf's word succeeded, or did not.
#[inline(always)]
pub(crate) fn outcome_of(request: Request, word: u64, done: bool) -> Outcome
    ensures { result ≡ (if done then outcome_by request word else outcome.Refused) }
{
    match request {
        _ if !done => Outcome::Refused,
        Request::Put(_) | Request::Add(_) if leaf_serial(word) % 2 == 1 => Outcome::Replaced,
        Request::Sub(amount) if amount < leaf_weight(word) => Outcome::Replaced,
        _ => Outcome::Accepted,
    }
}

// Changes the leaf of a key as it is asked to, unless its word refuses that, and brings what it is then to the root, whatever it is. The
// pass goes by value, so that all its steps keep it in registers.
#[inline(always)]
pub(crate) fn update<'r, A: Monoid, B: Monoid>(
    pass: WordPass<'r, A, B>,
    leaves: usize,
    bits: u32,
    key: u32,
    number: u64,
    request: Request,
) -> (WordPass<'r, A, B>, LeafUpdate)
    requires leaves { HasLeaves pass.view.shape leaves }
    requires bits { bits ≡ pass.view.shape.bits }
    requires key { key < 2 ^ pass.view.shape.bits }
    requires knows { KnowsBook (face A.parts B.parts) pass.view }
    requires room { HasRoom pass.view number bits }
    requires budget { length (changes_of pass.view.held) + 2 ≤ 2 * pass.view.shape.updates }
    requires small { number + bits < 2 ^ 60 }
    requires fits { FitsRequest request }
    ensures table { result.0.table ≡ pass.entry.table }
    ensures updated { UpdatedFrom (face A.parts B.parts) (number + bits) pass.entry.view key request result.0.view result.1.found result.1.outcome }
    ensures left { result.1.left ≡ word_left request key result.1.found result.1.outcome }
{
    let mut pass = pass;
    let leaf = key as usize;
    let word = pass.begin_at_leaf(leaf);
    if !goes_on(request, word) {
        let outcome = at_once(request);
        let made = LeafUpdate {
            outcome,
            found: word,
            left: word,
        };
        return (propagate(pass, leaves, bits, leaf, number), made);
    }
    let next = word_after(request, key, word);
    let done = pass.try_leaf(leaf, word, next);
    let outcome = outcome_of(request, word, done);
    let left = if done { next } else { word };
    let made = LeafUpdate {
        outcome,
        found: word,
        left,
    };
    (propagate(pass, leaves, bits, leaf, number), made)
}
