//! Updates of several keys over a stock, in runs for which it has records.
ghost use Rattle.std.specs.Prelude.{◌≡◌, ◌+◌, ◌-◌, ◌*◌, ◌^◌, ◌<◌, ◌≤◌, All, length, []};
ghost use Rattle.aug_core.specs.Effects.{KnowsBook, MayChange};
ghost use Rattle.aug_core.specs.Faces.{face};
ghost use Rattle.aug_words.specs.Reservations.{MayRetire};
ghost use Rattle.aug_trie.specs.inside.Goes.{HasLeaves};
ghost use Rattle.aug_trie.specs.inside.Lasting.{KeepsStock, ShowsBelow};
ghost use Rattle.aug_trie.specs.inside.LastingRuns.{LeavesRun, LiftsRun, MakesRun, PutsRun, EndsScanned, each_steps, run_steps};

use crate::lasting::lifting::lift_all;
use crate::lasting::working::{has_room, release, reserve};
use crate::updates::batch::{at_leaf, levels_apart};
use crate::updates::request::Request;
use aug_model::Outcome;
use aug_monoid::Monoid;
use aug_words::{Stock, WordPass, Words};

// Changes the leaf of each key of a run as it is asked to, and puts down what that came to.
fn leave_run<A: Monoid, B: Monoid>(
    pass: &mut WordPass<A, B>,
    keys: &[u32],
    requests: &[Request],
    outcomes: &mut [Outcome],
    from: usize,
    to: usize,
)
    requires knows { KnowsBook (face A.parts B.parts) pass.old.view }
    requires may { MayChange pass.old.view }
    requires used { 0 < pass.old.view.shape.reservations }
    requires keys { All (λ k. k < 2 ^ pass.old.view.shape.bits) keys.now }
    requires begins { from ≤ to }
    requires ends { to ≤ length keys.now }
    requires requests { length keys.now ≤ length requests.now }
    requires outcomes { length keys.now ≤ length outcomes.old }
    ensures table { pass.new.table ≡ pass.old.table }
    ensures puts { PutsRun from to outcomes.old outcomes.new }
    ensures leaves { LeavesRun (face A.parts B.parts) keys.now requests.now outcomes.new from to pass.old.view pass.new.view }
{
    for place in from..to {
        let done = at_leaf(pass, keys[place], requests[place]).outcome;
        outcomes[place] = done;
    }
}

// Goes up the way of each key of a run, but only so far as it is not that of the next key. Then what was replaced on the ways may be retired.
fn lift_run<A: Monoid, B: Monoid>(
    pass: &mut WordPass<A, B>,
    stock: &mut Stock,
    words: &Words<A, B>,
    leaves: usize,
    bits: u32,
    keys: &[u32],
    from: usize,
    to: usize,
)
    requires keeps { KeepsStock (face A.parts B.parts) words.now pass.old stock.old }
    requires reserved { 0 < stock.old.era }
    requires leaves { HasLeaves pass.old.view.shape leaves }
    requires bits { bits ≡ pass.old.view.shape.bits }
    requires keys { All (λ k. k < 2 ^ pass.old.view.shape.bits) keys.now }
    requires begins { from < to }
    requires ends { to ≤ length keys.now }
    requires records { (to - from) * bits ≤ stock.old.free }
    requires none { stock.old.replaced ≡ 0 }
    ensures keeps { KeepsStock (face A.parts B.parts) words.now pass.new stock.new }
    ensures lifts { LiftsRun (face A.parts B.parts) keys.now from to pass.old.view pass.new.view }
    ensures later { MayRetire pass.new.view }
{
    let last = to - 1;
    for place in from..last {
        let key = keys[place];
        let levels = levels_apart(bits, key, keys[place + 1]);
        lift_all(pass, stock, words, leaves, levels, key as usize);
    }
    lift_all(pass, stock, words, leaves, bits, keys[last] as usize);
}

// Makes the updates of a run, for which the stock has the records, with an era reserved.
fn update_run<A: Monoid, B: Monoid>(
    pass: &mut WordPass<A, B>,
    stock: &mut Stock,
    words: &Words<A, B>,
    leaves: usize,
    bits: u32,
    keys: &[u32],
    requests: &[Request],
    outcomes: &mut [Outcome],
    from: usize,
    to: usize,
)
    requires keeps { KeepsStock (face A.parts B.parts) words.now pass.old stock.old }
    requires leaves { HasLeaves pass.old.view.shape leaves }
    requires bits { bits ≡ pass.old.view.shape.bits }
    requires keys { All (λ k. k < 2 ^ pass.old.view.shape.bits) keys.now }
    requires begins { from < to }
    requires ends { to ≤ length keys.now }
    requires requests { length keys.now ≤ length requests.now }
    requires outcomes { length keys.now ≤ length outcomes.old }
    requires records { (to - from) * bits ≤ stock.old.free }
    requires none { stock.old.replaced ≡ 0 }
    ensures keeps { KeepsStock (face A.parts B.parts) words.now pass.new stock.new }
    ensures none { stock.new.replaced ≡ 0 }
    ensures rests { stock.new.era ≡ 0 }
    ensures puts { PutsRun from to outcomes.old outcomes.new }
    ensures makes { MakesRun (face A.parts B.parts) keys.now requests.now outcomes.new from to (run_steps (to - from) pass.old.view.shape) pass.old.view pass.new.view }
{
    reserve(pass, stock, words);
    leave_run(pass, keys, requests, outcomes, from, to);
    lift_run(pass, stock, words, leaves, bits, keys, from, to);
    stock.retire(pass, words);
    release(pass, stock, words);
}

// Where a run ends that begins with the key of this index, of so many keys: as far as so many records suffice for whole ways.
fn run_end(from: usize, count: usize, bits: u32, most: usize) -> usize
    requires some { 1 ≤ bits }
    requires begins { from < count }
    requires room { bits ≤ most }
    ensures begins { from < result }
    ensures ends { result ≤ count }
    ensures records { (result - from) * bits ≤ most }
{
    from + (count - from).min(most / bits as usize)
}

// Makes the updates of a batch, in runs that take a quarter of the records at most, or one way. Tells how many were made: all of them, unless the stock had too
// few records for one more. The era goes on and the reservations are loaded where a quarter was taken since that was done.
pub(crate) fn update_runs<A: Monoid, B: Monoid>(
    pass: &mut WordPass<A, B>,
    stock: &mut Stock,
    words: &Words<A, B>,
    leaves: usize,
    bits: u32,
    since: &mut usize,
    keys: &[u32],
    requests: &[Request],
    outcomes: &mut [Outcome],
) -> usize
    requires keeps { KeepsStock (face A.parts B.parts) words.now pass.old stock.old }
    requires leaves { HasLeaves pass.old.view.shape leaves }
    requires bits { bits ≡ pass.old.view.shape.bits }
    requires some { 1 ≤ bits }
    requires keys { All (λ k. k < 2 ^ pass.old.view.shape.bits) keys.now }
    requires requests { length keys.now ≤ length requests.now }
    requires outcomes { length keys.now ≤ length outcomes.old }
    requires none { stock.old.replaced ≡ 0 }
    requires rests { stock.old.era ≡ 0 }
    ensures keeps { KeepsStock (face A.parts B.parts) words.now pass.new stock.new }
    ensures none { stock.new.replaced ≡ 0 }
    ensures rests { stock.new.era ≡ 0 }
    ensures few { result ≤ length keys.now }
    ensures puts { PutsRun 0 result outcomes.old outcomes.new }
    ensures makes { MakesRun (face A.parts B.parts) keys.now requests.now outcomes.new 0 result (length keys.now * each_steps pass.old.view.shape) pass.old.view pass.new.view }
    ensures full { result < length keys.now → (stock.new.free < bits) × EndsScanned pass.old.view pass.new.view stock.new }
{
    let mut made = 0;
    while made < keys.len() {
        let quarter = stock.size() / 4;
        let due = *since >= quarter;
        *since = if due { 0 } else { *since };
        if !has_room(pass, stock, words, bits, due) {
            return made;
        }
        let free = stock.free();
        let most = free.min(quarter.max(bits as usize));
        let to = run_end(made, keys.len(), bits, most);
        update_run(
            pass, stock, words, leaves, bits, keys, requests, outcomes, made, to,
        );
        *since = since.saturating_add(free.saturating_sub(stock.free()));
        made = to;
    }
    made
}
