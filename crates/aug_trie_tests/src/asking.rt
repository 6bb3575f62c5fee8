//! What the passes of a script ask of their snapshots.
ghost use Rattle.std.specs.Prelude.{◌≡◌, ◌^◌};
ghost use Rattle.aug_trie.specs.Snapshot.{HasSnapshot};

use aug_monoid::{Extent, Sum};
use aug_query::descent::{After, Before, Has, Keys, Pairs, Range, Rank, Select, Size, Weight};
use aug_trie::{Pass, Snapshot};
use aug_trie_testing::asked;
use aug_trie_testing::rows::{
    Act, Change, Reply, folded, request_of, stands, told_keys, told_pairs,
};
use std::alloc::Global;

// How many members a new snapshot of the pass shows.
pub(super) fn seen_size(pass: &mut Pass<Sum, Extent>) -> u32
    ensures { pass.new.round ≡ pass.old.round }
{
    let snapshot = pass.snapshot();
    pass.ask(snapshot, Size)
}

// What a query answers on a new snapshot.
fn look(pass: &mut Pass<Sum, Extent>, alloc: Global, act: Act) -> Reply
    ensures { pass.new.round ≡ pass.old.round }
{
    let snapshot = pass.snapshot();
    asked!(act, alloc, pass.ask(snapshot,))
}

// What a pass looks at.
pub(super) fn look_closer(
    pass: &mut Pass<Sum, Extent>,
    alloc: Global,
    universe: u32,
    act: Act,
) -> Reply
    requires { universe ≡ 2 ^ pass.old.round.bits }
    ensures { pass.new.round ≡ pass.old.round }
{
    match act {
        Act::Left | Act::Right => child(pass, act),
        Act::KeptOver(changes) => kept_over(pass, universe, changes),
        Act::PassesOver(from) => passes_over(pass, from),
        _ => look(pass, alloc, act),
    }
}

// Each of some updates, as long as one is left. A snapshot is one still.
fn set_all(pass: &mut Pass<Sum, Extent>, s: Snapshot, universe: u32, changes: &[Change])
    requires universe { universe ≡ 2 ^ pass.old.round.bits }
    requires snapshot { HasSnapshot pass.old s }
    ensures round { pass.new.round ≡ pass.old.round }
    ensures snapshot { HasSnapshot pass.new s }
{
    let _ = s;
    for change in changes {
        if let Some((k, request)) = request_of(*change) {
            if k < universe && pass.budget() > 0 {
                pass.update(k, request);
            }
        }
    }
}

// How many members a snapshot shows before and after some updates, and whether it has 1.
fn kept_over(pass: &mut Pass<Sum, Extent>, universe: u32, changes: &[Change]) -> Reply
    requires { universe ≡ 2 ^ pass.old.round.bits }
    ensures { pass.new.round ≡ pass.old.round }
{
    let s = pass.snapshot();
    let before = (pass.ask(s, Size), pass.ask(s, Has(1)));
    set_all(pass, s, universe, changes);
    Reply::Kept(before, (pass.ask(s, Size), pass.ask(s, Has(1))))
}

// What a cursor passes on from a key, on once more behind a newer snapshot, and back.
fn passes_over(pass: &mut Pass<Sum, Extent>, from: u32) -> Reply
    ensures { pass.new.round ≡ pass.old.round }
{
    let s = pass.snapshot();
    let mut at = pass.cursor_from(s, from);
    let first = pass.next(&mut at);
    pass.snapshot();
    let next = pass.next(&mut at);
    Reply::Listed(first, next, pass.previous(&mut at))
}

// Where a child of the top of a new snapshot's tree stands, and what it covers.
fn child(pass: &mut Pass<Sum, Extent>, act: Act) -> Reply
    ensures { pass.new.round ≡ pass.old.round }
{
    let snapshot = pass.snapshot();
    let top = pass.top(&snapshot);
    if top.level() == 0 {
        return Reply::Not;
    }
    let node = if matches!(act, Act::Left) {
        pass.left(&top)
    } else {
        pass.right(&top)
    };
    stands(node.level(), node.place(), node.summary())
}
