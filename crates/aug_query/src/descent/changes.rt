//! What changed between two sets.
ghost use Rattle.std.specs.Prelude.{◌≡◌, ◌+◌, ◌-◌, ◌*◌, ◌<◌, ◌++◌, length, max, take};
ghost use Rattle.aug_model.specs.Differences.{changes_from, differences_in};
ghost use Rattle.aug_model.specs.NodeKeys.{first_key, end_key};
ghost use Rattle.aug_query.specs.DescendBoth.{DescendsBoth, differing_nodes, nodes_that_differ};

use crate::DescendBoth;
use arrayvec::ArrayVec;
use aug_model::Difference;

/// A page of changes between two sets, at most 32 of them.
pub type Changes = ArrayVec<Difference, 32>;

/// The first 32 changes among the keys from `from` on, rising, or all of them if there are fewer. The next page begins at the last of these keys plus
/// one, and a page that is not full is the last. Children are loaded only below nodes that differ: at most both children, of both trees.
pub fn next_changes<D: DescendBoth>(trees: &mut D, from: u32) -> Changes
    ensures answer { result.items ≡ take 32 (changes_from (D.both_of trees.old).earlier (D.both_of trees.old).later from) }
    ensures descends { DescendsBoth D.both_of D.loads_of D.Names D.KeepsRest (2 * differing_nodes (D.both_of trees.old) from) trees.old trees.new }
{
    let bits = trees.bits();
    let tops = trees.tops();
    let mut page = ArrayVec::new();
    append_changes(trees, from, bits, 0, &tops, &mut page);
    page
}

// Appends to a page the changes of the keys from `from` on that the nodes at a level and a place cover, as many as it has room for. Children whose keys
// are all below `from` are not loaded.
fn append_changes<D: DescendBoth>(
    trees: &mut D,
    from: u32,
    level: u32,
    place: u32,
    nodes: &D::Name,
    page: &mut Changes,
)
    requires { D.Names trees.old level place nodes.now }
    ensures answer { page.new.items ≡ page.old.items ++ take (32 - length page.old.items) (differences_in (D.both_of trees.old).earlier.pairs (D.both_of trees.old).later.pairs (max (first_key level place) from) (end_key level place)) }
    ensures descends { DescendsBoth D.both_of D.loads_of D.Names D.KeepsRest (2 * nodes_that_differ (D.both_of trees.old).same from level place) trees.old trees.new }
{
    if page.is_full() || from >> level > place || trees.same(level, place, nodes) {
        return;
    }
    if level == 0 {
        append_change(trees, place, nodes, page);
        return;
    }
    let left = 2 * place;
    if from >> (level - 1) > left {
        let children = trees.rights(level - 1, place, nodes);
        append_changes(trees, from, level - 1, left + 1, &children, page);
        return;
    }
    let children = trees.lefts(level - 1, place, nodes);
    append_changes(trees, from, level - 1, left, &children, page);
    if page.is_full() {
        return;
    }
    let children = trees.rights(level - 1, place, nodes);
    append_changes(trees, from, level - 1, left + 1, &children, page);
}

// Appends the change of one key, if there is one, to a page that has room.
fn append_change<D: DescendBoth>(trees: &D, place: u32, nodes: &D::Name, page: &mut Changes)
    requires name { D.Names trees.now 0 place nodes.now }
    requires room { length page.old.items < 32 }
    ensures answer { page.new.items ≡ page.old.items ++ differences_in (D.both_of trees.now).earlier.pairs (D.both_of trees.now).later.pairs place (place + 1) }
{
    let (before, after) = trees.weights(place, nodes);
    if before != after {
        page.push(Difference {
            key: place,
            before,
            after,
        });
    }
}
