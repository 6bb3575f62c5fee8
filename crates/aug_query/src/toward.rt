//! Single steps of a descent to a key: the node at a level that covers the key `k` is at the place `k >> level`.
ghost use Rattle.std.specs.Prelude.{◌≡◌, ◌+◌, ◌*◌, ◌/◌, ◌^◌, ◌<◌};
ghost use Rattle.aug_model.specs.Keys.{list_of};
ghost use Rattle.aug_model.specs.Queries.{rank_of};
ghost use Rattle.aug_query.specs.Tree.{IsTreeSet};
ghost use Rattle.aug_model.specs.NodeKeys.{first_key, end_key};
ghost use Rattle.aug_query.specs.inside.Paths.{ReachesNode};

use crate::Descend;
use aug_monoid::Monoid;

// How many keys there are below `2^bits`.
#[inline(always)]
pub(crate) fn universe<A: Monoid, B: Monoid, D: Descend<A, B>>(tree: &D) -> u32
    ensures value { result ≡ 2 ^ (D.set_of tree.now).bits }
    ensures set { IsTreeSet (D.set_of tree.now) }
{
    1 << tree.bits()
}

// The child, at this level, that covers `k`, of the node above it that does.
#[inline(always)]
pub(crate) fn toward<A: Monoid, B: Monoid, D: Descend<A, B>>(
    tree: &mut D,
    level: u32,
    k: u32,
    node: &D::Name,
) -> D::Name
    requires { D.Names tree.old (level + 1) (k / 2 ^ (level + 1)) node.now }
    ensures { ReachesNode D.set_of D.loads_of D.Names D.KeepsRest 1 0 0 0 level (k / 2 ^ level) tree.old result tree.new }
{
    let place = k >> (level + 1);
    if (k >> level) % 2 == 0 {
        tree.left(level, place, node)
    } else {
        tree.right(level, place, node)
    }
}

// The same, and how many members the node covers before those of that child.
#[inline(always)]
pub(crate) fn toward_from_left<A: Monoid, B: Monoid, D: Descend<A, B>>(
    tree: &mut D,
    level: u32,
    k: u32,
    node: &D::Name,
) -> (D::Name, u32)
    requires { D.Names tree.old (level + 1) (k / 2 ^ (level + 1)) node.now }
    ensures child { ReachesNode D.set_of D.loads_of D.Names D.KeepsRest 1 0 0 1 level (k / 2 ^ level) tree.old result.0 tree.new }
    ensures before { rank_of (list_of (D.set_of tree.old)) (first_key level (k / 2 ^ level)) ≡ rank_of (list_of (D.set_of tree.old)) (first_key (level + 1) (k / 2 ^ (level + 1))) + result.1 }
    ensures right { 0 < result.1 → k / 2 ^ level ≡ 2 * (k / 2 ^ (level + 1)) + 1 }
{
    let place = k >> (level + 1);
    if (k >> level) % 2 == 0 {
        (tree.left(level, place, node), 0)
    } else {
        tree.past_left(level, place, node)
    }
}

// The same, and how many members the node covers after those of that child.
#[inline(always)]
pub(crate) fn toward_from_right<A: Monoid, B: Monoid, D: Descend<A, B>>(
    tree: &mut D,
    level: u32,
    k: u32,
    node: &D::Name,
) -> (D::Name, u32)
    requires { D.Names tree.old (level + 1) (k / 2 ^ (level + 1)) node.now }
    ensures child { ReachesNode D.set_of D.loads_of D.Names D.KeepsRest 1 0 0 1 level (k / 2 ^ level) tree.old result.0 tree.new }
    ensures after { rank_of (list_of (D.set_of tree.old)) (end_key level (k / 2 ^ level)) + result.1 ≡ rank_of (list_of (D.set_of tree.old)) (end_key (level + 1) (k / 2 ^ (level + 1))) }
    ensures left { 0 < result.1 → k / 2 ^ level ≡ 2 * (k / 2 ^ (level + 1)) }
{
    let place = k >> (level + 1);
    if (k >> level) % 2 == 0 {
        tree.past_right(level, place, node)
    } else {
        (tree.right(level, place, node), 0)
    }
}
