//! The nearest members beside a key.
ghost use Rattle.std.specs.Prelude.{◌≡◌, ◌+◌, ◌*◌, ◌/◌, ◌<◌, Some, length};
ghost use Rattle.aug_model.specs.Keys.{list_of};
ghost use Rattle.aug_model.specs.Queries.{rank_of, before_of, after_of, last_of};
ghost use Rattle.aug_model.specs.NodeKeys.{keys_below};
ghost use Rattle.aug_query.specs.Descend.{Descends, loads};
ghost use Rattle.aug_query.specs.inside.Paths.{ReachesNode};
ghost use Rattle.aug_query.specs.inside.InOrder.{head_of, start_of};

use crate::toward::{toward_from_left, toward_from_right, universe};
use crate::{Descend, Query};
use aug_monoid::Monoid;

/// The greatest member below a key, if there is one. On the way down to the key it counts the members that it passes, and it
/// descends once more below the last node at which it passed some.
#[derive(Clone, Copy)]
pub struct Before(pub u32);

impl<A: Monoid, B: Monoid> Query<A, B> for Before {
    type Answer = Option<u32>;

    ghost Answers = { λ q set answer. answer ≡ before_of (list_of set) q.0 };

    ghost most = { λ q set. loads (3 * set.bits) (set.bits + 1) 0 set.bits };

    #[inline(always)]
    fn run<D: Descend<A, B>>(self, tree: &mut D) -> Option<u32> {
        let Before(k) = self;
        let mut level = tree.bits();
        let mut node = tree.top();
        if universe(tree) <= k {
            return last_below(tree, level, node);
        }
        let mut parent = None;
        while level > 0 {
            level -= 1;
            let (child, before) = toward_from_left(tree, level, k, &node);
            if before > 0 {
                parent = Some((level, node));
            }
            node = child;
        }
        let (level, node) = parent?;
        let place = k >> (level + 1);
        let left = tree.left(level, place, &node);
        Some(nearest(tree, Order::Falling, level, 2 * place, left))
    }
}

/// The least member above a key, if there is one. It goes the way of `Before`, with the sides exchanged.
#[derive(Clone, Copy)]
pub struct After(pub u32);

impl<A: Monoid, B: Monoid> Query<A, B> for After {
    type Answer = Option<u32>;

    ghost Answers = { λ q set answer. answer ≡ after_of (list_of set) q.0 };

    ghost most = { λ q set. loads (3 * set.bits) (set.bits + 1) 0 set.bits };

    #[inline(always)]
    fn run<D: Descend<A, B>>(self, tree: &mut D) -> Option<u32> {
        let After(k) = self;
        if universe(tree) <= k {
            return None;
        }
        let mut level = tree.bits();
        let mut node = tree.top();
        let mut parent = None;
        while level > 0 {
            level -= 1;
            let (child, after) = toward_from_right(tree, level, k, &node);
            if after > 0 {
                parent = Some((level, node));
            }
            node = child;
        }
        let (level, node) = parent?;
        let place = k >> (level + 1);
        let right = tree.right(level, place, &node);
        Some(nearest(tree, Order::Rising, level, 2 * place + 1, right))
    }
}

// The greatest member of all, if there is one: the top is at this level.
#[inline(always)]
fn last_below<A: Monoid, B: Monoid, D: Descend<A, B>>(
    tree: &mut D,
    level: u32,
    top: D::Name,
) -> Option<u32>
    requires level { level ≡ (D.set_of tree.old).bits }
    requires name { D.Names tree.old level 0 top }
    ensures answer { result ≡ last_of (list_of (D.set_of tree.old)) }
    ensures descends { Descends D.set_of D.loads_of D.Names D.KeepsRest (2 * level) (level + 1) 0 0 tree.old tree.new }
{
    if tree.count(level, 0, &top) == 0 {
        return None;
    }
    Some(nearest(tree, Order::Falling, level, 0, top))
}

// The order in which members come.
#[derive(Clone, Copy)]
pub(super) enum Order {
    Rising,
    Falling,
}

// The member that comes first of those that the node at a level and a place covers. There is at least one.
#[inline(always)]
fn nearest<A: Monoid, B: Monoid, D: Descend<A, B>>(
    tree: &mut D,
    order: Order,
    mut level: u32,
    mut place: u32,
    mut node: D::Name,
) -> u32
    requires name { D.Names tree.old level place node }
    requires some { 0 < length (keys_below (list_of (D.set_of tree.old)) level place) }
    ensures answer { Some result ≡ head_of order (keys_below (list_of (D.set_of tree.old)) level place) }
    ensures descends { Descends D.set_of D.loads_of D.Names D.KeepsRest (2 * level) level 0 0 tree.old tree.new }
{
    while level > 0 {
        level -= 1;
        let (child, at) = nearest_child(tree, order, level, place, &node);
        node = child;
        place = at;
    }
    place
}

// The child with the member that comes first, and its place.
#[inline(always)]
pub(super) fn nearest_child<A: Monoid, B: Monoid, D: Descend<A, B>>(
    tree: &mut D,
    order: Order,
    level: u32,
    place: u32,
    node: &D::Name,
) -> (D::Name, u32)
    requires name { D.Names tree.old (level + 1) place node.now }
    requires some { 0 < length (keys_below (list_of (D.set_of tree.old)) (level + 1) place) }
    ensures child { ReachesNode D.set_of D.loads_of D.Names D.KeepsRest 2 1 0 0 level result.1 tree.old result.0 tree.new }
    ensures some { 0 < length (keys_below (list_of (D.set_of tree.old)) level result.1) }
    ensures place { result.1 / 2 ≡ place }
    ensures start { rank_of (list_of (D.set_of tree.old)) (start_of order level result.1) ≡ rank_of (list_of (D.set_of tree.old)) (start_of order (level + 1) place) }
    ensures same { head_of order (keys_below (list_of (D.set_of tree.old)) level result.1) ≡ head_of order (keys_below (list_of (D.set_of tree.old)) (level + 1) place) }
{
    match order {
        Order::Rising => {
            let left = tree.left(level, place, node);
            if tree.count(level, 2 * place, &left) > 0 {
                return (left, 2 * place);
            }
            (tree.right(level, place, node), 2 * place + 1)
        }
        Order::Falling => {
            let right = tree.right(level, place, node);
            if tree.count(level, 2 * place + 1, &right) > 0 {
                return (right, 2 * place + 1);
            }
            (tree.left(level, place, node), 2 * place)
        }
    }
}
