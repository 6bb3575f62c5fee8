//! A cursor: a place between members, from which they are told one after the other, both ways.
ghost use Rattle.std.specs.Prelude.{◌≡◌, ◌+◌, ◌-◌, ◌*◌, ◌/◌, ◌^◌, ◌<◌, ◌==◌, if◌then◌else◌, Some, None, [], length, min, IfSome, IfNone};
ghost use Rattle.aug_model.specs.Keys.{list_of};
ghost use Rattle.aug_model.specs.Queries.{rank_of, weight_of};
ghost use Rattle.aug_model.specs.NodeKeys.{first_key, end_key, keys_below};
ghost use Rattle.aug_query.specs.Yields.{YieldsNext, YieldsPrevious};
ghost use Rattle.aug_query.specs.Descend.{Descends};
ghost use Rattle.aug_query.specs.inside.InOrder.{start_of, start_at};
ghost use Rattle.aug_query.specs.inside.Paths.{ReachesNode, IsPath, IsCursor, IsRightOf, IsLeftOf};

use super::members::weight_of_leaf;
use super::neighbours::{Order, nearest_child};
use crate::Descend;
use crate::toward::{toward, universe};
use arrayvec::ArrayVec;
use aug_monoid::Monoid;

/// A gap between members of the tree of a set: before all of them, behind all of them, or between two. It is moved over a member at a
/// time, either way, and takes no memory: what it keeps are the names of the nodes on the way to a key beside the gap. So a call goes no
/// further up than it has to.
#[derive(Drop)]
pub struct Cursor<N: Drop> {
    // The nodes on the way from the top to the leaf of `key`, without that leaf.
    path: ArrayVec<Option<N>, 16>,
    // The key before the gap, or the one behind it.
    key: u32,
    // Its weight, if it is a member.
    weight: Option<u32>,
    // The members below this are before the gap, and the others behind it.
    gap: u32,
}

impl<N: Drop> Cursor<N> {
    /// The gap before the first member from `k` on, or behind all members if there is none.
    pub fn from<A: Monoid, B: Monoid, D: Descend<A, B, Name = N>>(tree: &mut D, k: u32) -> Cursor<N>
        ensures of_tree { IsCursor (D.Names tree.new) (D.set_of tree.new) result }
        ensures gap { result.gap ≡ min k (2 ^ (D.set_of tree.old).bits) }
        ensures descends { Descends D.set_of D.loads_of D.Names D.KeepsRest ((D.set_of tree.old).bits + 1) 1 0 0 tree.old tree.new }
    {
        let all = universe(tree);
        let gap = k.min(all);
        let key = gap.min(all - 1);
        let mut path = ArrayVec::new();
        let leaf = way_to(tree, key, &mut path);
        let weight = weight_of_leaf(tree, key, &leaf);
        Cursor {
            path,
            key,
            weight,
            gap,
        }
    }

    /// Passes the member behind the gap, and gives it with its weight. If there is none, the gap stays where it is.
    pub fn next<A: Monoid, B: Monoid, D: Descend<A, B, Name = N>>(
        &mut self,
        tree: &mut D,
    ) -> Option<(u32, u32)>
        requires of_tree { IsCursor (D.Names tree.old) (D.set_of tree.old) self.old }
        ensures of_tree { IsCursor (D.Names tree.new) (D.set_of tree.new) self.new }
        ensures answer { YieldsNext (D.set_of tree.old) self.old.gap self.new.gap result }
        ensures descends { Descends D.set_of D.loads_of D.Names D.KeepsRest (3 * (D.set_of tree.old).bits - 2) (2 * (D.set_of tree.old).bits - 1) 0 0 tree.old tree.new }
    {
        if let Some(weight) = self.weight_behind() {
            self.gap = self.key + 1;
            return Some((self.key, weight));
        }
        let (level, node) = right_of(tree, self.path.as_slice(), self.key)?;
        let mut path = self.path.take();
        path.truncate(path.len() - level as usize);
        let place = (self.key >> level) + 1;
        let (key, weight) = down_to(tree, Order::Rising, level, place, node, &mut path);
        *self = Cursor {
            path,
            key,
            weight: Some(weight),
            gap: key + 1,
        };
        Some((key, weight))
    }

    /// Passes the member before the gap, and gives it with its weight. If there is none, the gap stays where it is.
    pub fn previous<A: Monoid, B: Monoid, D: Descend<A, B, Name = N>>(
        &mut self,
        tree: &mut D,
    ) -> Option<(u32, u32)>
        requires of_tree { IsCursor (D.Names tree.old) (D.set_of tree.old) self.old }
        ensures of_tree { IsCursor (D.Names tree.new) (D.set_of tree.new) self.new }
        ensures answer { YieldsPrevious (D.set_of tree.old) self.old.gap self.new.gap result }
        ensures descends { Descends D.set_of D.loads_of D.Names D.KeepsRest (3 * (D.set_of tree.old).bits - 2) (2 * (D.set_of tree.old).bits - 1) 0 0 tree.old tree.new }
    {
        if let Some(weight) = self.weight_before() {
            self.gap = self.key;
            return Some((self.key, weight));
        }
        let (level, node) = left_of(tree, self.path.as_slice(), self.key)?;
        let mut path = self.path.take();
        path.truncate(path.len() - level as usize);
        let place = (self.key >> level) - 1;
        let (key, weight) = down_to(tree, Order::Falling, level, place, node, &mut path);
        *self = Cursor {
            path,
            key,
            weight: Some(weight),
            gap: key,
        };
        Some((key, weight))
    }

    // What the key weighs, if it is a member behind the gap.
    fn weight_behind(&self) -> Option<u32>
        ensures { result ≡ (if self.now.gap == self.now.key then self.now.weight else None) }
    {
        if self.gap == self.key {
            self.weight
        } else {
            None
        }
    }

    // What the key weighs, if it is a member before the gap.
    fn weight_before(&self) -> Option<u32>
        ensures { result ≡ (if self.now.gap == self.now.key then None else self.now.weight) }
    {
        if self.gap == self.key {
            None
        } else {
            self.weight
        }
    }
}

// The leaf of a key, with the nodes above it put on the path.
fn way_to<A: Monoid, B: Monoid, D: Descend<A, B>>(
    tree: &mut D,
    key: u32,
    path: &mut ArrayVec<Option<D::Name>, 16>,
) -> D::Name
    requires key { key < 2 ^ (D.set_of tree.old).bits }
    requires empty { path.old.items ≡ [] }
    ensures path { IsPath (D.Names tree.new) (D.set_of tree.old).bits 0 key path.new.items }
    ensures leaf { ReachesNode D.set_of D.loads_of D.Names D.KeepsRest ((D.set_of tree.old).bits + 1) 0 0 0 0 key tree.old result tree.new }
{
    let mut level = tree.bits();
    let mut node = tree.top();
    while level > 0 {
        level -= 1;
        let child = toward(tree, level, key, &node);
        path.push(Some(node));
        node = child;
    }
    node
}

// The lowest node to the right of the way to a key that covers members, and its level, if there is one.
fn right_of<A: Monoid, B: Monoid, D: Descend<A, B>>(
    tree: &mut D,
    path: &[Option<D::Name>],
    key: u32,
) -> Option<(u32, D::Name)>
    requires key { key < 2 ^ (D.set_of tree.old).bits }
    requires path { IsPath (D.Names tree.old) (D.set_of tree.old).bits 0 key path.now }
    ensures found { IfSome result (λ r. IsRightOf (D.Names tree.new) (D.set_of tree.old) key r.0 r.1) }
    ensures first { IfSome result (λ r. rank_of (list_of (D.set_of tree.old)) (first_key r.0 (key / 2 ^ r.0 + 1)) ≡ rank_of (list_of (D.set_of tree.old)) (key + 1)) }
    ensures none { IfNone result (rank_of (list_of (D.set_of tree.old)) (2 ^ (D.set_of tree.old).bits) ≡ rank_of (list_of (D.set_of tree.old)) (key + 1)) }
    ensures descends { Descends D.set_of D.loads_of D.Names D.KeepsRest (D.set_of tree.old).bits (D.set_of tree.old).bits 0 0 tree.old tree.new }
{
    let bits = tree.bits();
    let mut level = 0;
    while level < bits {
        if let Some(node) = right_at(tree, path, key, level) {
            return Some((level, node));
        }
        level += 1;
    }
    None
}

// The right neighbour, at a level, of the node that covers a key, if it has the same parent and covers members.
fn right_at<A: Monoid, B: Monoid, D: Descend<A, B>>(
    tree: &mut D,
    path: &[Option<D::Name>],
    key: u32,
    level: u32,
) -> Option<D::Name>
    requires level { level < (D.set_of tree.old).bits }
    requires path { IsPath (D.Names tree.old) (D.set_of tree.old).bits 0 key path.now }
    ensures found { IfSome result (λ node. IsRightOf (D.Names tree.new) (D.set_of tree.old) key level node) }
    ensures none { IfNone result (rank_of (list_of (D.set_of tree.old)) (end_key (level + 1) (key / 2 ^ (level + 1))) ≡ rank_of (list_of (D.set_of tree.old)) (end_key level (key / 2 ^ level))) }
    ensures descends { Descends D.set_of D.loads_of D.Names D.KeepsRest 1 1 0 0 tree.old tree.new }
{
    if (key >> level) % 2 == 1 {
        return None;
    }
    let Some(node) = &path[path.len() - 1 - level as usize] else {
        unreachable!()
    };
    let place = key >> (level + 1);
    let right = tree.right(level, place, node);
    if tree.count(level, 2 * place + 1, &right) == 0 {
        return None;
    }
    Some(right)
}

// The lowest node to the left of the way to a key that covers members, and its level, if there is one.
fn left_of<A: Monoid, B: Monoid, D: Descend<A, B>>(
    tree: &mut D,
    path: &[Option<D::Name>],
    key: u32,
) -> Option<(u32, D::Name)>
    requires key { key < 2 ^ (D.set_of tree.old).bits }
    requires path { IsPath (D.Names tree.old) (D.set_of tree.old).bits 0 key path.now }
    ensures found { IfSome result (λ r. IsLeftOf (D.Names tree.new) (D.set_of tree.old) key r.0 r.1) }
    ensures last { IfSome result (λ r. rank_of (list_of (D.set_of tree.old)) (end_key r.0 (key / 2 ^ r.0 - 1)) ≡ rank_of (list_of (D.set_of tree.old)) key) }
    ensures none { IfNone result (rank_of (list_of (D.set_of tree.old)) key ≡ 0) }
    ensures descends { Descends D.set_of D.loads_of D.Names D.KeepsRest (D.set_of tree.old).bits (D.set_of tree.old).bits 0 0 tree.old tree.new }
{
    let bits = tree.bits();
    let mut level = 0;
    while level < bits {
        if let Some(node) = left_at(tree, path, key, level) {
            return Some((level, node));
        }
        level += 1;
    }
    None
}

// The left neighbour, at a level, of the node that covers a key, if it has the same parent and covers members.
fn left_at<A: Monoid, B: Monoid, D: Descend<A, B>>(
    tree: &mut D,
    path: &[Option<D::Name>],
    key: u32,
    level: u32,
) -> Option<D::Name>
    requires level { level < (D.set_of tree.old).bits }
    requires path { IsPath (D.Names tree.old) (D.set_of tree.old).bits 0 key path.now }
    ensures found { IfSome result (λ node. IsLeftOf (D.Names tree.new) (D.set_of tree.old) key level node) }
    ensures none { IfNone result (rank_of (list_of (D.set_of tree.old)) (first_key (level + 1) (key / 2 ^ (level + 1))) ≡ rank_of (list_of (D.set_of tree.old)) (first_key level (key / 2 ^ level))) }
    ensures descends { Descends D.set_of D.loads_of D.Names D.KeepsRest 1 1 0 0 tree.old tree.new }
{
    if (key >> level) % 2 == 0 {
        return None;
    }
    let Some(node) = &path[path.len() - 1 - level as usize] else {
        unreachable!()
    };
    let place = key >> (level + 1);
    let left = tree.left(level, place, node);
    if tree.count(level, 2 * place, &left) == 0 {
        return None;
    }
    Some(left)
}

// The member that comes first of those that a node covers, with its weight, and the nodes on the way there put on the path.
#[inline(always)]
fn down_to<A: Monoid, B: Monoid, D: Descend<A, B>>(
    tree: &mut D,
    order: Order,
    mut level: u32,
    mut place: u32,
    mut node: D::Name,
    path: &mut ArrayVec<Option<D::Name>, 16>,
) -> (u32, u32)
    requires name { D.Names tree.old level place node }
    requires some { 0 < length (keys_below (list_of (D.set_of tree.old)) level place) }
    requires path { IsPath (D.Names tree.old) (D.set_of tree.old).bits level place path.old.items }
    ensures path { IsPath (D.Names tree.new) (D.set_of tree.old).bits 0 result.0 path.new.items }
    ensures within { result.0 < 2 ^ (D.set_of tree.old).bits }
    ensures start { rank_of (list_of (D.set_of tree.old)) (start_at order result.0) ≡ rank_of (list_of (D.set_of tree.old)) (start_of order level place) }
    ensures weight { Some result.1 ≡ weight_of (D.set_of tree.old).pairs result.0 }
    ensures descends { Descends D.set_of D.loads_of D.Names D.KeepsRest (2 * level) level 0 0 tree.old tree.new }
{
    while level > 0 {
        level -= 1;
        let (child, at) = nearest_child(tree, order, level, place, &node);
        path.push(Some(node));
        node = child;
        place = at;
    }
    (place, tree.weight(place, &node))
}
