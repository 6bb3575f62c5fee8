//! All members.
ghost use Rattle.std.specs.Prelude.{◌≡◌, ℕ, ◌+◌, ◌*◌, ◌<◌, ◌≤◌, ◌++◌, length, map, IfOk, vec_len, vec_capacity};
ghost use Rattle.aug_model.specs.Keys.{list_of};
ghost use Rattle.aug_model.specs.Queries.{weight_in};
ghost use Rattle.aug_query.specs.Tree.{IsTreeSet};
ghost use Rattle.aug_model.specs.NodeKeys.{keys_below};
ghost use Rattle.aug_query.specs.Descend.{Descends, loads};
ghost use Rattle.aug_query.specs.inside.Paths.{HasCount};

use crate::{Descend, Query};
use aug_monoid::Monoid;
use std::alloc::{AllocError, Global};

/// The members, rising. Room for all of them is made at the beginning, and only that can be refused.
#[derive(Clone, Copy)]
pub struct Keys(pub Global);

impl<A: Monoid, B: Monoid> Query<A, B> for Keys {
    type Answer = Result<Vec<u32>, AllocError>;

    ghost Answers = { λ q set answer. IfOk answer (λ list. list.items ≡ list_of set) × IfOk answer (λ list. vec_capacity list ≡ length (list_of set)) };

    ghost most = { λ q set. loads (2 * set.bits * length (list_of set) + 1) (set.bits * length (list_of set) + 1) 0 0 };

    fn run<D: Descend<A, B>>(self, tree: &mut D) -> Result<Vec<u32>, AllocError> {
        list(self.0, tree)
    }
}

/// The members, rising, each with its weight. Room for all of them is made at the beginning, and only that can be refused.
#[derive(Clone, Copy)]
pub struct Pairs(pub Global);

impl<A: Monoid, B: Monoid> Query<A, B> for Pairs {
    type Answer = Result<Vec<(u32, u32)>, AllocError>;

    ghost Answers = { λ q set answer. IfOk answer (λ list. list.items ≡ set.pairs) × IfOk answer (λ list. vec_capacity list ≡ length set.pairs) };

    ghost most = { λ q set. loads (2 * set.bits * length set.pairs + 1) (set.bits * length set.pairs + 1) 0 0 };

    fn run<D: Descend<A, B>>(self, tree: &mut D) -> Result<Vec<(u32, u32)>, AllocError> {
        list(self.0, tree)
    }
}

/// Puts the members, rising, each with its weight, at the end of `list`, which has room for them.
pub fn append_pairs<A: Monoid, B: Monoid, D: Descend<A, B>>(
    tree: &mut D,
    list: &mut Vec<(u32, u32)>,
)
    requires room { vec_len list.old + length (D.set_of tree.old).pairs ≤ vec_capacity list.old }
    ensures answer { list.new.items ≡ list.old.items ++ (D.set_of tree.old).pairs }
    ensures room { vec_capacity list.new ≡ vec_capacity list.old }
    ensures descends { Descends D.set_of D.loads_of D.Names D.KeepsRest (2 * (D.set_of tree.old).bits * length (D.set_of tree.old).pairs + 1) ((D.set_of tree.old).bits * length (D.set_of tree.old).pairs + 1) 0 0 tree.old tree.new }
{
    let bits = tree.bits();
    let top = tree.top();
    let count = tree.count(bits, 0, &top);
    list_members(tree, bits, 0, &top, count, list);
}

// What a list has of each member.
trait Element: Copy {
    // The element of a key with a weight.
    ghost element_of: { ℕ → ℕ → Self };

    // That element.
    fn of_member(key: u32, weight: u32) -> Self
        ensures { result ≡ element_of key weight };
}

impl Element for u32 {
    ghost element_of = { λ key weight. key };

    fn of_member(key: u32, _weight: u32) -> u32 {
        key
    }
}

impl Element for (u32, u32) {
    ghost element_of = { λ key weight. (key, weight) };

    fn of_member(key: u32, weight: u32) -> (u32, u32) {
        (key, weight)
    }
}

// The elements of all members, rising.
fn list<A: Monoid, B: Monoid, D: Descend<A, B>, E: Element>(
    alloc: Global,
    tree: &mut D,
) -> Result<Vec<E>, AllocError>
    ensures set { IsTreeSet (D.set_of tree.old) }
    ensures answer { IfOk result (λ list. list.items ≡ map (λ k. E.element_of k (weight_in (D.set_of tree.old).pairs k)) (list_of (D.set_of tree.old))) }
    ensures room { IfOk result (λ list. vec_capacity list ≡ length (list_of (D.set_of tree.old))) }
    ensures descends { Descends D.set_of D.loads_of D.Names D.KeepsRest (2 * (D.set_of tree.old).bits * length (list_of (D.set_of tree.old)) + 1) ((D.set_of tree.old).bits * length (list_of (D.set_of tree.old)) + 1) 0 0 tree.old tree.new }
{
    let bits = tree.bits();
    let top = tree.top();
    let count = tree.count(bits, 0, &top);
    let mut list = Vec::with_capacity(alloc, count as usize)?;
    list_members(tree, bits, 0, &top, count, &mut list);
    Ok(list)
}

// Puts the elements of the members that the node at a level and a place covers at the end of `list`, which has room for them. No
// child that covers none is gone into, and only the count of a left child is loaded.
fn list_members<A: Monoid, B: Monoid, D: Descend<A, B>, E: Element>(
    tree: &mut D,
    level: u32,
    place: u32,
    node: &D::Name,
    count: u32,
    list: &mut Vec<E>,
)
    requires node { HasCount (D.Names tree.old) (D.set_of tree.old) level place node.now count }
    requires room { vec_len list.old + count ≤ vec_capacity list.old }
    ensures answer { list.new.items ≡ list.old.items ++ map (λ k. E.element_of k (weight_in (D.set_of tree.old).pairs k)) (keys_below (list_of (D.set_of tree.old)) level place) }
    ensures length { vec_len list.new ≡ vec_len list.old + count }
    ensures room { vec_capacity list.new ≡ vec_capacity list.old }
    ensures descends { Descends D.set_of D.loads_of D.Names D.KeepsRest (2 * level * count) (level * count) 0 0 tree.old tree.new }
{
    if count == 0 {
        return;
    }
    if level == 0 {
        list.push_reserved(E::of_member(place, tree.weight(place, node)));
        return;
    }
    let left = tree.left(level - 1, place, node);
    let below = tree.count(level - 1, 2 * place, &left);
    list_members(tree, level - 1, 2 * place, &left, below, list);
    if below < count {
        let right = tree.right(level - 1, place, node);
        list_members(tree, level - 1, 2 * place + 1, &right, count - below, list);
    }
}
