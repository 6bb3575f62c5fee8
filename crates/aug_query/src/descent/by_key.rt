//! A query of one key by the steps of the key's way, so that several keys can go down together.
ghost use Rattle.std.specs.Prelude.{◌≡◌, ℕ, ⊤, ◌+◌, ◌*◌, ◌/◌, ◌^◌, refl};
ghost use Rattle.aug_model.specs.Keys.{SetFacts, is_member, list_of};
ghost use Rattle.aug_model.specs.Queries.{rank_of, weight_of};
ghost use Rattle.aug_model.specs.NodeKeys.{first_key};
ghost use Rattle.aug_query.specs.Descend.{Descends};

use super::counts::Rank;
use super::members::{Has, Weight, weight_of_leaf};
use crate::toward::toward;
use crate::{Descend, Query};
use aug_monoid::Monoid;

/// A query of one key, which several keys can ask together: a step of a key's way, and what the end of the way says of the key.
pub trait ByKey<A: Monoid, B: Monoid>: Copy {
    /// What answers it.
    type Value: Copy;

    // The key.
    ghost key_of: { Self → ℕ };

    // The answer for a key of a set.
    ghost value_of: { SetFacts → ℕ → Self.Value };

    // What is known of the number that a way has counted, by how many members come before its node.
    ghost Counts: { ℕ → ℕ → Type 0 };

    // How many nodes a step passes at most.
    ghost passed: { ℕ };

    // No member comes before the top.
    ghost begins: { Counts 0 0 };

    /// The key.
    fn key(&self) -> u32
        ensures { result ≡ key_of self.now };

    /// The answer for one key by itself.
    fn one<D: Descend<A, B>>(tree: &mut D, k: u32) -> Self::Value
        ensures answer { result ≡ value_of (D.set_of tree.old) k }
        ensures descends { Descends D.set_of D.loads_of D.Names D.KeepsRest ((D.set_of tree.old).bits + 1) 1 0 (passed * (D.set_of tree.old).bits) tree.old tree.new };

    /// The child, at this level, that covers `k`, of the node above it that does, and what is counted then.
    fn step<D: Descend<A, B>>(
        tree: &mut D,
        level: u32,
        k: u32,
        node: &D::Name,
        counted: u32,
    ) -> (D::Name, u32)
        requires name { D.Names tree.old (level + 1) (k / 2 ^ (level + 1)) node.now }
        requires counted { Counts counted (rank_of (list_of (D.set_of tree.old)) (first_key (level + 1) (k / 2 ^ (level + 1)))) }
        ensures descends { Descends D.set_of D.loads_of D.Names D.KeepsRest 1 0 0 passed tree.old tree.new }
        ensures name { D.Names tree.new level (k / 2 ^ level) result.0 }
        ensures counted { Counts result.1 (rank_of (list_of (D.set_of tree.old)) (first_key level (k / 2 ^ level))) };

    /// The answer, by the node above the leaf of `k`.
    fn end<D: Descend<A, B>>(tree: &mut D, k: u32, node: &D::Name, counted: u32) -> Self::Value
        requires name { D.Names tree.old 1 (k / 2 ^ 1) node.now }
        requires counted { Counts counted (rank_of (list_of (D.set_of tree.old)) (first_key 1 (k / 2 ^ 1))) }
        ensures answer { result ≡ value_of (D.set_of tree.old) k }
        ensures descends { Descends D.set_of D.loads_of D.Names D.KeepsRest 1 1 0 0 tree.old tree.new };
}

// A way counts the members before its node.
impl<A: Monoid, B: Monoid> ByKey<A, B> for Rank {
    type Value = u32;

    ghost key_of = { λ q. q.0 };

    ghost value_of = { λ set k. rank_of (list_of set) k };

    ghost Counts = { λ counted before. counted ≡ before };

    ghost passed = { 1 };

    ghost begins = { refl };

    #[inline(always)]
    fn key(&self) -> u32 {
        self.0
    }

    #[inline(always)]
    fn one<D: Descend<A, B>>(tree: &mut D, k: u32) -> u32 {
        Rank(k).run(tree)
    }

    #[inline(always)]
    fn step<D: Descend<A, B>>(
        tree: &mut D,
        level: u32,
        k: u32,
        node: &D::Name,
        counted: u32,
    ) -> (D::Name, u32) {
        let right = (k >> level) % 2 == 1;
        let (child, more) = tree.child_past(level, k >> (level + 1), node, right);
        (child, counted + more)
    }

    #[inline(always)]
    fn end<D: Descend<A, B>>(tree: &mut D, k: u32, node: &D::Name, counted: u32) -> u32 {
        let leaf = tree.left(0, k / 2, node);
        let first = tree.count(0, 2 * (k / 2), &leaf);
        if k % 2 == 1 { counted + first } else { counted }
    }
}

// A way counts nothing.
impl<A: Monoid, B: Monoid> ByKey<A, B> for Weight {
    type Value = Option<u32>;

    ghost key_of = { λ q. q.0 };

    ghost value_of = { λ set k. weight_of set.pairs k };

    ghost Counts = { λ counted before. ⊤ };

    ghost passed = { 0 };

    ghost begins = { tt };

    #[inline(always)]
    fn key(&self) -> u32 {
        self.0
    }

    #[inline(always)]
    fn one<D: Descend<A, B>>(tree: &mut D, k: u32) -> Option<u32> {
        Weight(k).run(tree)
    }

    #[inline(always)]
    fn step<D: Descend<A, B>>(
        tree: &mut D,
        level: u32,
        k: u32,
        node: &D::Name,
        counted: u32,
    ) -> (D::Name, u32) {
        (toward(tree, level, k, node), counted)
    }

    #[inline(always)]
    fn end<D: Descend<A, B>>(tree: &mut D, k: u32, node: &D::Name, counted: u32) -> Option<u32> {
        let _ = counted;
        let leaf = toward(tree, 0, k, node);
        weight_of_leaf(tree, k, &leaf)
    }
}

// The way of a weight, with less at its end.
impl<A: Monoid, B: Monoid> ByKey<A, B> for Has {
    type Value = bool;

    ghost key_of = { λ q. q.0 };

    ghost value_of = { λ set k. is_member (list_of set) k };

    ghost Counts = { λ counted before. ⊤ };

    ghost passed = { 0 };

    ghost begins = { tt };

    #[inline(always)]
    fn key(&self) -> u32 {
        self.0
    }

    #[inline(always)]
    fn one<D: Descend<A, B>>(tree: &mut D, k: u32) -> bool {
        Has(k).run(tree)
    }

    #[inline(always)]
    fn step<D: Descend<A, B>>(
        tree: &mut D,
        level: u32,
        k: u32,
        node: &D::Name,
        counted: u32,
    ) -> (D::Name, u32) {
        (toward(tree, level, k, node), counted)
    }

    #[inline(always)]
    fn end<D: Descend<A, B>>(tree: &mut D, k: u32, node: &D::Name, counted: u32) -> bool {
        let _ = counted;
        let leaf = toward(tree, 0, k, node);
        tree.count(0, k, &leaf) > 0
    }
}
