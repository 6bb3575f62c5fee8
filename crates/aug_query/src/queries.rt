//! The queries on a tree, by name.
ghost use Rattle.std.specs.Prelude.{◌≡◌, ◌+◌, ◌-◌, ◌*◌, length, IfOk, vec_capacity};
ghost use Rattle.aug_model.specs.Folds.{summary_of};
ghost use Rattle.aug_model.specs.Keys.{is_member, list_of};
ghost use Rattle.aug_model.specs.Queries.{rank_of, select_of, before_of, after_of, weight_of, weighted_range_of};
ghost use Rattle.aug_query.specs.Tree.{WalksAtMost};

use crate::descent::{After, Before, Has, Keys, Pairs, Range, Rank, Select, Size, Weight};
use crate::{Tree, ask};
use aug_model::Summary;
use aug_monoid::Monoid;
use std::alloc::{AllocError, Global};

/// Whether `k` is a member of the set of `tree`.
pub fn has<A: Monoid, B: Monoid, T: Tree<A, B>>(tree: &mut T, k: u32) -> bool
    ensures answer { result ≡ is_member (list_of (T.set_of tree.old)) k }
    ensures walks { WalksAtMost T.set_of T.calls_of T.HasNode T.KeepsRest ((T.set_of tree.old).bits + 1) tree.old tree.new }
{
    ask(tree, Has(k))
}

/// The weight of `k` in the set of `tree`, if it is a member.
pub fn weight<A: Monoid, B: Monoid, T: Tree<A, B>>(tree: &mut T, k: u32) -> Option<u32>
    ensures answer { result ≡ weight_of (T.set_of tree.old).pairs k }
    ensures walks { WalksAtMost T.set_of T.calls_of T.HasNode T.KeepsRest ((T.set_of tree.old).bits + 1) tree.old tree.new }
{
    ask(tree, Weight(k))
}

/// How many members the set of `tree` has.
pub fn size<A: Monoid, B: Monoid, T: Tree<A, B>>(tree: &mut T) -> u32
    ensures answer { result ≡ length (list_of (T.set_of tree.old)) }
    ensures walks { WalksAtMost T.set_of T.calls_of T.HasNode T.KeepsRest 1 tree.old tree.new }
{
    ask(tree, Size)
}

/// How many members of the set of `tree` are below `k`.
pub fn rank<A: Monoid, B: Monoid, T: Tree<A, B>>(tree: &mut T, k: u32) -> u32
    ensures answer { result ≡ rank_of (list_of (T.set_of tree.old)) k }
    ensures walks { WalksAtMost T.set_of T.calls_of T.HasNode T.KeepsRest ((T.set_of tree.old).bits + 1) tree.old tree.new }
{
    ask(tree, Rank(k))
}

/// The member of the set of `tree` with exactly `i` members below it, if there is one.
pub fn select<A: Monoid, B: Monoid, T: Tree<A, B>>(tree: &mut T, i: u32) -> Option<u32>
    ensures answer { result ≡ select_of (list_of (T.set_of tree.old)) i }
    ensures walks { WalksAtMost T.set_of T.calls_of T.HasNode T.KeepsRest (2 * (T.set_of tree.old).bits + 1) tree.old tree.new }
{
    ask(tree, Select(i))
}

/// The greatest member of the set of `tree` below `k`, if there is one.
pub fn before<A: Monoid, B: Monoid, T: Tree<A, B>>(tree: &mut T, k: u32) -> Option<u32>
    ensures answer { result ≡ before_of (list_of (T.set_of tree.old)) k }
    ensures walks { WalksAtMost T.set_of T.calls_of T.HasNode T.KeepsRest (3 * (T.set_of tree.old).bits) tree.old tree.new }
{
    ask(tree, Before(k))
}

/// The least member of the set of `tree` above `k`, if there is one.
pub fn after<A: Monoid, B: Monoid, T: Tree<A, B>>(tree: &mut T, k: u32) -> Option<u32>
    ensures answer { result ≡ after_of (list_of (T.set_of tree.old)) k }
    ensures walks { WalksAtMost T.set_of T.calls_of T.HasNode T.KeepsRest (3 * (T.set_of tree.old).bits) tree.old tree.new }
{
    ask(tree, After(k))
}

/// The number and the folds of the members of the set of `tree` from `a` on that are below `b`. If `a >= b` there
/// are none.
pub fn range<A: Monoid, B: Monoid, T: Tree<A, B>>(tree: &mut T, a: u32, b: u32) -> Summary<A, B>
    ensures answer { result ≡ summary_of A.parts B.parts (weighted_range_of (T.set_of tree.old).pairs a b) }
    ensures walks { WalksAtMost T.set_of T.calls_of T.HasNode T.KeepsRest (4 * (T.set_of tree.old).bits - 1) tree.old tree.new }
{
    ask(tree, Range(a, b))
}

/// The members of the set of `tree`, rising. Room for all of them is made at the beginning, and only that can be
/// refused.
pub fn keys<A: Monoid, B: Monoid, T: Tree<A, B>>(
    alloc: Global,
    tree: &mut T,
) -> Result<Vec<u32>, AllocError>
    ensures answer { IfOk result (λ list. list.items ≡ list_of (T.set_of tree.old)) }
    ensures room { IfOk result (λ list. vec_capacity list ≡ length (list_of (T.set_of tree.old))) }
    ensures walks { WalksAtMost T.set_of T.calls_of T.HasNode T.KeepsRest (2 * (T.set_of tree.old).bits * length (list_of (T.set_of tree.old)) + 1) tree.old tree.new }
{
    ask(tree, Keys(alloc))
}

/// The members of the set of `tree`, rising, each with its weight. Room for all of them is made at the beginning,
/// and only that can be refused.
pub fn pairs<A: Monoid, B: Monoid, T: Tree<A, B>>(
    alloc: Global,
    tree: &mut T,
) -> Result<Vec<(u32, u32)>, AllocError>
    ensures answer { IfOk result (λ list. list.items ≡ (T.set_of tree.old).pairs) }
    ensures room { IfOk result (λ list. vec_capacity list ≡ length (T.set_of tree.old).pairs) }
    ensures walks { WalksAtMost T.set_of T.calls_of T.HasNode T.KeepsRest (2 * (T.set_of tree.old).bits * length (T.set_of tree.old).pairs + 1) tree.old tree.new }
{
    ask(tree, Pairs(alloc))
}
