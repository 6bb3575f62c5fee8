//! The summary of the members of an interval.
ghost use Rattle.std.specs.Prelude.{◌≡◌, ℕ, ◌+◌, ◌-◌, ◌*◌, ◌/◌, ◌^◌, ◌<◌, ◌≤◌};
ghost use Rattle.aug_model.specs.Folds.{summary_of};
ghost use Rattle.aug_model.specs.Keys.{list_of};
ghost use Rattle.aug_model.specs.Queries.{range_of, weighted_range_of};
ghost use Rattle.aug_query.specs.Tree.{sum_of};
ghost use Rattle.aug_model.specs.NodeKeys.{first_key, end_key};
ghost use Rattle.aug_query.specs.Descend.{Descends, loads};
ghost use Rattle.aug_query.specs.inside.Paths.{ReachesNode};

use crate::summaries::{joined, of_none};
use crate::toward::{toward, universe};
use crate::{Descend, Query};
use aug_model::Summary;
use aug_monoid::Monoid;

/// The number and the folds of the members from the first key on that are below the second. A summary is read only of nodes that are
/// wholly inside: those beside the ways to the two ends.
#[derive(Clone, Copy)]
pub struct Range(pub u32, pub u32);

impl<A: Monoid, B: Monoid> Query<A, B> for Range {
    type Answer = Summary<A, B>;

    ghost Answers = { λ q set answer. answer ≡ summary_of A.parts B.parts (weighted_range_of set.pairs q.0 q.1) };

    ghost most = { λ q set. loads (4 * set.bits - 1) 0 (2 * set.bits) 0 };

    #[inline(always)]
    fn run<D: Descend<A, B>>(self, tree: &mut D) -> Summary<A, B> {
        let Range(a, b) = self;
        let b = b.min(universe(tree));
        if b <= a {
            return of_none();
        }
        let (level, node) = spanning(tree, a, b - 1);
        if b - a == 1 << level {
            return tree.summary(level, a >> level, &node);
        }
        let level = level - 1;
        let place = a >> (level + 1);
        let left = tree.left(level, place, &node);
        let low = from(tree, level, left, a);
        let right = tree.right(level, place, &node);
        let high = until(tree, level, right, b - 1);
        joined(low, high)
    }
}

// The lowest node that covers both keys, and its level.
#[inline(always)]
fn spanning<A: Monoid, B: Monoid, D: Descend<A, B>>(tree: &mut D, a: u32, z: u32) -> (u32, D::Name)
    requires order { a ≤ z }
    requires keys { z < 2 ^ (D.set_of tree.old).bits }
    ensures node { ReachesNode D.set_of D.loads_of D.Names D.KeepsRest ((D.set_of tree.old).bits + 1 - result.0) 0 0 0 result.0 (a / 2 ^ result.0) tree.old result.1 tree.new }
    ensures both { a / 2 ^ result.0 ≡ z / 2 ^ result.0 }
    ensures lowest { 1 ≤ result.0 → a / 2 ^ (result.0 - 1) < z / 2 ^ (result.0 - 1) }
{
    let mut level = tree.bits();
    let mut node = tree.top();
    while level > 0 && a >> (level - 1) == z >> (level - 1) {
        level -= 1;
        node = toward(tree, level, a, &node);
    }
    (level, node)
}

// The summary of the members from `a` on that the node at a level covers that covers `a`. What is found first comes last.
#[inline(always)]
fn from<A: Monoid, B: Monoid, D: Descend<A, B>>(
    tree: &mut D,
    mut level: u32,
    mut node: D::Name,
    a: u32,
) -> Summary<A, B>
    requires { D.Names tree.old level (a / 2 ^ level) node }
    ensures answer { result ≡ sum_of (summary_of A.parts B.parts) (D.set_of tree.old).pairs (range_of (list_of (D.set_of tree.old)) a (end_key level (a / 2 ^ level))) }
    ensures descends { Descends D.set_of D.loads_of D.Names D.KeepsRest (2 * level) 0 (level + 1) 0 tree.old tree.new }
{
    let mut total = of_none();
    while level > 0 {
        level -= 1;
        if (a >> level) % 2 == 0 {
            let place = a >> (level + 1);
            let right = tree.right(level, place, &node);
            total = joined(tree.summary(level, 2 * place + 1, &right), total);
        }
        node = toward(tree, level, a, &node);
    }
    joined(tree.summary(0, a, &node), total)
}

// The summary of the members up to `z` that the node at a level covers that covers `z`.
#[inline(always)]
fn until<A: Monoid, B: Monoid, D: Descend<A, B>>(
    tree: &mut D,
    mut level: u32,
    mut node: D::Name,
    z: u32,
) -> Summary<A, B>
    requires { D.Names tree.old level (z / 2 ^ level) node }
    ensures answer { result ≡ sum_of (summary_of A.parts B.parts) (D.set_of tree.old).pairs (range_of (list_of (D.set_of tree.old)) (first_key level (z / 2 ^ level)) (z + 1)) }
    ensures descends { Descends D.set_of D.loads_of D.Names D.KeepsRest (2 * level) 0 (level + 1) 0 tree.old tree.new }
{
    let mut total = of_none();
    while level > 0 {
        level -= 1;
        if (z >> level) % 2 == 1 {
            let place = z >> (level + 1);
            let left = tree.left(level, place, &node);
            total = joined(total, tree.summary(level, 2 * place, &left));
        }
        node = toward(tree, level, z, &node);
    }
    joined(total, tree.summary(0, z, &node))
}
