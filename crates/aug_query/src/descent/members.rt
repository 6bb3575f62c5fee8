//! Whether a key is a member, and what it weighs.
ghost use Rattle.std.specs.Prelude.{◌≡◌, ◌+◌, ◌^◌, ◌<◌};
ghost use Rattle.aug_model.specs.Keys.{is_member, list_of};
ghost use Rattle.aug_model.specs.Queries.{weight_of};
ghost use Rattle.aug_query.specs.Descend.{Descends, loads};
ghost use Rattle.aug_query.specs.inside.Paths.{ReachesNode};

use crate::toward::{toward, universe};
use crate::{Descend, Query};
use aug_monoid::Monoid;

/// Whether a key is a member.
#[derive(Clone, Copy)]
pub struct Has(pub u32);

impl<A: Monoid, B: Monoid> Query<A, B> for Has {
    type Answer = bool;

    ghost Answers = { λ q set answer. answer ≡ is_member (list_of set) q.0 };

    ghost most = { λ q set. loads (set.bits + 1) 1 0 0 };

    #[inline(always)]
    fn run<D: Descend<A, B>>(self, tree: &mut D) -> bool {
        let Has(k) = self;
        if universe(tree) <= k {
            return false;
        }
        let leaf = leaf_of(tree, k);
        tree.count(0, k, &leaf) > 0
    }
}

/// The weight of a key, if it is a member.
#[derive(Clone, Copy)]
pub struct Weight(pub u32);

impl<A: Monoid, B: Monoid> Query<A, B> for Weight {
    type Answer = Option<u32>;

    ghost Answers = { λ q set answer. answer ≡ weight_of set.pairs q.0 };

    ghost most = { λ q set. loads (set.bits + 1) 1 0 0 };

    #[inline(always)]
    fn run<D: Descend<A, B>>(self, tree: &mut D) -> Option<u32> {
        let Weight(k) = self;
        if universe(tree) <= k {
            return None;
        }
        let leaf = leaf_of(tree, k);
        weight_of_leaf(tree, k, &leaf)
    }
}

// The weight of the key of a leaf, if it is a member.
#[inline(always)]
pub(super) fn weight_of_leaf<A: Monoid, B: Monoid, D: Descend<A, B>>(
    tree: &mut D,
    k: u32,
    leaf: &D::Name,
) -> Option<u32>
    requires { D.Names tree.old 0 k leaf.now }
    ensures answer { result ≡ weight_of (D.set_of tree.old).pairs k }
    ensures descends { Descends D.set_of D.loads_of D.Names D.KeepsRest 0 1 0 0 tree.old tree.new }
{
    if tree.count(0, k, leaf) == 0 {
        return None;
    }
    Some(tree.weight(k, leaf))
}

// The leaf of `k`.
#[inline(always)]
fn leaf_of<A: Monoid, B: Monoid, D: Descend<A, B>>(tree: &mut D, k: u32) -> D::Name
    requires { k < 2 ^ (D.set_of tree.old).bits }
    ensures { ReachesNode D.set_of D.loads_of D.Names D.KeepsRest ((D.set_of tree.old).bits + 1) 0 0 0 0 k tree.old result tree.new }
{
    let mut level = tree.bits();
    let mut node = tree.top();
    while level > 0 {
        level -= 1;
        node = toward(tree, level, k, &node);
    }
    node
}
