//! How many members there are, and how many below a key.
ghost use Rattle.std.specs.Prelude.{◌≡◌, ◌+◌, ◌/◌, ◌^◌, length};
ghost use Rattle.aug_model.specs.Keys.{list_of};
ghost use Rattle.aug_model.specs.Queries.{rank_of};
ghost use Rattle.aug_model.specs.NodeKeys.{first_key};
ghost use Rattle.aug_query.specs.Descend.{loads};
ghost use Rattle.aug_query.specs.inside.Paths.{ReachesNode};

use crate::toward::universe;
use crate::{Descend, Query};
use aug_monoid::Monoid;

/// How many members there are.
#[derive(Clone, Copy)]
pub struct Size;

impl<A: Monoid, B: Monoid> Query<A, B> for Size {
    type Answer = u32;

    ghost Answers = { λ q set answer. answer ≡ length (list_of set) };

    ghost most = { λ q set. loads 1 1 0 0 };

    #[inline(always)]
    fn run<D: Descend<A, B>>(self, tree: &mut D) -> u32 {
        let bits = tree.bits();
        let top = tree.top();
        tree.count(bits, 0, &top)
    }
}

/// How many members are below a key. The leaf before an odd key is counted by itself, since its neighbour is not needed.
#[derive(Clone, Copy)]
pub struct Rank(pub u32);

impl<A: Monoid, B: Monoid> Query<A, B> for Rank {
    type Answer = u32;

    ghost Answers = { λ q set answer. answer ≡ rank_of (list_of set) q.0 };

    ghost most = { λ q set. loads (set.bits + 1) 1 0 set.bits };

    #[inline(always)]
    fn run<D: Descend<A, B>>(self, tree: &mut D) -> u32 {
        let Rank(k) = self;
        if universe(tree) <= k {
            return Size.run(tree);
        }
        let mut level = tree.bits() - 1;
        let mut node = tree.top();
        let mut below = 0;
        while level > 0 {
            let (child, more) = toward_counting(tree, level, k, &node, below);
            node = child;
            below = more;
            level -= 1;
        }
        if k % 2 == 1 {
            let leaf = tree.left(0, k / 2, &node);
            below += tree.count(0, k - 1, &leaf);
        }
        below
    }
}

// The child, at this level, that covers `k`, of the node above it that covers `k`, and how many members come before that child.
// `below` members come before the node.
#[inline(always)]
fn toward_counting<A: Monoid, B: Monoid, D: Descend<A, B>>(
    tree: &mut D,
    level: u32,
    k: u32,
    node: &D::Name,
    below: u32,
) -> (D::Name, u32)
    requires name { D.Names tree.old (level + 1) (k / 2 ^ (level + 1)) node.now }
    requires counted { below ≡ rank_of (list_of (D.set_of tree.old)) (first_key (level + 1) (k / 2 ^ (level + 1))) }
    ensures child { ReachesNode D.set_of D.loads_of D.Names D.KeepsRest 1 0 0 1 level (k / 2 ^ level) tree.old result.0 tree.new }
    ensures counted { result.1 ≡ rank_of (list_of (D.set_of tree.old)) (first_key level (k / 2 ^ level)) }
{
    let place = k >> (level + 1);
    if (k >> level) % 2 == 0 {
        (tree.left(level, place, node), below)
    } else {
        let (right, passed) = tree.past_left(level, place, node);
        (right, below + passed)
    }
}
