//! The member with a given number of members below it.
ghost use Rattle.std.specs.Prelude.{◌≡◌, ◌+◌, ◌*◌, ◌<◌, length};
ghost use Rattle.aug_model.specs.Keys.{list_of};
ghost use Rattle.aug_model.specs.Queries.{rank_of, select_of};
ghost use Rattle.aug_model.specs.NodeKeys.{keys_below, first_key};
ghost use Rattle.aug_query.specs.Descend.{loads};
ghost use Rattle.aug_query.specs.inside.Paths.{ReachesNode};

use crate::{Descend, Query};
use aug_monoid::Monoid;

/// The member with exactly so many members below it, if there is one.
#[derive(Clone, Copy)]
pub struct Select(pub u32);

impl<A: Monoid, B: Monoid> Query<A, B> for Select {
    type Answer = Option<u32>;

    ghost Answers = { λ q set answer. answer ≡ select_of (list_of set) q.0 };

    ghost most = { λ q set. loads (2 * set.bits + 1) (set.bits + 1) 0 0 };

    #[inline(always)]
    fn run<D: Descend<A, B>>(self, tree: &mut D) -> Option<u32> {
        let Select(i) = self;
        let mut level = tree.bits();
        let mut node = tree.top();
        if tree.count(level, 0, &node) <= i {
            return None;
        }
        let mut place = 0;
        let mut rest = i;
        while level > 0 {
            level -= 1;
            let (child, at, more) = child_at(tree, level, place, &node, rest);
            node = child;
            place = at;
            rest = more;
        }
        Some(place)
    }
}

// The child that covers the `i`-th member of the node above it, its place, and how many members of the child are below that one.
#[inline(always)]
fn child_at<A: Monoid, B: Monoid, D: Descend<A, B>>(
    tree: &mut D,
    level: u32,
    place: u32,
    node: &D::Name,
    i: u32,
) -> (D::Name, u32, u32)
    requires name { D.Names tree.old (level + 1) place node.now }
    requires within { i < length (keys_below (list_of (D.set_of tree.old)) (level + 1) place) }
    ensures child { ReachesNode D.set_of D.loads_of D.Names D.KeepsRest 2 1 0 0 level result.1 tree.old result.0 tree.new }
    ensures within { result.2 < length (keys_below (list_of (D.set_of tree.old)) level result.1) }
    ensures same { rank_of (list_of (D.set_of tree.old)) (first_key level result.1) + result.2 ≡ rank_of (list_of (D.set_of tree.old)) (first_key (level + 1) place) + i }
{
    let left = tree.left(level, place, node);
    let below = tree.count(level, 2 * place, &left);
    if i < below {
        return (left, 2 * place, i);
    }
    (tree.right(level, place, node), 2 * place + 1, i - below)
}
