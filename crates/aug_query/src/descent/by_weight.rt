//! The member up to which the weights add up to more than a number.
ghost use Rattle.std.specs.Prelude.{◌≡◌, ◌+◌, ◌*◌, ◌<◌};
ghost use Rattle.aug_model.specs.NodeKeys.{pairs_below};
ghost use Rattle.aug_query.specs.Descend.{loads};
ghost use Rattle.aug_query.specs.RunningSums.{select_by_weight_of, sum_of_weights};
ghost use Rattle.aug_query.specs.inside.Paths.{ReachesNode};
ghost use Rattle.aug_query.specs.inside.FirstOver.{first_over};

use crate::{Descend, Query};
use aug_monoid::{Monoid, Sum};

/// The least member up to which the weights, added up from the least member on, come to more than a number; none if all weights
/// together do not. The trie's first monoid is `Sum`. No sum wraps: there are at most 65,536 members, and a weight has 32 bits.
///
/// Of 5, which weighs 70, and 9, which weighs 30, the sums are 70 up to 5 and 100 up to 9: the answer is 5 for 0 to 69, 9 for 70 to
/// 99, and none from 100 on. A member that weighs nothing is never the answer: of 1, which weighs 5, 4, which weighs 0, and 6, which
/// weighs 7, it is 1 for 0 to 4, and 6 for 5 to 11.
#[derive(Clone, Copy)]
pub struct SelectByWeight(pub u64);

impl<B: Monoid> Query<Sum, B> for SelectByWeight {
    type Answer = Option<u32>;

    ghost Answers = { λ q set answer. answer ≡ select_by_weight_of set.pairs q.0 };

    ghost most = { λ q set. loads (2 * set.bits + 1) 0 (set.bits + 1) 0 };

    #[inline(always)]
    fn run<D: Descend<Sum, B>>(self, tree: &mut D) -> Option<u32> {
        let SelectByWeight(number) = self;
        let mut level = tree.bits();
        let mut node = tree.top();
        if tree.summary(level, 0, &node).a.value() <= number {
            return None;
        }
        let mut place = 0;
        let mut rest = number;
        while level > 0 {
            level -= 1;
            let (child, at, more) = weighing_child(tree, level, place, &node, rest);
            node = child;
            place = at;
            rest = more;
        }
        Some(place)
    }
}

// The child that covers the member with which the weights below the node above it come to more than `rest`, its place, and what is
// left of `rest`.
#[inline(always)]
fn weighing_child<B: Monoid, D: Descend<Sum, B>>(
    tree: &mut D,
    level: u32,
    place: u32,
    node: &D::Name,
    rest: u64,
) -> (D::Name, u32, u64)
    requires name { D.Names tree.old (level + 1) place node.now }
    requires within { rest < sum_of_weights (pairs_below (D.set_of tree.old).pairs (level + 1) place) }
    ensures child { ReachesNode D.set_of D.loads_of D.Names D.KeepsRest 2 0 1 0 level result.1 tree.old result.0 tree.new }
    ensures within { result.2 < sum_of_weights (pairs_below (D.set_of tree.old).pairs level result.1) }
    ensures same { first_over (pairs_below (D.set_of tree.old).pairs level result.1) result.2 ≡ first_over (pairs_below (D.set_of tree.old).pairs (level + 1) place) rest }
{
    let left = tree.left(level, place, node);
    let sum = tree.summary(level, 2 * place, &left).a.value();
    if rest < sum {
        return (left, 2 * place, rest);
    }
    (tree.right(level, place, node), 2 * place + 1, rest - sum)
}
