//! A query of a caller's own, as a value with its contract.
ghost use Rattle.std.specs.Prelude.{◌≡◌, ◌+◌, length};
ghost use Rattle.aug_model.specs.Keys.{list_of};
ghost use Rattle.aug_model.specs.NodeKeys.{keys_below};
ghost use Rattle.aug_query.specs.Descend.{loads};

use aug_monoid::Monoid;
use aug_query::{Descend, Query};

/// How many members there are in a band: the keys from `band * 2^level` on that are below `(band + 1) * 2^level`. One descent, to the
/// node that covers these keys alone.
#[derive(Clone, Copy)]
pub struct Band {
    pub level: u32,
    pub band: u32,
}

impl<A: Monoid, B: Monoid> Query<A, B> for Band {
    type Answer = u32;

    ghost Answers = { λ q set answer. answer ≡ length (keys_below (list_of set) q.level q.band) };

    ghost most = { λ q set. loads (set.bits + 1) 1 0 0 };

    fn run<D: Descend<A, B>>(self, tree: &mut D) -> u32 {
        let Band { level, band } = self;
        let bits = tree.bits();
        // The first band has every key if it is as wide as the tree, or wider.
        let last = level.min(bits);
        if band >> (bits - last) > 0 {
            return 0;
        }
        let mut node = tree.top();
        let mut at = bits;
        while at > last {
            at -= 1;
            let place = band >> (at - last + 1);
            node = if (band >> (at - last)) % 2 == 0 {
                tree.left(at, place, &node)
            } else {
                tree.right(at, place, &node)
            };
        }
        tree.count(last, band, &node)
    }
}
