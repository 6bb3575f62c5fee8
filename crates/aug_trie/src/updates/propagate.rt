//! From a leaf to the root.
ghost use Rattle.std.specs.Prelude.{◌≡◌, ◌+◌, ◌^◌, ◌<◌, ◌≤◌};
ghost use Rattle.aug_core.specs.Faces.{face};
ghost use Rattle.aug_words.specs.Seats.{StaysAt};
ghost use Rattle.aug_trie.specs.inside.Goes.{HasLeaves};
ghost use Rattle.aug_trie.specs.inside.Points.{MayRefresh};
ghost use Rattle.aug_trie.specs.inside.Batching.{Raises};
ghost use Rattle.aug_trie.specs.inside.Stages.{IsCovered, MayRise, HasRisen};

use crate::updates::refreshing::refresh;
use aug_monoid::Monoid;
use aug_words::WordPass;

// One try at a node, and a second one if the first one's exchange failed. There is no third. The pass is lent: one that came and went
// by value here would cost its caller instructions at each turn, though the second try is seldom made.
#[inline(always)]
fn refresh_twice<A: Monoid, B: Monoid>(
    pass: &mut WordPass<A, B>,
    leaves: usize,
    node: usize,
    number: u64,
)
    requires { MayRefresh (face A.parts B.parts) pass.old.view node leaves number }
    ensures { StaysAt pass.old pass.new (IsCovered (face A.parts B.parts) pass.old.view pass.new.view node number) }
{
    if refresh(pass, leaves, node, number) {
        return;
    }
    refresh(pass, leaves, node, number);
}

// Brings the ancestors of a leaf up to their children, from the leaf's parent up to a level.
#[inline(always)]
pub(crate) fn propagate<'r, A: Monoid, B: Monoid>(
    pass: WordPass<'r, A, B>,
    leaves: usize,
    levels: u32,
    leaf: usize,
    number: u64,
) -> WordPass<'r, A, B>
    requires leaves { HasLeaves pass.view.shape leaves }
    requires rises { MayRise (face A.parts B.parts) pass.view.shape.bits number leaf pass.view }
    requires levels { levels ≤ pass.view.shape.bits }
    requires small { number + levels < 2 ^ 60 }
    ensures table { result.table ≡ pass.entry.table }
    ensures risen { HasRisen (face A.parts B.parts) pass.entry.view.shape.bits number leaf pass.entry.view levels result.view }
    ensures raises { Raises leaf pass.entry.view levels result.view }
{
    let mut pass = pass;
    let mut node = leaf;
    for level in 0..levels {
        node = leaves + node / 2;
        refresh_twice(&mut pass, leaves, node, number + u64::from(level));
    }
    pass
}
