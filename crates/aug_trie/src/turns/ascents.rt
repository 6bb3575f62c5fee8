//! The way from a leaf to the root, one atomic step at a time.
ghost use Rattle.std.specs.Prelude.{◌≡◌, ℕ, List, ◌+◌, ◌/◌, ◌^◌, ◌<◌, ◌≤◌, false, IfSome};
ghost use Rattle.aug_core.specs.Faces.{face};
ghost use Rattle.aug_core.specs.declared.view.SeatView.{SeatView};
ghost use Rattle.aug_words.specs.Seats.{StaysAt};
ghost use Rattle.aug_trie.specs.inside.Goes.{HasLeaves};
ghost use Rattle.aug_trie.specs.inside.Points.{QuietStep};
ghost use Rattle.aug_trie.specs.inside.Stages.{IsOnWay, IsPastTry, Ascends, AscentFalls, ascent_turns, past_try_turns};

use crate::turns::points::{Advanced, Point, advance};
use aug_monoid::Monoid;
use aug_words::WordPass;

// The point that an update has reached on its way.
#[derive(Clone, Copy)]
pub(crate) struct Ascent {
    // The level below the node that is tried.
    pub(crate) level: u32,
    pub(crate) node: usize,
    // Whether the first try at the node failed.
    pub(crate) second: bool,
    pub(crate) point: Point,
}

impl Ascent {
    // At the first node above a leaf.
    pub(crate) fn from_leaf(leaves: usize, leaf: usize) -> Ascent
        requires leaves { leaves < 2 ^ 32 }
        requires leaf { leaf < 2 ^ 32 }
        ensures level { result.level ≡ 0 }
        ensures node { result.node ≡ leaves + leaf / 2 }
        ensures second { result.second ≡ false }
        ensures point { result.point ≡ Point.Node }
    {
        Ascent {
            level: 0,
            node: leaves + leaf / 2,
            second: false,
            point: Point::Node,
        }
    }
}

// The next step on the way, and none if the root is done with it. A try that fails is made once more, and there is no third.
pub(crate) fn ascend<A: Monoid, B: Monoid>(
    pass: &mut WordPass<A, B>,
    leaves: usize,
    bits: u32,
    number: u64,
    ascent: Ascent,
) -> Option<Ascent>
    requires leaves { HasLeaves pass.old.view.shape leaves }
    requires small { number + bits < 2 ^ 60 }
    requires on_way { (key : ℕ) × (leaf : SeatView) × IsOnWay (face A.parts B.parts) bits number key leaf ascent pass.old.view }
    ensures step { StaysAt pass.old pass.new (QuietStep pass.old.view pass.new.view) }
    ensures on { (key : ℕ) (leaf : SeatView) → IsOnWay (face A.parts B.parts) bits number key leaf ascent pass.old.view → Ascends (face A.parts B.parts) bits number key leaf result pass.new.view }
    ensures falls { AscentFalls bits ascent result }
{
    let at = number + u64::from(ascent.level);
    match advance(pass, leaves, ascent.node, at, ascent.point) {
        Advanced::To(point) => Some(Ascent { point, ..ascent }),
        Advanced::Exchanged(done) => after_try(leaves, bits, ascent, done),
    }
}

// The point from which it continues after a try.
fn after_try(leaves: usize, bits: u32, ascent: Ascent, published: bool) -> Option<Ascent>
    requires leaves { leaves < 2 ^ 32 }
    requires node { ascent.node < 2 ^ 32 }
    requires level { ascent.level < bits }
    requires bits { bits ≤ 16 }
    ensures on { (f : ℕ → ℕ → List (ℕ × ℕ) → List ℕ) (number key : ℕ) (leaf w : SeatView) → leaves ≡ 2 ^ bits → IsPastTry f bits number key leaf ascent published w → Ascends f bits number key leaf result w }
    ensures falls { IfSome result (λ next. (ascent_turns bits next ≤ past_try_turns bits ascent) × (1 ≤ ascent_turns bits next)) }
{
    if !published && !ascent.second {
        return Some(Ascent {
            second: true,
            point: Point::Node,
            ..ascent
        });
    }
    if ascent.level + 1 == bits {
        return None;
    }
    Some(Ascent {
        level: ascent.level + 1,
        node: leaves + ascent.node / 2,
        second: false,
        point: Point::Node,
    })
}
