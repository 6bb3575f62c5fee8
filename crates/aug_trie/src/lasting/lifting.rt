//! Bringing nodes up to their children by the records of a stock.
ghost use Rattle.std.specs.Prelude.{◌≡◌, ◌+◌, ◌*◌, ◌^◌, ◌<◌, ◌≤◌, nat_lt, if◌then◌else◌};
ghost use Rattle.aug_core.specs.Addresses.{IsInner};
ghost use Rattle.aug_core.specs.Faces.{face};
ghost use Rattle.aug_trie.specs.inside.Goes.{HasLeaves};
ghost use Rattle.aug_trie.specs.inside.Lasting.{KeepsStock, TriedBy, CoveredBy, LiftedTo, ShowsBelow, birth_from};

use crate::queries::record_words::NUMBERS;
use crate::updates::parts::any_part;
use crate::updates::refreshing::{fill, five_words};
use aug_monoid::Monoid;
use aug_words::{Stock, WordPass, Words};

// The birth of the stock's next record over two children with these words. A leaf's word names no record.
#[inline(always)]
fn birth_over(stock: &Stock, over_leaves: bool, left: u64, right: u64) -> u64
    ensures value { result ≡ birth_from stock.now.era over_leaves left right }
    ensures fits { result < 2 ^ 40 }
{
    if over_leaves {
        stock.birth_over(0, 0)
    } else {
        stock.birth_over(left, right)
    }
}

// One try at a node, by the stock's next record. True if the record was published.
#[inline(always)]
fn try_lift<A: Monoid, B: Monoid>(
    pass: &mut WordPass<A, B>,
    stock: &mut Stock,
    words: &Words<A, B>,
    leaves: usize,
    node: usize,
) -> bool
    requires keeps { KeepsStock (face A.parts B.parts) words.now pass.old stock.old }
    requires reserved { 0 < stock.old.era }
    requires leaves { HasLeaves pass.old.view.shape leaves }
    requires inner { IsInner pass.old.view.shape node }
    requires some { 0 < stock.old.free }
    ensures keeps { KeepsStock (face A.parts B.parts) words.now pass.new stock.new }
    ensures reserved { 0 < stock.new.era }
    ensures tried { TriedBy (face A.parts B.parts) pass.old.view node result pass.new.view }
    ensures free { stock.new.free + (if result then 1 else 0) ≡ stock.old.free }
{
    let (from, left, right) = stock.load_over(pass, words, leaves, node);
    let child = 2 * (node - leaves);
    let l = any_part(pass, leaves, child, left, left % NUMBERS);
    let r = any_part(pass, leaves, child + 1, right, right % NUMBERS);
    fill(pass, stock.next(), five_words(left, right, l, r));
    let birth = birth_over(stock, child < leaves, left, right);
    stock.try_node(pass, node, from, birth)
}

// One try at a node, and a second one if the first one's exchange failed.
#[inline(always)]
fn lift<A: Monoid, B: Monoid>(
    pass: &mut WordPass<A, B>,
    stock: &mut Stock,
    words: &Words<A, B>,
    leaves: usize,
    node: usize,
)
    requires keeps { KeepsStock (face A.parts B.parts) words.now pass.old stock.old }
    requires reserved { 0 < stock.old.era }
    requires leaves { HasLeaves pass.old.view.shape leaves }
    requires inner { IsInner pass.old.view.shape node }
    requires some { 0 < stock.old.free }
    ensures keeps { KeepsStock (face A.parts B.parts) words.now pass.new stock.new }
    ensures reserved { 0 < stock.new.era }
    ensures covered { CoveredBy (face A.parts B.parts) pass.old.view node pass.new.view }
    ensures free { stock.old.free ≤ stock.new.free + 1 }
{
    if try_lift(pass, stock, words, leaves, node) {
        return;
    }
    try_lift(pass, stock, words, leaves, node);
}

// Brings the nodes above a leaf up to their children, from the leaf's parent up to a level.
#[inline(always)]
pub(crate) fn lift_all<A: Monoid, B: Monoid>(
    pass: &mut WordPass<A, B>,
    stock: &mut Stock,
    words: &Words<A, B>,
    leaves: usize,
    levels: u32,
    leaf: usize,
)
    requires keeps { KeepsStock (face A.parts B.parts) words.now pass.old stock.old }
    requires reserved { 0 < stock.old.era }
    requires leaves { HasLeaves pass.old.view.shape leaves }
    requires leaf { leaf < 2 ^ pass.old.view.shape.bits }
    requires levels { levels ≤ pass.old.view.shape.bits }
    requires records { levels ≤ stock.old.free }
    requires below { ShowsBelow pass.old.view leaf 0 }
    ensures keeps { KeepsStock (face A.parts B.parts) words.now pass.new stock.new }
    ensures reserved { 0 < stock.new.era }
    ensures lifted { LiftedTo (face A.parts B.parts) leaf pass.old.view levels pass.new.view }
    ensures records { stock.old.free ≤ stock.new.free + levels }
{
    let mut node = leaf;
    for level in 0..levels {
        let _ = level;
        node = leaves + node / 2;
        lift(pass, stock, words, leaves, node);
    }
}
