//! From one node of a snapshot's tree to the next, over a pass that knows only its words.
ghost use Rattle.std.specs.Prelude.{◌≡◌, ◌+◌, ◌*◌, ◌≤◌};
ghost use Rattle.aug_core.specs.Faces.{face};
ghost use Rattle.aug_model.specs.Folds.{summary_of};
ghost use Rattle.aug_trie.specs.inside.NodeWords.{HoldsNodeAt, IsNodeAt};
ghost use Rattle.aug_trie.specs.inside.LeafPairs.{leaf_pairs};
ghost use Rattle.aug_trie.specs.TreeOf.{IsTreeOf};
ghost use Rattle.aug_trie.specs.inside.NamedCuts.{cut_named};
ghost use Rattle.aug_trie.specs.inside.Goes.{Looks, KnowsRecords, ReadsBelow};

use crate::queries::node::Node;
use crate::queries::record_words::RecordWords;
use crate::queries::snapshot::Snapshot;
use crate::updates::parts::leaf_part;
use aug_core::RecordField;
use aug_model::Summary;
use aug_monoid::Monoid;
use aug_words::WordPass;

// The summary of what a leaf with this word covers.
#[inline(always)]
pub(crate) fn leaf_summary<A: Monoid, B: Monoid>(key: u32, word: u64) -> Summary<A, B>
    ensures { result ≡ summary_of A.parts B.parts (leaf_pairs key word) }
{
    let part = leaf_part::<A, B>(key as usize, word);
    Summary {
        count: part.count as u32,
        a: part.a,
        b: part.b,
    }
}

// The summary of the node at a level and a place of a snapshot's tree, by its word: at most three steps.
#[inline(always)]
pub(crate) fn summary_at<A: Monoid, B: Monoid, W: RecordWords>(
    words: &mut W,
    snapshot: Snapshot,
    level: u32,
    place: u32,
    word: u64,
) -> Summary<A, B>
    requires knows { ReadsBelow (face A.parts B.parts) W.number (W.known words.old).view }
    requires node { HoldsNodeAt (W.known words.old).view (cut_named (W.known words.old).view.shape (W.known words.old).view.seen snapshot) level place word }
    ensures table { (W.known words.new).table ≡ (W.known words.old).table }
    ensures looks { Looks 3 (W.known words.old).view (W.known words.new).view }
    ensures tells { IsTreeOf (summary_of A.parts B.parts) (W.known words.old).view.shape.bits (cut_named (W.known words.old).view.shape (W.known words.old).view.seen snapshot) level place result }
{
    if level == 0 {
        return leaf_summary(place, word);
    }
    let count = words.load_word(word, RecordField::Count);
    let a = words.load_word(word, RecordField::A);
    let b = words.load_word(word, RecordField::B);
    Summary {
        count: count as u32,
        a: A::from_word(a),
        b: B::from_word(b),
    }
}

// The node at a level and a place of a snapshot's tree, by its word: at most three steps.
#[inline(always)]
pub(crate) fn node_at<A: Monoid, B: Monoid>(
    pass: &mut WordPass<A, B>,
    snapshot: Snapshot,
    level: u32,
    place: u32,
    word: u64,
) -> Node<A, B>
    requires knows { KnowsRecords (face A.parts B.parts) pass.old.view }
    requires node { IsNodeAt pass.old.view.shape pass.old.view.seen (cut_named pass.old.view.shape pass.old.view.seen snapshot) level place word }
    ensures table { pass.new.table ≡ pass.old.table }
    ensures looks { Looks 3 pass.old.view pass.new.view }
    ensures tells { IsTreeOf (summary_of A.parts B.parts) pass.old.view.shape.bits (cut_named pass.old.view.shape pass.old.view.seen snapshot) level place result.summary }
    ensures snapshot { result.snapshot ≡ snapshot }
    ensures level { result.level ≡ level }
    ensures place { result.place ≡ place }
    ensures word { result.word ≡ word }
{
    let summary = summary_at(pass, snapshot, level, place, word);
    Node {
        snapshot,
        level,
        place,
        word,
        summary,
    }
}

// The left child of an inner node: four steps at most.
#[inline(always)]
pub(crate) fn left_of<A: Monoid, B: Monoid>(
    pass: &mut WordPass<A, B>,
    node: &Node<A, B>,
) -> Node<A, B>
    requires knows { KnowsRecords (face A.parts B.parts) pass.old.view }
    requires node { IsNodeAt pass.old.view.shape pass.old.view.seen (cut_named pass.old.view.shape pass.old.view.seen node.now.snapshot) node.now.level node.now.place node.now.word }
    requires inner { 1 ≤ node.now.level }
    ensures table { pass.new.table ≡ pass.old.table }
    ensures looks { Looks 4 pass.old.view pass.new.view }
    ensures named { IsNodeAt pass.old.view.shape pass.old.view.seen (cut_named pass.old.view.shape pass.old.view.seen node.now.snapshot) result.level result.place result.word }
    ensures tells { IsTreeOf (summary_of A.parts B.parts) pass.old.view.shape.bits (cut_named pass.old.view.shape pass.old.view.seen node.now.snapshot) result.level result.place result.summary }
    ensures snapshot { result.snapshot ≡ node.now.snapshot }
    ensures level { result.level + 1 ≡ node.now.level }
    ensures place { result.place ≡ 2 * node.now.place }
{
    let word = pass.load_record_word(node.word, RecordField::Left);
    node_at(pass, node.snapshot, node.level - 1, 2 * node.place, word)
}

// The right child of an inner node: four steps at most.
#[inline(always)]
pub(crate) fn right_of<A: Monoid, B: Monoid>(
    pass: &mut WordPass<A, B>,
    node: &Node<A, B>,
) -> Node<A, B>
    requires knows { KnowsRecords (face A.parts B.parts) pass.old.view }
    requires node { IsNodeAt pass.old.view.shape pass.old.view.seen (cut_named pass.old.view.shape pass.old.view.seen node.now.snapshot) node.now.level node.now.place node.now.word }
    requires inner { 1 ≤ node.now.level }
    ensures table { pass.new.table ≡ pass.old.table }
    ensures looks { Looks 4 pass.old.view pass.new.view }
    ensures named { IsNodeAt pass.old.view.shape pass.old.view.seen (cut_named pass.old.view.shape pass.old.view.seen node.now.snapshot) result.level result.place result.word }
    ensures tells { IsTreeOf (summary_of A.parts B.parts) pass.old.view.shape.bits (cut_named pass.old.view.shape pass.old.view.seen node.now.snapshot) result.level result.place result.summary }
    ensures snapshot { result.snapshot ≡ node.now.snapshot }
    ensures level { result.level + 1 ≡ node.now.level }
    ensures place { result.place ≡ 2 * node.now.place + 1 }
{
    let word = pass.load_record_word(node.word, RecordField::Right);
    node_at(
        pass,
        node.snapshot,
        node.level - 1,
        2 * node.place + 1,
        word,
    )
}
