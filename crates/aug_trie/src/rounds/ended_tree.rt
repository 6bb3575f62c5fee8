//! A trie at rest as a tree that queries walk.
ghost use Rattle.std.specs.Prelude.{◌≡◌, ◌+◌, ◌*◌};
ghost use Rattle.aug_core.specs.Faces.{face};
ghost use Rattle.aug_model.specs.Folds.{summary_of};
ghost use Rattle.aug_trie.specs.inside.EndedTree.{HasEndedNode, IsVersion, NamesEnded};
ghost use Rattle.aug_model.specs.NodeKeys.{pairs_below};

use crate::queries::nodes::leaf_summary;
use crate::rounds::ended::Ended;
use crate::updates::leaf_words::leaf_weight;
use aug_core::RecordField;
use aug_model::Summary;
use aug_monoid::Monoid;
use aug_query::Tree;

/// A node of the tree of a trie at rest.
#[derive(Clone, Copy)]
pub struct EndedNode<A, B> {
    pub(crate) level: u32,
    pub(crate) place: u32,
    // What names it: a leaf's serial and weight, or an inner node's record.
    pub(crate) word: u64,
    pub(crate) summary: Summary<A, B>,
}

impl<A: Monoid, B: Monoid> Ended<A, B> {
    // The word of the left child, at this level, of the node above it at this place, by that node's word.
    fn left_word(&self, level: u32, place: u32, word: u64) -> u64
        requires { NamesEnded (face A.parts B.parts) self.now (level + 1) place word }
        ensures { NamesEnded (face A.parts B.parts) self.now level (2 * place) result }
    {
        let _ = (level, place);
        self.rest.record_word(word, RecordField::Left)
    }

    // The word of the right child.
    fn right_word(&self, level: u32, place: u32, word: u64) -> u64
        requires { NamesEnded (face A.parts B.parts) self.now (level + 1) place word }
        ensures { NamesEnded (face A.parts B.parts) self.now level (2 * place + 1) result }
    {
        let _ = (level, place);
        self.rest.record_word(word, RecordField::Right)
    }

    // The summary of the node at a level and a place, by its word.
    fn summary_of_word(&self, level: u32, place: u32, word: u64) -> Summary<A, B>
        requires version { IsVersion (face A.parts B.parts) self.now.rest self.now.members level place word }
        ensures { result ≡ summary_of A.parts B.parts (pairs_below self.now.members level place) }
    {
        if level == 0 {
            return leaf_summary(place, word);
        }
        let count = self.rest.record_word(word, RecordField::Count);
        let a = self.rest.record_word(word, RecordField::A);
        let b = self.rest.record_word(word, RecordField::B);
        Summary {
            count: count as u32,
            a: A::from_word(a),
            b: B::from_word(b),
        }
    }

    // The node at a level and a place, by its word.
    fn node(&self, level: u32, place: u32, word: u64) -> EndedNode<A, B>
        requires { NamesEnded (face A.parts B.parts) self.now level place word }
        ensures node { HasEndedNode (face A.parts B.parts) (summary_of A.parts B.parts) self.now result }
        ensures level { result.level ≡ level }
        ensures place { result.place ≡ place }
    {
        EndedNode {
            level,
            place,
            word,
            summary: self.summary_of_word(level, place, word),
        }
    }
}

impl<A: Monoid, B: Monoid> Tree<A, B> for Ended<A, B> {
    type Node = EndedNode<A, B>;

    ghost use Rattle.aug_core.specs.Faces.{face};
    ghost use Rattle.aug_model.specs.Folds.{summary_of};
    ghost use Rattle.aug_trie.specs.Ended.{set_of_ended, KeepsEnded};
    ghost use Rattle.aug_trie.specs.inside.EndedTree.{HasEndedNode};
    ghost use Rattle.aug_trie.specs.LeafWords.{weight_in_word};
    ghost use Rattle.aug_trie.specs.inside.EndedLaws.{kept_so, kept_on};

    ghost set_of = { λ e. set_of_ended e };

    ghost calls_of = { λ e. e.calls };

    ghost HasNode = { λ e n. HasEndedNode (face A.parts B.parts) (summary_of A.parts B.parts) e n };

    ghost KeepsRest = { λ old new. KeepsEnded old new };

    ghost level_of = { λ n. n.level };

    ghost place_of = { λ n. n.place };

    ghost summary_in = { λ n. n.summary };

    ghost weight_by = { λ n. weight_in_word n.word };

    ghost keeps_so = { λ e. kept_so e };

    ghost keeps_on = { λ first e last a b. kept_on first e last a b };

    ghost leaf_weighs = { λ e n has level. has.weighs level };

    ghost node_tells = { λ e n has. has.is_node };

    fn bits(&self) -> u32 {
        self.bits
    }

    fn top(&mut self) -> EndedNode<A, B> {
        self.calls = self.calls.one_more();
        self.node(self.bits, 0, self.root)
    }

    fn left(&mut self, node: &EndedNode<A, B>) -> EndedNode<A, B> {
        self.calls = self.calls.one_more();
        let word = self.left_word(node.level - 1, node.place, node.word);
        self.node(node.level - 1, 2 * node.place, word)
    }

    fn right(&mut self, node: &EndedNode<A, B>) -> EndedNode<A, B> {
        self.calls = self.calls.one_more();
        let word = self.right_word(node.level - 1, node.place, node.word);
        self.node(node.level - 1, 2 * node.place + 1, word)
    }

    fn level(node: &EndedNode<A, B>) -> u32 {
        node.level
    }

    fn place(node: &EndedNode<A, B>) -> u32 {
        node.place
    }

    fn summary(node: &EndedNode<A, B>) -> Summary<A, B> {
        node.summary
    }

    fn weight(node: &EndedNode<A, B>) -> u32 {
        leaf_weight(node.word)
    }
}
