//! A walk down the tree of a snapshot.
ghost use Rattle.std.specs.Prelude.{◌≡◌, ℕ, ◌+◌, ◌*◌, ◌^◌, ◌≤◌};
ghost use Rattle.aug_model.specs.Folds.{summary_of};
ghost use Rattle.aug_query.specs.Tree.{IsTreeSet};
ghost use Rattle.aug_trie.specs.Snapshot.{HasSnapshot, set_at};
ghost use Rattle.aug_trie.specs.Node.{HasNode, Reads};

use crate::queries::node::Node;
use crate::queries::nodes::{left_of, node_at, right_of};
use crate::queries::snapshot::Snapshot;
use crate::rounds::pass::Pass;
use aug_monoid::Monoid;

impl<'r, A: Monoid, B: Monoid> Pass<'r, A, B> {
    /// How many bits the keys of its round have.
    pub(crate) fn bits(&self) -> u32
        ensures value { result ≡ self.now.round.bits }
        ensures sets { (s : Snapshot) → HasSnapshot self.now s → IsTreeSet (set_at self.now s) }
    {
        self.account.bits
    }

    /// The top of the tree of a snapshot of this pass. It makes at most four steps, and so do `left` and `right`.
    pub fn top(&mut self, s: &Snapshot) -> Node<A, B>
        requires { HasSnapshot self.old s.now }
        ensures node { HasNode (summary_of A.parts B.parts) self.new result }
        ensures snapshot { result.snapshot ≡ s.now }
        ensures level { result.level ≡ self.old.round.bits }
        ensures place { result.place ≡ 0 }
        ensures reads { Reads (summary_of A.parts B.parts) 4 self.old self.new }
    {
        let Some(words) = &mut self.words else {
            unreachable!()
        };
        node_at(words, *s, self.account.bits, 0, s.number)
    }

    /// The child of a node of this pass that covers the lesser half of its keys. The node is no leaf.
    pub fn left(&mut self, node: &Node<A, B>) -> Node<A, B>
        requires node { HasNode (summary_of A.parts B.parts) self.old node.now }
        requires inner { 1 ≤ node.now.level }
        ensures node { HasNode (summary_of A.parts B.parts) self.new result }
        ensures snapshot { result.snapshot ≡ node.now.snapshot }
        ensures level { result.level + 1 ≡ node.now.level }
        ensures place { result.place ≡ 2 * node.now.place }
        ensures reads { Reads (summary_of A.parts B.parts) 4 self.old self.new }
    {
        let Some(words) = &mut self.words else {
            unreachable!()
        };
        left_of(words, node)
    }

    /// The child that covers the greater half.
    pub fn right(&mut self, node: &Node<A, B>) -> Node<A, B>
        requires node { HasNode (summary_of A.parts B.parts) self.old node.now }
        requires inner { 1 ≤ node.now.level }
        ensures node { HasNode (summary_of A.parts B.parts) self.new result }
        ensures snapshot { result.snapshot ≡ node.now.snapshot }
        ensures level { result.level + 1 ≡ node.now.level }
        ensures place { result.place ≡ 2 * node.now.place + 1 }
        ensures reads { Reads (summary_of A.parts B.parts) 4 self.old self.new }
    {
        let Some(words) = &mut self.words else {
            unreachable!()
        };
        right_of(words, node)
    }
}
