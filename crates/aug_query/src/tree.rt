ghost use Rattle.std.specs.Prelude.{◌≡◌, ℕ, ◌+◌, ◌*◌, ◌≤◌};
ghost use Rattle.aug_model.specs.Keys.{SetFacts};
ghost use Rattle.aug_model.specs.Folds.{summary_of};
ghost use Rattle.aug_model.specs.Queries.{weight_in};
ghost use Rattle.aug_model.specs.declared.summary.Summary.{Summary as NodeSummary};
ghost use Rattle.aug_query.specs.Tree.{IsTreeSet, IsNodeOf, Walks};

use aug_model::Summary;
use aug_monoid::Monoid;

/// A complete binary tree of a set of keys below `2^bits`, each with a weight. The node at level `j` and place
/// `p` covers the keys `p * 2^j` to `(p + 1) * 2^j - 1`. A leaf is at level 0, and its summary counts 1 if its key
/// is a member, else 0. The top is at level `bits`, place 0. Every node carries the summary of the members that it
/// covers, and a leaf its key's weight.
///
/// A walk may load each node anew, so it takes `&mut self`. But it does not change the tree: its set and bits stay,
/// and a node that was once handed out stays one of its nodes.
pub trait Tree<A: Monoid, B: Monoid> {
    /// A node as a walk holds it: its level and place, its summary, and a leaf's weight.
    type Node: Drop;

    // How many bits the keys have, and the members, rising, each with its weight.
    ghost set_of: { Self → SetFacts };

    // How often `top`, `left` and `right` have been called. It takes no bytes.
    ghost calls_of: { Self → ℕ };

    // Opaque: the node is one of this tree. What that comes to, two laws say.
    ghost HasNode: { Self → Self.Node → Type 0 };

    // What a walk keeps of the tree besides its set, from what the tree was to what it has become.
    ghost KeepsRest: { Self → Self → Type 0 };

    // How far above the leaves a node stands.
    ghost level_of: { Self.Node → ℕ };

    // How many nodes of its level stand before a node.
    ghost place_of: { Self.Node → ℕ };

    // The summary that a node carries.
    ghost summary_in: { Self.Node → NodeSummary A B };

    // The weight of a leaf's key, 0 if it is no member.
    ghost weight_by: { Self.Node → ℕ };

    /// How many bits the keys have, from 1 to 16.
    fn bits(&self) -> u32
        ensures value { result ≡ (set_of self.now).bits }
        ensures set { IsTreeSet (set_of self.now) };

    /// The node that covers every key.
    fn top(&mut self) -> Self::Node
        ensures walks { Walks set_of calls_of HasNode KeepsRest 1 self.old self.new }
        ensures node { HasNode self.new result }
        ensures level { level_of result ≡ (set_of self.old).bits }
        ensures place { place_of result ≡ 0 };

    /// The child of `node` that covers the lesser half of its keys.
    fn left(&mut self, node: &Self::Node) -> Self::Node
        requires node { HasNode self.old node.now }
        requires inner { 1 ≤ level_of node.now }
        ensures walks { Walks set_of calls_of HasNode KeepsRest 1 self.old self.new }
        ensures node { HasNode self.new result }
        ensures level { level_of result + 1 ≡ level_of node.now }
        ensures place { place_of result ≡ 2 * place_of node.now };

    /// The child of `node` that covers the greater half of its keys.
    fn right(&mut self, node: &Self::Node) -> Self::Node
        requires node { HasNode self.old node.now }
        requires inner { 1 ≤ level_of node.now }
        ensures walks { Walks set_of calls_of HasNode KeepsRest 1 self.old self.new }
        ensures node { HasNode self.new result }
        ensures level { level_of result + 1 ≡ level_of node.now }
        ensures place { place_of result ≡ 2 * place_of node.now + 1 };

    /// How far above the leaves `node` stands.
    fn level(node: &Self::Node) -> u32
        ensures { result ≡ level_of node.now };

    /// How many nodes of its level stand before `node`.
    fn place(node: &Self::Node) -> u32
        ensures { result ≡ place_of node.now };

    /// The summary of the members that `node` covers.
    fn summary(node: &Self::Node) -> Summary<A, B>
        ensures { result ≡ summary_in node.now };

    /// The weight of the key that the leaf `node` covers, or 0 if that key is no member.
    fn weight(node: &Self::Node) -> u32
        requires { level_of node.now ≡ 0 }
        ensures { result ≡ weight_by node.now };

    // A tree that no call has changed keeps it.
    ghost keeps_so: { (tree : Self) → KeepsRest tree tree };

    // What two walks keep, the one after the other, the walk of both keeps.
    ghost keeps_on: { (first tree last : Self) → KeepsRest first tree → KeepsRest tree last → KeepsRest first last };

    // A node of the tree stands within it, and its summary is that of the members that it covers.
    ghost node_tells: { (tree : Self) (node : Self.Node) → HasNode tree node → IsNodeOf (summary_of A.parts B.parts) (set_of tree) (level_of node) (place_of node) (summary_in node) };

    // A leaf of the tree knows its key's weight.
    ghost leaf_weighs: { (tree : Self) (node : Self.Node) → HasNode tree node → level_of node ≡ 0 → weight_by node ≡ weight_in (set_of tree).pairs (place_of node) };
}
