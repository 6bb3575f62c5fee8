//! A snapshot as a tree that queries walk.
ghost use Rattle.std.specs.Prelude.{◌≡◌, ℕ, ◌<◌};
ghost use Rattle.aug_trie.specs.Snapshot.{HasSnapshot, set_at};

use crate::queries::node::Node;
use crate::queries::snapshot::Snapshot;
use crate::rounds::pass::Pass;
use crate::updates::leaf_words::leaf_weight;
use aug_model::Summary;
use aug_monoid::Monoid;
use aug_query::{Calls, Tree};

/// The tree of a snapshot of a pass, which the pass walks. For your own query over [`Tree`], write it out as
/// `View { pass: &mut pass, snapshot, calls: Calls::new() }`. Then contracts know the state of the pass after the view is gone.
/// `KeepsPass` says what a query leaves unchanged in the pass: it makes at most four steps for each call of the tree, and learns
/// nothing.
pub struct View<'p, 'r, A: Monoid, B: Monoid> {
    /// The pass. It is borrowed as long as the view exists.
    pub pass: &'p mut Pass<'r, A, B>,
    /// A snapshot of this pass.
    pub snapshot: Snapshot,
    /// How often the tree was called. Only contracts read it.
    pub calls: Calls,
    pub ghost of_pass: { HasSnapshot pass.now snapshot },
}

impl<A: Monoid, B: Monoid> Drop for View<'_, '_, A, B> {
    fn drop(self)
        ensures { self.exit.0.now ≡ self.entry.pass.now }
    {
        let View {
            pass: _,
            snapshot: _,
            calls: _,
        } = self;
    }
}

impl<A: Monoid, B: Monoid> Tree<A, B> for View<'_, '_, A, B> {
    type Node = Node<A, B>;

    ghost use Rattle.std.specs.Prelude.{◌≡◌, ℕ};
    ghost use Rattle.aug_model.specs.Folds.{summary_of};
    ghost use Rattle.aug_trie.specs.Node.{HasNode as IsNode};
    ghost use Rattle.aug_trie.specs.Snapshot.{set_at};
    ghost use Rattle.aug_trie.specs.LeafWords.{weight_in_word};
    ghost use Rattle.aug_trie.specs.View.{KeepsPass};
    ghost use Rattle.aug_trie.specs.inside.ViewLaws.{kept_so, kept_on, node_of, leaf_weighs};

    ghost set_of = { λ v. set_at v.pass.now v.snapshot };

    ghost calls_of = { λ v. v.calls.made };

    ghost HasNode = { λ v n. (n.snapshot ≡ v.snapshot) × IsNode (summary_of A.parts B.parts) v.pass.now n };

    ghost KeepsRest = { λ first v. KeepsPass (summary_of A.parts B.parts) first.pass v.pass first.snapshot v.snapshot first.calls.made v.calls.made };

    ghost level_of = { λ n. n.level };

    ghost place_of = { λ n. n.place };

    ghost summary_in = { λ n. n.summary };

    ghost weight_by = { λ n. weight_in_word n.word };

    ghost keeps_so = { λ v. kept_so (summary_of A.parts B.parts) v.pass v.snapshot v.calls.made };

    ghost keeps_on = { λ first v last a b. kept_on (summary_of A.parts B.parts) first.pass v.pass last.pass first.snapshot v.snapshot last.snapshot first.calls.made v.calls.made last.calls.made a b };

    ghost leaf_weighs = { λ v n has level. leaf_weighs (summary_of A.parts B.parts) v.pass.now v.snapshot n has.0 has.1 level };

    ghost node_tells = { λ v n has. node_of (summary_of A.parts B.parts) v.pass.now v.snapshot n has.0 has.1 };

    fn bits(&self) -> u32 {
        self.pass.bits()
    }

    fn top(&mut self) -> Node<A, B> {
        self.calls = self.calls.one_more();
        self.pass.top(&self.snapshot)
    }

    fn left(&mut self, node: &Node<A, B>) -> Node<A, B> {
        self.calls = self.calls.one_more();
        self.pass.left(node)
    }

    fn right(&mut self, node: &Node<A, B>) -> Node<A, B> {
        self.calls = self.calls.one_more();
        self.pass.right(node)
    }

    fn level(node: &Node<A, B>) -> u32 {
        node.level
    }

    fn place(node: &Node<A, B>) -> u32 {
        node.place
    }

    fn summary(node: &Node<A, B>) -> Summary<A, B> {
        node.summary
    }

    fn weight(node: &Node<A, B>) -> u32 {
        leaf_weight(node.word)
    }
}
