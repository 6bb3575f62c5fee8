//! A tree whose nodes are loaded whole, as a descent walks it.
ghost use Rattle.std.specs.Prelude.{◌≡◌};

use crate::{Descend, Loaded, Tree};
use aug_model::Summary;
use aug_monoid::Monoid;
use std::marker::PhantomData;

/// A [`Tree`] as a [`Descend`]: the name of a node is the node itself, so counts, summaries and the node beside it cost nothing more.
pub struct NodeWalk<'t, A: Monoid, B: Monoid, T: Tree<A, B>> {
    /// The tree. It is borrowed as long as the walk is there.
    pub tree: &'t mut T,
    /// How much was loaded. Only contracts read it.
    pub loaded: Loaded,
    /// The monoids of the tree's summaries.
    pub monoids: PhantomData<(A, B)>,
}

impl<A: Monoid, B: Monoid, T: Tree<A, B>> Drop for NodeWalk<'_, A, B, T> {
    fn drop(self)
        ensures { self.exit.0.now ≡ self.entry.tree.now }
    {
        let NodeWalk {
            tree: _,
            loaded: _,
            monoids: _,
        } = self;
    }
}

impl<A: Monoid, B: Monoid, T: Tree<A, B>> Descend<A, B> for NodeWalk<'_, A, B, T> {
    type Name = T::Node;

    ghost use Rattle.aug_query.specs.NodeWalk.{KeepsWalk};
    ghost use Rattle.aug_query.specs.inside.NodePlaces.{NamesNode};
    ghost use Rattle.aug_query.specs.inside.NodeWalkLaws.{kept_so, kept_on, stands};

    ghost set_of = { λ w. T.set_of w.tree.now };

    ghost loads_of = { λ w. w.loaded };

    ghost Names = { λ w level place node. NamesNode T.HasNode T.level_of T.place_of w.tree.now level place node };

    ghost KeepsRest = { λ first w. KeepsWalk T.calls_of T.HasNode T.KeepsRest first.tree w.tree first.loaded w.loaded };

    ghost keeps_so = { λ w. kept_so T.keeps_so w.tree w.loaded };

    ghost keeps_on = { λ first w last a b. kept_on T.keeps_on first.tree w.tree last.tree first.loaded w.loaded last.loaded a b };

    ghost name_stands = { λ w level place node has. stands T.node_tells w.tree.now level place node has };

    fn bits(&self) -> u32 {
        self.tree.bits()
    }

    fn top(&mut self) -> T::Node {
        self.loaded.one_node();
        self.tree.top()
    }

    fn left(&mut self, _level: u32, _place: u32, node: &T::Node) -> T::Node {
        self.loaded.one_node();
        self.tree.left(node)
    }

    fn right(&mut self, _level: u32, _place: u32, node: &T::Node) -> T::Node {
        self.loaded.one_node();
        self.tree.right(node)
    }

    fn past_left(&mut self, _level: u32, _place: u32, node: &T::Node) -> (T::Node, u32) {
        self.loaded.one_past();
        let right = self.tree.right(node);
        let passed = T::summary(node).count - T::summary(&right).count;
        (right, passed)
    }

    fn past_right(&mut self, _level: u32, _place: u32, node: &T::Node) -> (T::Node, u32) {
        self.loaded.one_past();
        let left = self.tree.left(node);
        let passed = T::summary(node).count - T::summary(&left).count;
        (left, passed)
    }

    fn child_past(
        &mut self,
        level: u32,
        place: u32,
        node: &T::Node,
        right: bool,
    ) -> (T::Node, u32) {
        if right {
            return self.past_left(level, place, node);
        }
        self.loaded.one_past();
        (self.tree.left(node), 0)
    }

    fn count(&mut self, _level: u32, _place: u32, node: &T::Node) -> u32 {
        self.loaded.one_count();
        T::summary(node).count
    }

    fn summary(&mut self, _level: u32, _place: u32, node: &T::Node) -> Summary<A, B> {
        self.loaded.one_summary();
        T::summary(node)
    }

    fn weight(&self, _place: u32, node: &T::Node) -> u32 {
        T::weight(node)
    }
}
