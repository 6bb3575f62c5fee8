//! Queries as values.
ghost use Rattle.aug_model.specs.Keys.{SetFacts};
ghost use Rattle.aug_query.specs.Descend.{Loads, DescendsBy};
ghost use Rattle.aug_query.specs.Tree.{WalksAtMost};

use crate::{Descend, Loaded, NodeWalk, Tree};
use aug_monoid::Monoid;
use std::marker::PhantomData;

/// A query of a set of keys, each with a weight: what is asked, and the descent that answers it. Whatever shows a set takes each query by
/// one call, `ask`: a tree ([`ask`]), a pass for one of its snapshots, a lane, a look. A caller's own query is an impl of this trait.
pub trait Query<A: Monoid, B: Monoid> {
    /// What answers it.
    type Answer;

    // The answer is that of a set.
    ghost Answers: { Self → SetFacts → Self.Answer → Type 0 };

    // How much of the tree of a set it loads at most.
    ghost most: { Self → SetFacts → Loads };

    /// Descends to the answer.
    fn run<D: Descend<A, B>>(self, tree: &mut D) -> Self::Answer
        ensures answer { Answers self (D.set_of tree.old) result }
        ensures descends { DescendsBy D.set_of D.loads_of D.Names D.KeepsRest (most self (D.set_of tree.old)) tree.old tree.new };
}

/// Asks a tree, whose nodes are loaded whole.
pub fn ask<A: Monoid, B: Monoid, T: Tree<A, B>, Q: Query<A, B>>(tree: &mut T, query: Q) -> Q::Answer
    ensures answer { Q.Answers query (T.set_of tree.old) result }
    ensures walks { WalksAtMost T.set_of T.calls_of T.HasNode T.KeepsRest (Q.most query (T.set_of tree.old)).nodes tree.old tree.new }
{
    let mut walk = NodeWalk {
        tree,
        loaded: Loaded::nothing(),
        monoids: PhantomData,
    };
    query.run(&mut walk)
}
