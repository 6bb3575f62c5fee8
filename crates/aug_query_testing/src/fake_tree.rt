//! A tree in memory.
ghost use Rattle.std.specs.Prelude.{◌≡◌, ℕ, ◌+◌, ◌-◌, ◌*◌, ◌^◌, ◌<◌, ◌≤◌, List, All, IfOk};
ghost use Rattle.aug_model.specs.Folds.{summary_of};
ghost use Rattle.aug_model.specs.Keys.{IsKeySet, keys_of};
ghost use Rattle.aug_monoid.specs.Weighted.{FitsPair};
ghost use Rattle.aug_query_testing.specs.inside.FakeNodes.{IsFakeNode};

use crate::noted::NotedPairs;
use crate::rows::{leaf_row, leaf_weights, parent_row};
use aug_model::{Calls, Summary};
use aug_monoid::Monoid;
use aug_query::Tree;
use std::alloc::{AllocError, Global};
use std::marker::Model;

/// A node of a `FakeTree`.
#[derive(Clone, Copy)]
pub struct FakeNode<A, B> {
    level: u32,
    place: u32,
    summary: Summary<A, B>,
    // that of a leaf's key; 0 if the key is no member, and in the nodes above
    weight: u32,
}

/// The complete tree of a set of keys, each with a weight, in plain memory. Each node has its summary. Tests walk it.
#[derive(Drop)]
pub struct FakeTree<A: Monoid, B: Monoid> {
    bits: u32,
    rows: Vec<Vec<Summary<A, B>>>,
    weights: Vec<u32>,
    pairs: NotedPairs,
    calls: Calls,
}

impl<A: Monoid, B: Monoid> Model for FakeTree<A, B> {
    ghost use Rattle.std.specs.Prelude.{map};
    ghost use Rattle.aug_model.specs.Folds.{summary_of};
    ghost use Rattle.aug_query_testing.specs.FakeTree.{Asked};
    ghost use Rattle.aug_query_testing.specs.inside.Rows.{HoldsTree};

    ghost Value = { Asked };

    ghost view = { λ t. record { set = record { bits = t.bits; pairs = t.pairs.list }; calls = t.calls.made } };

    ghost invariant = { λ t. HoldsTree (summary_of A.parts B.parts) t.bits t.pairs.list (map (λ row. row.items) t.rows.items) t.weights.items };
}

impl<A: Monoid, B: Monoid> FakeTree<A, B> {
    /// The tree of the set of `pairs`, each a key and its weight. The keys rise and are below `2^bits`; `bits` is 1
    /// to 16.
    pub fn try_new(
        alloc: Global,
        bits: u32,
        pairs: &[(u32, u32)],
    ) -> Result<FakeTree<A, B>, AllocError>
        requires some_bits { 1 ≤ bits }
        requires few_bits { bits ≤ 16 }
        requires keys { IsKeySet bits (keys_of pairs.now) }
        requires fit { All FitsPair pairs.now }
        ensures set { IfOk result (λ tree. tree.set ≡ record { bits = bits; pairs = pairs.now }) }
        ensures calls { IfOk result (λ tree. tree.calls ≡ 0) }
    {
        let mut rows = Vec::with_capacity(alloc, bits as usize + 1)?;
        rows.push(leaf_row(alloc, bits, pairs)?)?;
        for level in 0..bits {
            let above = parent_row(alloc, &rows[level as usize])?;
            rows.push(above)?;
        }
        let weights = leaf_weights(alloc, bits, pairs)?;
        Ok(FakeTree {
            bits,
            rows,
            weights,
            pairs: NotedPairs::of(pairs),
            calls: Calls::new(),
        })
    }

    // The node at a level and a place.
    fn node(&self, level: u32, place: u32) -> FakeNode<A, B>
        requires level { level ≤ self.now.set.bits }
        requires place { (place + 1) * 2 ^ level ≤ 2 ^ self.now.set.bits }
        ensures node { IsFakeNode (summary_of A.parts B.parts) self.now.set level place result.weight result.summary }
        ensures level { result.level ≡ level }
        ensures place { result.place ≡ place }
    {
        let row = &self.rows[level as usize];
        let weight = if level == 0 {
            self.weights[place as usize]
        } else {
            0
        };
        FakeNode {
            level,
            place,
            summary: row[place as usize],
            weight,
        }
    }
}

impl<A: Monoid, B: Monoid> Tree<A, B> for FakeTree<A, B> {
    type Node = FakeNode<A, B>;

    ghost use Rattle.std.specs.Prelude.{ℕ, ⊤};
    ghost use Rattle.aug_model.specs.Folds.{summary_of};
    ghost use Rattle.aug_query_testing.specs.inside.FakeNodes.{IsFakeNode};

    ghost set_of = { λ t. t.set };

    ghost calls_of = { λ t. t.calls };

    ghost HasNode = { λ t n. IsFakeNode (summary_of A.parts B.parts) t.set n.level n.place n.weight n.summary };

    ghost KeepsRest = { λ old new. ⊤ };

    ghost level_of = { λ n. n.level };

    ghost place_of = { λ n. n.place };

    ghost summary_in = { λ n. n.summary };

    ghost weight_by = { λ n. n.weight };

    ghost keeps_so = { λ t. tt };

    ghost keeps_on = { λ first t last a b. tt };

    ghost node_tells = { λ t n has. has.is_node };

    ghost leaf_weighs = { λ t n has leaf. has.weighs leaf };

    fn bits(&self) -> u32 {
        self.bits
    }

    fn top(&mut self) -> FakeNode<A, B> {
        self.calls = self.calls.one_more();
        self.node(self.bits, 0)
    }

    fn left(&mut self, node: &FakeNode<A, B>) -> FakeNode<A, B> {
        self.calls = self.calls.one_more();
        self.node(node.level - 1, 2 * node.place)
    }

    fn right(&mut self, node: &FakeNode<A, B>) -> FakeNode<A, B> {
        self.calls = self.calls.one_more();
        self.node(node.level - 1, 2 * node.place + 1)
    }

    fn level(node: &FakeNode<A, B>) -> u32 {
        node.level
    }

    fn place(node: &FakeNode<A, B>) -> u32 {
        node.place
    }

    fn summary(node: &FakeNode<A, B>) -> Summary<A, B> {
        node.summary
    }

    fn weight(node: &FakeNode<A, B>) -> u32 {
        node.weight
    }
}
