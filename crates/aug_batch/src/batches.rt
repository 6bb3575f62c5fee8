//! The same query for many keys, in any order. Four keys at a time go down together.
ghost use Rattle.std.specs.Prelude.{◌≡◌, ◌+◌, ◌-◌, ◌*◌, ◌<◌, ◌≤◌, ◌++◌, length, map, take, drop, vec_len, vec_capacity};
ghost use Rattle.aug_model.specs.Keys.{is_member, list_of};
ghost use Rattle.aug_model.specs.Queries.{rank_of, weight_of};
ghost use Rattle.aug_query.specs.Descend.{Descends, loads};

use crate::together::answer_four;
use aug_monoid::Monoid;
use aug_query::descent::{ByKey, Has, Rank, Weight};
use aug_query::{Descend, Query};

/// How many members are below each of the keys, put at the end of a list that has room for that.
#[derive(Drop)]
pub struct Ranks<'k> {
    pub keys: &'k [u32],
    pub out: Vec<u32>,
    pub ghost room: { vec_len out + length keys.now ≤ vec_capacity out },
}

impl<A: Monoid, B: Monoid> Query<A, B> for Ranks<'_> {
    type Answer = Vec<u32>;

    ghost use Rattle.std.specs.Prelude.{◌≡◌, ◌+◌, ◌*◌, ◌++◌, length, map, vec_capacity};
    ghost use Rattle.aug_model.specs.Keys.{list_of};
    ghost use Rattle.aug_model.specs.Queries.{rank_of};
    ghost use Rattle.aug_query.specs.Descend.{loads};

    ghost Answers = { λ q set out. (out.items ≡ q.out.items ++ map (λ k. rank_of (list_of set) k) q.keys.now) × (vec_capacity out ≡ vec_capacity q.out) };

    ghost most = { λ q set. loads (length q.keys.now * (set.bits + 1)) (length q.keys.now) 0 (length q.keys.now * set.bits) };

    #[inline(always)]
    fn run<D: Descend<A, B>>(self, tree: &mut D) -> Vec<u32> {
        let Ranks { keys, mut out } = self;
        ask_all::<A, B, D, Rank>(tree, keys, &mut out);
        out
    }
}

/// Whether each of the keys is a member, put at the end of a list that has room for that.
#[derive(Drop)]
pub struct Memberships<'k> {
    pub keys: &'k [u32],
    pub out: Vec<bool>,
    pub ghost room: { vec_len out + length keys.now ≤ vec_capacity out },
}

impl<A: Monoid, B: Monoid> Query<A, B> for Memberships<'_> {
    type Answer = Vec<bool>;

    ghost use Rattle.std.specs.Prelude.{◌≡◌, ◌+◌, ◌*◌, ◌++◌, length, map, vec_capacity};
    ghost use Rattle.aug_model.specs.Keys.{is_member, list_of};
    ghost use Rattle.aug_query.specs.Descend.{loads};

    ghost Answers = { λ q set out. (out.items ≡ q.out.items ++ map (λ k. is_member (list_of set) k) q.keys.now) × (vec_capacity out ≡ vec_capacity q.out) };

    ghost most = { λ q set. loads (length q.keys.now * (set.bits + 1)) (length q.keys.now) 0 0 };

    #[inline(always)]
    fn run<D: Descend<A, B>>(self, tree: &mut D) -> Vec<bool> {
        let Memberships { keys, mut out } = self;
        ask_all::<A, B, D, Has>(tree, keys, &mut out);
        out
    }
}

/// The weight of each of the keys, if it is a member, put at the end of a list that has room for that.
#[derive(Drop)]
pub struct Weights<'k> {
    pub keys: &'k [u32],
    pub out: Vec<Option<u32>>,
    pub ghost room: { vec_len out + length keys.now ≤ vec_capacity out },
}

impl<A: Monoid, B: Monoid> Query<A, B> for Weights<'_> {
    type Answer = Vec<Option<u32>>;

    ghost use Rattle.std.specs.Prelude.{◌≡◌, ◌+◌, ◌*◌, ◌++◌, length, map, vec_capacity};
    ghost use Rattle.aug_model.specs.Queries.{weight_of};
    ghost use Rattle.aug_query.specs.Descend.{loads};

    ghost Answers = { λ q set out. (out.items ≡ q.out.items ++ map (λ k. weight_of set.pairs k) q.keys.now) × (vec_capacity out ≡ vec_capacity q.out) };

    ghost most = { λ q set. loads (length q.keys.now * (set.bits + 1)) (length q.keys.now) 0 0 };

    #[inline(always)]
    fn run<D: Descend<A, B>>(self, tree: &mut D) -> Vec<Option<u32>> {
        let Weights { keys, mut out } = self;
        ask_all::<A, B, D, Weight>(tree, keys, &mut out);
        out
    }
}

// Puts the answer for each key at the end of `out`.
#[inline(always)]
fn ask_all<A: Monoid, B: Monoid, D: Descend<A, B>, Q: ByKey<A, B>>(
    tree: &mut D,
    keys: &[u32],
    out: &mut Vec<Q::Value>,
)
    requires room { vec_len out.old + length keys.now ≤ vec_capacity out.old }
    ensures answer { out.new.items ≡ out.old.items ++ map (λ k. Q.value_of (D.set_of tree.old) k) keys.now }
    ensures room { vec_capacity out.new ≡ vec_capacity out.old }
    ensures descends { Descends D.set_of D.loads_of D.Names D.KeepsRest (length keys.now * ((D.set_of tree.old).bits + 1)) (length keys.now) 0 (length keys.now * (Q.passed * (D.set_of tree.old).bits)) tree.old tree.new }
{
    let mut at = 0;
    while at < keys.len() {
        at += ask_some::<A, B, D, Q>(tree, keys, at, out);
    }
}

// Does so for some of the keys, from a place on, and says for how many: four, or one where fewer than four are left.
#[inline(always)]
fn ask_some<A: Monoid, B: Monoid, D: Descend<A, B>, Q: ByKey<A, B>>(
    tree: &mut D,
    keys: &[u32],
    at: usize,
    out: &mut Vec<Q::Value>,
) -> usize
    requires at { at < length keys.now }
    requires room { vec_len out.old + (length keys.now - at) ≤ vec_capacity out.old }
    ensures some { 1 ≤ result }
    ensures within { at + result ≤ length keys.now }
    ensures answer { out.new.items ≡ out.old.items ++ map (λ k. Q.value_of (D.set_of tree.old) k) (take result (drop at keys.now)) }
    ensures length { vec_len out.new ≡ vec_len out.old + result }
    ensures room { vec_capacity out.new ≡ vec_capacity out.old }
    ensures descends { Descends D.set_of D.loads_of D.Names D.KeepsRest (result * ((D.set_of tree.old).bits + 1)) result 0 (result * (Q.passed * (D.set_of tree.old).bits)) tree.old tree.new }
{
    if keys.len() - at < 4 {
        out.push_reserved(Q::one(tree, keys[at]));
        return 1;
    }
    let (p, q, r, s) = answer_four::<A, B, D, Q>(
        tree,
        keys[at],
        keys[at + 1],
        keys[at + 2],
        keys[at + 3],
    );
    out.push_reserved(p);
    out.push_reserved(q);
    out.push_reserved(r);
    out.push_reserved(s);
    4
}
