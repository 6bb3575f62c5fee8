//! Four keys that go down together.
ghost use Rattle.std.specs.Prelude.{◌≡◌, ◌+◌, ◌*◌, ◌^◌, ◌<◌};
ghost use Rattle.aug_query.specs.Descend.{Descends, loads};
ghost use Rattle.aug_batch.specs.inside.Together.{AreWays, IsWay};

use aug_monoid::Monoid;
use aug_query::descent::ByKey;
use aug_query::{Descend, Query};

/// Four queries of a kind, each of one key. They go down one level at a time, so that no load waits for those of another key.
#[derive(Clone, Copy)]
pub struct Four<Q>(pub Q, pub Q, pub Q, pub Q);

impl<A: Monoid, B: Monoid, Q: ByKey<A, B>> Query<A, B> for Four<Q> {
    type Answer = (Q::Value, Q::Value, Q::Value, Q::Value);

    ghost Answers = { λ q set answer. (answer.0 ≡ Q.value_of set (Q.key_of q.0)) × (answer.1 ≡ Q.value_of set (Q.key_of q.1)) × (answer.2 ≡ Q.value_of set (Q.key_of q.2)) × (answer.3 ≡ Q.value_of set (Q.key_of q.3)) };

    ghost most = { λ q set. loads (4 * (set.bits + 1)) 4 0 (4 * (Q.passed * set.bits)) };

    #[inline(always)]
    fn run<D: Descend<A, B>>(self, tree: &mut D) -> (Q::Value, Q::Value, Q::Value, Q::Value) {
        let Four(p, q, r, s) = self;
        answer_four::<A, B, D, Q>(tree, p.key(), q.key(), r.key(), s.key())
    }
}

// The answers for four keys. Where one of them is past all keys of the tree, they are asked one after the other.
#[inline(always)]
pub(crate) fn answer_four<A: Monoid, B: Monoid, D: Descend<A, B>, Q: ByKey<A, B>>(
    tree: &mut D,
    p: u32,
    q: u32,
    r: u32,
    s: u32,
) -> (Q::Value, Q::Value, Q::Value, Q::Value)
    ensures p { result.0 ≡ Q.value_of (D.set_of tree.old) p }
    ensures q { result.1 ≡ Q.value_of (D.set_of tree.old) q }
    ensures r { result.2 ≡ Q.value_of (D.set_of tree.old) r }
    ensures s { result.3 ≡ Q.value_of (D.set_of tree.old) s }
    ensures descends { Descends D.set_of D.loads_of D.Names D.KeepsRest (4 * ((D.set_of tree.old).bits + 1)) 4 0 (4 * (Q.passed * (D.set_of tree.old).bits)) tree.old tree.new }
{
    let bits = tree.bits();
    if 1 << bits <= p.max(q).max(r).max(s) {
        return one_by_one::<A, B, D, Q>(tree, p, q, r, s);
    }
    let mut level = bits - 1;
    let mut ways = begin_all::<A, B, D, Q>(tree, p, q, r, s);
    while level > 0 {
        ways = lower_all::<A, B, D, Q>(tree, level, p, q, r, s, ways);
        level -= 1;
    }
    end_all::<A, B, D, Q>(tree, p, q, r, s, &ways)
}

// Those of any four keys. It is inlined: a call would take the tree by its address, and then no load could keep what it needs in registers.
#[inline(always)]
fn one_by_one<A: Monoid, B: Monoid, D: Descend<A, B>, Q: ByKey<A, B>>(
    tree: &mut D,
    p: u32,
    q: u32,
    r: u32,
    s: u32,
) -> (Q::Value, Q::Value, Q::Value, Q::Value)
    ensures p { result.0 ≡ Q.value_of (D.set_of tree.old) p }
    ensures q { result.1 ≡ Q.value_of (D.set_of tree.old) q }
    ensures r { result.2 ≡ Q.value_of (D.set_of tree.old) r }
    ensures s { result.3 ≡ Q.value_of (D.set_of tree.old) s }
    ensures descends { Descends D.set_of D.loads_of D.Names D.KeepsRest (4 * ((D.set_of tree.old).bits + 1)) 4 0 (4 * (Q.passed * (D.set_of tree.old).bits)) tree.old tree.new }
{
    let p = Q::one(tree, p);
    let q = Q::one(tree, q);
    let r = Q::one(tree, r);
    let s = Q::one(tree, s);
    (p, q, r, s)
}

// How far a key has come: the node that covers it, and what was counted.
#[derive(Drop)]
struct Way<N> {
    node: N,
    counted: u32,
}

#[derive(Drop)]
struct Ways<N> {
    p: Way<N>,
    q: Way<N>,
    r: Way<N>,
    s: Way<N>,
}

// The way of a key, at the top. The key is for the contract alone.
#[inline(always)]
fn begin<A: Monoid, B: Monoid, D: Descend<A, B>, Q: ByKey<A, B>>(
    tree: &mut D,
    key: u32,
) -> Way<D::Name>
    requires { key < 2 ^ (D.set_of tree.old).bits }
    ensures way { IsWay D.set_of D.Names Q.Counts tree.new (D.set_of tree.old).bits key result }
    ensures descends { Descends D.set_of D.loads_of D.Names D.KeepsRest 1 0 0 0 tree.old tree.new }
{
    let _ = key;
    let node = tree.top();
    Way { node, counted: 0 }
}

// The ways of four keys, at the top.
#[inline(always)]
fn begin_all<A: Monoid, B: Monoid, D: Descend<A, B>, Q: ByKey<A, B>>(
    tree: &mut D,
    p: u32,
    q: u32,
    r: u32,
    s: u32,
) -> Ways<D::Name>
    requires p { p < 2 ^ (D.set_of tree.old).bits }
    requires q { q < 2 ^ (D.set_of tree.old).bits }
    requires r { r < 2 ^ (D.set_of tree.old).bits }
    requires s { s < 2 ^ (D.set_of tree.old).bits }
    ensures ways { AreWays D.set_of D.Names Q.Counts tree.new (D.set_of tree.old).bits p q r s result }
    ensures descends { Descends D.set_of D.loads_of D.Names D.KeepsRest 4 0 0 0 tree.old tree.new }
{
    let p = begin::<A, B, D, Q>(tree, p);
    let q = begin::<A, B, D, Q>(tree, q);
    let r = begin::<A, B, D, Q>(tree, r);
    let s = begin::<A, B, D, Q>(tree, s);
    Ways { p, q, r, s }
}

// A way one level lower.
#[inline(always)]
fn lower<A: Monoid, B: Monoid, D: Descend<A, B>, Q: ByKey<A, B>>(
    tree: &mut D,
    level: u32,
    key: u32,
    way: Way<D::Name>,
) -> Way<D::Name>
    requires { IsWay D.set_of D.Names Q.Counts tree.old (level + 1) key way }
    ensures way { IsWay D.set_of D.Names Q.Counts tree.new level key result }
    ensures descends { Descends D.set_of D.loads_of D.Names D.KeepsRest 1 0 0 Q.passed tree.old tree.new }
{
    let (node, counted) = Q::step(tree, level, key, &way.node, way.counted);
    Way { node, counted }
}

// Four ways one level lower.
#[inline(always)]
fn lower_all<A: Monoid, B: Monoid, D: Descend<A, B>, Q: ByKey<A, B>>(
    tree: &mut D,
    level: u32,
    p: u32,
    q: u32,
    r: u32,
    s: u32,
    ways: Ways<D::Name>,
) -> Ways<D::Name>
    requires { AreWays D.set_of D.Names Q.Counts tree.old (level + 1) p q r s ways }
    ensures ways { AreWays D.set_of D.Names Q.Counts tree.new level p q r s result }
    ensures descends { Descends D.set_of D.loads_of D.Names D.KeepsRest 4 0 0 (4 * Q.passed) tree.old tree.new }
{
    let p = lower::<A, B, D, Q>(tree, level, p, ways.p);
    let q = lower::<A, B, D, Q>(tree, level, q, ways.q);
    let r = lower::<A, B, D, Q>(tree, level, r, ways.r);
    let s = lower::<A, B, D, Q>(tree, level, s, ways.s);
    Ways { p, q, r, s }
}

// The answers of four keys, by their ways to the nodes above their leaves.
#[inline(always)]
fn end_all<A: Monoid, B: Monoid, D: Descend<A, B>, Q: ByKey<A, B>>(
    tree: &mut D,
    p: u32,
    q: u32,
    r: u32,
    s: u32,
    ways: &Ways<D::Name>,
) -> (Q::Value, Q::Value, Q::Value, Q::Value)
    requires { AreWays D.set_of D.Names Q.Counts tree.old 1 p q r s ways.now }
    ensures p { result.0 ≡ Q.value_of (D.set_of tree.old) p }
    ensures q { result.1 ≡ Q.value_of (D.set_of tree.old) q }
    ensures r { result.2 ≡ Q.value_of (D.set_of tree.old) r }
    ensures s { result.3 ≡ Q.value_of (D.set_of tree.old) s }
    ensures descends { Descends D.set_of D.loads_of D.Names D.KeepsRest 4 4 0 0 tree.old tree.new }
{
    let p = Q::end(tree, p, &ways.p.node, ways.p.counted);
    let q = Q::end(tree, q, &ways.q.node, ways.q.counted);
    let r = Q::end(tree, r, &ways.r.node, ways.r.counted);
    let s = Q::end(tree, s, &ways.s.node, ways.s.counted);
    (p, q, r, s)
}
