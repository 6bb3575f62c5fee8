//! A weight that is replaced by one exchange of its leaf's word.
ghost use Rattle.std.specs.Prelude.{◌≡◌, ◌<◌, IfOk};
ghost use Rattle.aug_core.specs.Places.{shape_of};
ghost use Rattle.aug_core.specs.Effects.{MayChange};

use super::tables::{assert_leaves, assert_nodes, assert_records, join, next_pass, table_of};
use crate::assertions::holds;
use aug_monoid::Monoid;
use aug_words::{Rest, WordPass};
use std::alloc::{AllocError, Global};

// What one serial adds to a leaf's word.
const SERIAL: u64 = 1 << 32;

// The first two steps of a replacement: the leaf is loaded, and if its key is there, its serial goes up by two and the key
// gets another weight, if the word is still what was loaded.
fn replace<A: Monoid, B: Monoid>(pass: &mut WordPass<'_, A, B>, leaf: usize, weight: u32) -> bool
    requires shape { pass.old.view.shape ≡ shape_of 1 1 1 1 }
    requires leaf { leaf < 2 }
    requires room { MayChange pass.old.view }
    ensures same { (pass.new.table ≡ pass.old.table) × (pass.new.view.shape ≡ pass.old.view.shape) }
{
    let word = pass.begin_at_leaf(leaf);
    let serial = word / SERIAL;
    serial % 2 == 1 && pass.try_leaf(leaf, word, (serial + 2) * SERIAL + u64::from(weight))
}

// A table of 1 bit that opened with the key 0, of weight 0, after a pass gave it another weight.
fn replaced(alloc: Global, weight: u32) -> Result<(bool, Rest), AllocError>
    ensures { IfOk result (λ r. r.1.shape ≡ shape_of 1 1 1 1) }
{
    let (words, mut lead) = table_of(alloc, 1, 1, 1, 1, &[(0, 0)])?;
    let mut pass = next_pass(&mut lead, &words, 0, 2);
    let done = replace(&mut pass, 0, weight);
    join(&mut lead, &words, pass);
    Ok((done, words.close(lead)))
}

// The upper half of the leaf's word at rest is the serial, which was 1 and went up by two, and the lower half is the weight.
#[test]
fn a_weight_is_replaced_by_one_exchange(rt: HostRuntime) -> Result<(), AllocError> {
    let (done, rest) = replaced(rt.alloc(), 8)?;
    holds(&rt, done);
    assert_leaves(&rt, &rest, 1, &[(0, 12_884_901_896), (1, 0)]);
    assert_nodes(&rt, &rest, 1, &[(1, 0, 1)]);
    assert_records(&rt, &rest, 2, &[(1, [4_294_967_296, 0, 1, 0, 0])]);
    Ok(())
}
