//! The rows of a tree in memory: the summaries of the nodes of a level, places rising.
ghost use Rattle.std.specs.Prelude.{◌≡◌, ◌^◌, ◌<◌, [], length, IfOk};
ghost use Rattle.std.specs.List.{All};
ghost use Rattle.aug_model.specs.Folds.{summary_of};
ghost use Rattle.aug_query_testing.specs.inside.Rows.{HasWeights, IsRow, JoinsPairs};
ghost use Rattle.aug_query.specs.Tree.{IsTreeSet};

use crate::summaries::{joined, of_none, of_one};
use aug_model::Summary;
use aug_monoid::Monoid;
use std::alloc::{AllocError, Global};

// The row of the leaves of a set of keys with weights.
pub(crate) fn leaf_row<A: Monoid, B: Monoid>(
    alloc: Global,
    bits: u32,
    pairs: &[(u32, u32)],
) -> Result<Vec<Summary<A, B>>, AllocError>
    requires { IsTreeSet (record { bits = bits; pairs = pairs.now }) }
    ensures { let sum = summary_of A.parts B.parts in
        IfOk result (λ row. IsRow sum bits pairs.now 0 row.items) }
{
    let mut row = empty_row(alloc, 1 << bits)?;
    for &(key, weight) in pairs {
        row[key as usize] = of_one(key, weight);
    }
    Ok(row)
}

// The weight of each key of `bits` bits, 0 if it is in none of `pairs`.
pub(crate) fn leaf_weights(
    alloc: Global,
    bits: u32,
    pairs: &[(u32, u32)],
) -> Result<Vec<u32>, AllocError>
    requires { IsTreeSet (record { bits = bits; pairs = pairs.now }) }
    ensures { IfOk result (λ weights. HasWeights bits pairs.now weights.items) }
{
    let mut weights = vec![in alloc; 0; 1 << bits]?;
    for &(key, weight) in pairs {
        weights[key as usize] = weight;
    }
    Ok(weights)
}

// A row of `width` leaves that cover no member.
fn empty_row<A: Monoid, B: Monoid>(
    alloc: Global,
    width: usize,
) -> Result<Vec<Summary<A, B>>, AllocError>
    ensures all { IfOk result (λ row. length row.items ≡ width) }
    ensures each { let sum = summary_of A.parts B.parts in
        IfOk result (λ row. All (λ leaf. leaf ≡ sum []) row.items) }
{
    let mut row = Vec::with_capacity(alloc, width)?;
    for _ in 0..width {
        row.push(of_none())?;
    }
    Ok(row)
}

// The row above `row`: each of its nodes has two neighbours of `row` as its children.
pub(crate) fn parent_row<A: Monoid, B: Monoid>(
    alloc: Global,
    row: &[Summary<A, B>],
) -> Result<Vec<Summary<A, B>>, AllocError>
    requires { All (λ node. node.count < 2 ^ 31) row.now }
    ensures { let sum = summary_of A.parts B.parts in
        IfOk result (λ above. JoinsPairs sum row.now above.items) }
{
    let width = row.len() / 2;
    let mut above = Vec::with_capacity(alloc, width)?;
    for place in 0..width {
        above.push(joined(row[2 * place], row[2 * place + 1]))?;
    }
    Ok(above)
}
