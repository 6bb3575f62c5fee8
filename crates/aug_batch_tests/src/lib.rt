//! The tests of `aug_batch`: the answers for some keys of a tree.
#![tactic(auto)]

#[cfg(test)]
mod assertions;
#[cfg(test)]
mod batches;
