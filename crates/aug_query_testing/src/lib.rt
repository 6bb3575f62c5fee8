//! What tests of queries ask: a tree in memory.
#![tactic(auto)]

mod fake_tree;
mod noted;
mod rows;
mod summaries;

pub use fake_tree::{FakeNode, FakeTree};
