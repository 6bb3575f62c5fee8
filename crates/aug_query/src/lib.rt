//! Queries on a tree of a set of keys with weights, by descent from its top (after Fatourou and Ruppert 2024).
//!
//! Each query is a value, a [`Query`], and is written once, in [`descent`]: it descends by the counts of the nodes, and loads no more than it
//! needs. The functions here ask a [`Tree`], whose nodes are loaded whole. Only `keys` and `pairs` take memory. If keys have
//! `bits` bits, a query makes at most this many calls of `top`, `left` and `right` of a tree: `size` 1; `has`, `weight` and `rank`
//! `bits + 1`; `select` `2 * bits + 1`; `before` and `after` `3 * bits`; `range` `4 * bits - 1`; `keys` and `pairs`, which visit each of
//! `n` members, `2 * bits * n + 1`.
#![tactic(auto)]

mod descend;
mod descend_both;
pub mod descent;
mod loaded;
mod member_list;
mod node_walk;
mod queries;
mod query;
mod summaries;
mod toward;
mod tree;

pub use aug_model::Calls;
pub use descend::Descend;
pub use descend_both::DescendBoth;
pub use loaded::Loaded;
pub use member_list::MemberList;
pub use node_walk::NodeWalk;
pub use queries::{after, before, has, keys, pairs, range, rank, select, size, weight};
pub use query::{Query, ask};
pub use tree::Tree;
