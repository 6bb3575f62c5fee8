//! Rounds, their passes and crews, and the trie at rest.

pub(crate) mod account;
pub(crate) mod batch;
pub(crate) mod crew;
pub(crate) mod ended;
pub(crate) mod ended_tree;
pub(crate) mod half;
pub(crate) mod members;
pub(crate) mod note;
pub(crate) mod pass;
pub(crate) mod pop;
pub(crate) mod reader;
pub(crate) mod round;
