//! Snapshots, and the queries on them.

pub(crate) mod both_walk;
pub(crate) mod calls;
pub(crate) mod comparing;
pub(crate) mod cursor;
pub(crate) mod node;
pub(crate) mod nodes;
pub(crate) mod record_words;
pub(crate) mod snapshot;
pub(crate) mod snapshot_walk;
pub(crate) mod view;
pub(crate) mod walks;
