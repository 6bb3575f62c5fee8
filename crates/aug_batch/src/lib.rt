//! Queries of several keys at once, over `aug_query`: four go down together, one level at a time. They load what the queries of each key do.
#![tactic(auto)]

mod batches;
mod together;

pub use batches::{Memberships, Ranks, Weights};
pub use together::Four;
