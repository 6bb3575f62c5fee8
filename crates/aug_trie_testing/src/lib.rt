//! What the tests of tries and of live tries share: rows of tables, in one vocabulary.
#![tactic(auto)]

pub mod rows;
pub mod sweeps;
pub mod updates;
