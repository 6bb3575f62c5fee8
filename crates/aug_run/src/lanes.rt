//! The lanes of a round, each in a thread of its own.

pub(crate) mod answer;
pub(crate) mod jobs;
pub(crate) mod returning;
pub(crate) mod start;
pub(crate) mod threads;
pub(crate) mod work;
