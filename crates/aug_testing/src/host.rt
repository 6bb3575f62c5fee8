//! What tests run on.
use std::process::Abort;

/// What a function of tests may do: end the test, and take memory.
pub trait Host: Abort + AllocGlobal {}

impl<R: Abort + AllocGlobal> Host for R {}
