//! What the tests of several crates use: a monoid whose join is not commutative, and what tests run on.
#![tactic(auto)]

mod host;
mod last;

pub use host::Host;
pub use last::Last;
