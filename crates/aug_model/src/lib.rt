//! Summaries of sets of keys with weights, and a plain set that answers every query from the list of its members.
#![tactic(auto)]

mod calls;
mod difference;
mod key_set;
mod model_error;
mod outcome;
mod places;
mod summary;

pub use calls::Calls;
pub use difference::Difference;
pub use key_set::KeySet;
pub use model_error::ModelError;
pub use outcome::Outcome;
pub use summary::Summary;
