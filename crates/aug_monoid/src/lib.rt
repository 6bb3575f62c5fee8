//! Monoids over keys and their folds: what a tree adds up below each of its nodes.
#![tactic(auto)]

mod count;
mod extent;
mod fold;
mod greatest;
mod key_word;
mod least;
mod monoid;
mod nothing;
mod sum;

pub use count::Count;
pub use extent::Extent;
pub use fold::fold_slice;
pub use greatest::Greatest;
pub use least::Least;
pub use monoid::Monoid;
pub use nothing::Nothing;
pub use sum::Sum;
