//! The tests of `aug_monoid`: folds and words by examples. And that an assertion ends a test.
#![tactic(auto)]

#[cfg(test)]
mod assertions;
#[cfg(test)]
mod failing;
#[cfg(test)]
mod folds;
