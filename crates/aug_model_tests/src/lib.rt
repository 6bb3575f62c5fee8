//! The tests of `aug_model`: the plain set by examples, at its limits and without memory.
#![tactic(auto)]

#[cfg(test)]
mod assertions;
#[cfg(test)]
mod key_sets;
#[cfg(test)]
mod model_errors;
