//! The tests of `aug_core`: the places and the number of a table's words, and the key of its opening.
#![tactic(auto)]

#[cfg(test)]
mod assertions;
#[cfg(test)]
mod layouts;
#[cfg(test)]
mod openings;
