//! The tests of `aug_query`: its queries by examples, and the lists of many members.
#![tactic(auto)]

#[cfg(test)]
mod agreeing;
#[cfg(test)]
mod asking;
#[cfg(test)]
mod assertions;
#[cfg(test)]
mod examples;
