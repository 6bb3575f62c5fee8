//! The tests of `aug_words`: what no clause says, as that tables open and that passes in threads of their own get on with them.
#![tactic(auto)]

#[cfg(test)]
mod assertions;
#[cfg(test)]
mod opening;
#[cfg(test)]
mod reclaiming;
#[cfg(test)]
mod replacing;
#[cfg(test)]
mod requests;
#[cfg(test)]
mod reusing;
#[cfg(test)]
mod steps;
#[cfg(test)]
mod tables;
#[cfg(test)]
mod working;
