//! The tests of `ruled_lock`: what no clause says, such as that a thread that waits is woken.
#![tactic(auto)]

#[cfg(test)]
mod assertions;
#[cfg(test)]
mod waiting;
