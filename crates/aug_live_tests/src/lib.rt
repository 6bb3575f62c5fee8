//! The tests of `aug_live` that no other language can have; `tests/rows` has all others.
#![tactic(auto)]

#[cfg(test)]
mod acting;
#[cfg(test)]
mod assertions;
#[cfg(test)]
mod granting;
#[cfg(test)]
mod held;
#[cfg(test)]
mod own;
#[cfg(test)]
mod playing;
#[cfg(test)]
mod refused;
#[cfg(test)]
mod rows;
#[cfg(test)]
mod telling;
#[cfg(test)]
mod threads;
