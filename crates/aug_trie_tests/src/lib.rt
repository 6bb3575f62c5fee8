//! The tests of `aug_trie`: what no clause says, as that rounds begin and passes get on with their updates, also in threads of their own.
#![tactic(auto)]

#[cfg(test)]
mod asking;
#[cfg(test)]
mod assertions;
#[cfg(test)]
mod crowds;
pub mod eras;
#[cfg(test)]
mod granting;
#[cfg(test)]
mod lasting;
#[cfg(test)]
mod lasting_batches;
#[cfg(test)]
mod looks;
#[cfg(test)]
mod playing;
#[cfg(test)]
mod refused;
#[cfg(test)]
mod renewing;
#[cfg(test)]
mod requests;
#[cfg(test)]
mod rounds;
#[cfg(test)]
mod rows;
#[cfg(test)]
mod telling;
#[cfg(test)]
mod turning;
#[cfg(test)]
mod updates;
