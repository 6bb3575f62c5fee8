//! The tests of `aug_command`: words that are taken, inputs that are read, reports as they are printed, and the line of each fault.
#![tactic(auto)]

#[cfg(test)]
mod assertions;
#[cfg(test)]
mod printing;
#[cfg(test)]
mod reading;
#[cfg(test)]
mod run_errors;
#[cfg(test)]
mod words;
