//! The tests of `aug_script`: scripts as they are read, and the devices that they come from and that reports go to.
#![tactic(auto)]

#[cfg(test)]
mod assertions;
#[cfg(test)]
mod devices;
#[cfg(test)]
mod reading;
