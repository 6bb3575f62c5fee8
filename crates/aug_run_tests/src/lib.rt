//! The tests of `aug_run`: scripts, rounds and the program with their results, and what happens if a device or memory fails.
#![tactic(auto)]

#[cfg(test)]
mod assertions;
#[cfg(test)]
mod gates;
#[cfg(test)]
mod known_bytes;
#[cfg(test)]
mod programs;
#[cfg(test)]
mod rounds;
#[cfg(test)]
mod scripts;
#[cfg(test)]
mod test_input;
