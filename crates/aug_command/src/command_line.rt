//! The command line: what its words ask for, and why they end the program.

pub(crate) mod options;
pub(crate) mod stop;
pub(crate) mod words;
