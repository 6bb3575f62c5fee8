//! Scripts on the shared trie: rounds on threads, whole scripts from bytes to reports, and what the program does by its command line.
#![tactic(auto)]

mod gate;
mod lanes;
mod program;
mod round;
mod script;
mod trie;

pub use gate::{Gate, Open};
pub use program::carry_out;
pub use round::run_round;
pub use script::run;
pub use trie::Trie;
