use crate::Verb;

/// A row of a script: its number, counted from 1, its lane, and what it asks for.
#[derive(Clone, Copy, Debug, PartialEq, Eq)]
pub struct Row {
    /// The row's number in the script.
    pub row: u64,
    /// The lane that runs it.
    pub lane: u32,
    /// What it asks for.
    pub verb: Verb,
}
