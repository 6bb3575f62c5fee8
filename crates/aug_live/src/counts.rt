//! What the rounds of a trie came to.

/// The counts of all rounds of a trie, over its whole life.
#[derive(Clone, Copy, Debug, PartialEq, Eq)]
pub struct LiveCounts {
    /// How many rounds were begun.
    pub rounds: u64,
    /// How many members there were when it was opened.
    pub opened: u32,
    /// How many keys were put in since. A replaced weight counts here and as a removal.
    pub inserts: u64,
    /// How many keys were taken out.
    pub removals: u64,
    /// How many handles there were.
    pub handles: u64,
    /// How many of them did not come back.
    pub missing: u64,
}
