//! What a pass saw at one moment.

/// A snapshot of a pass: the set as the root showed it at one moment. Nothing that the pass does later changes it. A pass of a table that lasts has it until it
/// looks again or ends its look.
#[derive(Clone, Copy)]
pub struct Snapshot {
    // The root's word, which names its record.
    pub(crate) number: u64,
}
