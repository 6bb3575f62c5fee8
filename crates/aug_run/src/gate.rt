//! What is called for each row of a round.

/// Is called for each row before and after it runs, in the thread of its lane.
pub trait Gate: Sync {
    /// The lane is about to run the row with this number in the script.
    fn before(&self, lane: u32, row: u64);

    /// The lane has run it.
    fn after(&self, lane: u32, row: u64);
}

/// Lets each row pass.
pub struct Open;

impl Gate for Open {
    fn before(&self, _lane: u32, _row: u64) {}

    fn after(&self, _lane: u32, _row: u64) {}
}
