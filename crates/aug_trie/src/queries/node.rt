//! A node of a snapshot's tree.
ghost use Rattle.std.specs.Prelude.{◌≡◌};

use crate::queries::snapshot::Snapshot;
use aug_model::Summary;

/// A node of the tree of a snapshot. Nothing that the pass does later changes it.
#[derive(Clone, Copy)]
pub struct Node<A, B> {
    pub(crate) snapshot: Snapshot,
    pub(crate) level: u32,
    pub(crate) place: u32,
    // What names it: a leaf's serial and weight, or an inner node's record.
    pub(crate) word: u64,
    pub(crate) summary: Summary<A, B>,
}

impl<A: Copy, B: Copy> Node<A, B> {
    /// How far above the leaves it stands.
    pub fn level(&self) -> u32
        ensures { result ≡ self.now.level }
    {
        self.level
    }

    /// How many nodes of its level stand before it.
    pub fn place(&self) -> u32
        ensures { result ≡ self.now.place }
    {
        self.place
    }

    /// How many members it covers, and their folds.
    pub fn summary(&self) -> Summary<A, B>
        ensures { result ≡ self.now.summary }
    {
        self.summary
    }
}
