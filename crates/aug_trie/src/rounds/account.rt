//! What a pass keeps beside its words.
ghost use Rattle.std.specs.Prelude.{◌≡◌, ◌+◌, ◌-◌, ◌^◌, ◌<◌, ◌≤◌};
ghost use Rattle.aug_trie.specs.inside.Counted.{insertions_by as insertions, removals_by as removals};

use crate::updates::request::{Request, insertions_by, removals_by};
use aug_model::Outcome;

// How far a pass is in its lane, and the results of its updates. It goes unchanged from a pass to its half and back, and through the
// turns of an update. Its fields leave no padding, which would be copied too.
#[derive(Clone, Copy)]
pub(crate) struct Account {
    // How many leaves the table has.
    pub(crate) leaves: usize,
    // The first record of the lane that no update has used.
    pub(crate) next: u64,
    // How many bits the keys have.
    pub(crate) bits: u32,
    // How many updates are left.
    pub(crate) left: u32,
    // How many keys the pass put in, and how many it took out, a replaced one on either side.
    pub(crate) inserts: u32,
    pub(crate) removals: u32,
}

impl Account {
    // The account once an update was made that came to this.
    #[inline(always)]
    pub(crate) fn after(self, request: Request, outcome: Outcome) -> Account
        requires records { self.next + self.bits < 2 ^ 60 }
        requires some { 1 ≤ self.left }
        requires inserts { self.inserts + 1 < 2 ^ 32 }
        requires removals { self.removals + 1 < 2 ^ 32 }
        ensures { result ≡ record { leaves = self.leaves; bits = self.bits; next = self.next + self.bits; left = self.left - 1; inserts = self.inserts + insertions request outcome; removals = self.removals + removals request outcome } }
    {
        Account {
            leaves: self.leaves,
            bits: self.bits,
            next: self.next + u64::from(self.bits),
            left: self.left - 1,
            inserts: self.inserts + insertions_by(request, outcome),
            removals: self.removals + removals_by(request, outcome),
        }
    }
}
