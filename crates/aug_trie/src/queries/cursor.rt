//! A cursor over a snapshot of a pass.
ghost use Rattle.std.specs.Prelude.{◌≡◌, ◌+◌, ◌-◌, ◌*◌, ◌^◌, min};
ghost use Rattle.aug_model.specs.Folds.{summary_of};
ghost use Rattle.aug_query.specs.Yields.{YieldsNext, YieldsPrevious};
ghost use Rattle.aug_trie.specs.inside.Cursors.{IsCursorOf};
ghost use Rattle.aug_trie.specs.Node.{Reads};
ghost use Rattle.aug_trie.specs.Snapshot.{HasSnapshot, set_at};

use crate::queries::snapshot::Snapshot;
use crate::queries::snapshot_walk::SnapshotWalk;
use crate::rounds::pass::Pass;
use aug_monoid::Monoid;
use aug_query::descent::Cursor;

/// A gap between members of a snapshot, which its pass moves over a member at a time, either way ([`Cursor`]). It borrows nothing, and
/// whatever the pass does, also an update, leaves it where it is.
#[derive(Drop)]
pub struct SnapshotCursor {
    pub(crate) snapshot: Snapshot,
    pub(crate) cursor: Cursor<u64>,
}

impl<'r, A: Monoid, B: Monoid> Pass<'r, A, B> {
    /// The gap before the first member of a snapshot from `k` on, or behind all members if there is none. It takes at most `bits + 2` steps.
    pub fn cursor_from(&mut self, s: Snapshot, k: u32) -> SnapshotCursor
        requires { HasSnapshot self.old s }
        ensures of_pass { IsCursorOf self.new result }
        ensures snapshot { result.snapshot ≡ s }
        ensures gap { result.cursor.gap ≡ min k (2 ^ self.old.round.bits) }
        ensures reads { Reads (summary_of A.parts B.parts) (self.old.round.bits + 2) self.old self.new }
    {
        let mut walk = SnapshotWalk::of_pass(self.words.take(), s, self.account.bits);
        let cursor = Cursor::from(&mut walk, k);
        self.words = Some(walk.into_words());
        SnapshotCursor {
            snapshot: s,
            cursor,
        }
    }

    /// Passes the member behind the gap, and gives it with its weight. If there is none, the gap stays where it is. It takes at most
    /// `5 * bits - 3` steps.
    pub fn next(&mut self, at: &mut SnapshotCursor) -> Option<(u32, u32)>
        requires { IsCursorOf self.old at.old }
        ensures of_pass { IsCursorOf self.new at.new }
        ensures snapshot { at.new.snapshot ≡ at.old.snapshot }
        ensures answer { YieldsNext (set_at self.old at.old.snapshot) at.old.cursor.gap at.new.cursor.gap result }
        ensures reads { Reads (summary_of A.parts B.parts) (5 * self.old.round.bits - 3) self.old self.new }
    {
        let mut walk = SnapshotWalk::of_pass(self.words.take(), at.snapshot, self.account.bits);
        let found = at.cursor.next(&mut walk);
        self.words = Some(walk.into_words());
        found
    }

    /// Passes the member before the gap, and gives it with its weight, in as many steps. If there is none, the gap stays where it is.
    pub fn previous(&mut self, at: &mut SnapshotCursor) -> Option<(u32, u32)>
        requires { IsCursorOf self.old at.old }
        ensures of_pass { IsCursorOf self.new at.new }
        ensures snapshot { at.new.snapshot ≡ at.old.snapshot }
        ensures answer { YieldsPrevious (set_at self.old at.old.snapshot) at.old.cursor.gap at.new.cursor.gap result }
        ensures reads { Reads (summary_of A.parts B.parts) (5 * self.old.round.bits - 3) self.old self.new }
    {
        let mut walk = SnapshotWalk::of_pass(self.words.take(), at.snapshot, self.account.bits);
        let found = at.cursor.previous(&mut walk);
        self.words = Some(walk.into_words());
        found
    }
}
