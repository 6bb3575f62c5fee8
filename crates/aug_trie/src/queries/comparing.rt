//! How two snapshots are compared.
ghost use Rattle.std.specs.Prelude.{◌≡◌, take};
ghost use Rattle.aug_model.specs.Differences.{changes_from};
ghost use Rattle.aug_model.specs.Folds.{summary_of};
ghost use Rattle.aug_trie.specs.Comparing.{compare_steps};
ghost use Rattle.aug_trie.specs.Node.{Reads};
ghost use Rattle.aug_trie.specs.Snapshot.{HasSnapshot, set_at};

use crate::queries::both_walk::BothWalk;
use crate::queries::snapshot::Snapshot;
use crate::rounds::pass::Pass;
use aug_monoid::Monoid;
use aug_query::descent::{Changes, next_changes};

impl<'r, A: Monoid, B: Monoid> Pass<'r, A, B> {
    /// What changed between two snapshots of the pass, among the keys from `from` on: the first 32 changes, rising, or all of them if there are
    /// fewer. The next page begins at the last of these keys plus one, and a page that is not full is the last. Either snapshot may be the newer one.
    /// Records never change, and two snapshots share those below which nothing did. So this takes at most four steps for each node whose records
    /// differ, however many members there are, and none if both snapshots are the same. A key that was removed and put in again with its old
    /// weight has not changed.
    pub fn changes(&mut self, earlier: Snapshot, later: Snapshot, from: u32) -> Changes
        requires earlier { HasSnapshot self.old earlier }
        requires later { HasSnapshot self.old later }
        ensures answer { result.items ≡ take 32 (changes_from (set_at self.old earlier) (set_at self.old later) from) }
        ensures reads { Reads (summary_of A.parts B.parts) (compare_steps self.old earlier later from) self.old self.new }
        ensures none { earlier ≡ later → self.new.steps ≡ self.old.steps }
    {
        let Some(words) = self.words.take() else {
            unreachable!()
        };
        let mut walk: BothWalk<_, A, B> = BothWalk::over(words, earlier, later, self.account.bits);
        let page = next_changes(&mut walk, from);
        self.words = Some(walk.into_words());
        page
    }
}
