//! How a snapshot of a pass is asked.
ghost use Rattle.std.specs.Prelude.{◌≡◌};
ghost use Rattle.aug_model.specs.Folds.{summary_of};
ghost use Rattle.aug_trie.specs.Snapshot.{HasSnapshot, set_at};
ghost use Rattle.aug_trie.specs.Node.{Reads, steps_for};

use crate::queries::snapshot::Snapshot;
use crate::queries::snapshot_walk::SnapshotWalk;
use crate::queries::view::View;
use crate::rounds::pass::Pass;
use aug_monoid::Monoid;
use aug_query::{Calls, Query};

impl<'r, A: Monoid, B: Monoid> Pass<'r, A, B> {
    /// Asks a snapshot. The pass makes a step for each node and each count that the query loads, three for a summary, and two more
    /// for a node that it passes. So of keys of `bits` bits `Size` takes at most 2 steps, `Has` and `Weight` `bits + 2`, `Rank` and
    /// `Select` `3 * bits + 2`, `Before` and `After` `6 * bits + 1`, `Range` `10 * bits - 1`, and `Keys` and `Pairs`
    /// `3 * bits * n + 2` for `n` members. Only these two take memory.
    #[inline(always)]
    pub fn ask<Q: Query<A, B>>(&mut self, s: Snapshot, query: Q) -> Q::Answer
        requires { HasSnapshot self.old s }
        ensures answer { Q.Answers query (set_at self.old s) result }
        ensures reads { Reads (summary_of A.parts B.parts) (steps_for (Q.most query (set_at self.old s))) self.old self.new }
    {
        let mut walk = SnapshotWalk::of_pass(self.words.take(), s, self.account.bits);
        let answer = query.run(&mut walk);
        self.words = Some(walk.into_words());
        answer
    }

    /// The tree of a snapshot, for a query that goes over any [`Tree`](aug_query::Tree). Once the view that this call gives is gone, contracts know
    /// nothing about the pass. To use the pass again, write the [`View`] out.
    pub fn view<'p>(&'p mut self, s: Snapshot) -> View<'p, 'r, A, B>
        requires { HasSnapshot self.old s }
        ensures same_reference { result.pass.ghost_name ≡ self.entry.ghost_name }
        ensures pass { result.pass.now ≡ self.old }
        ensures snapshot { result.snapshot ≡ s }
        ensures calls { result.calls.made ≡ 0 }
    {
        let calls = Calls::new();
        View {
            pass: self,
            snapshot: s,
            calls,
        }
    }
}
