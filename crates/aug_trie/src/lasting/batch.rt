//! Updates of several keys by one call of a pass of a table that lasts.
ghost use Rattle.std.specs.Prelude.{◌≡◌, ℕ, ◌*◌, ◌^◌, ◌<◌, ◌≤◌, All, None, length, drop};
ghost use Rattle.aug_trie.specs.LastingBatches.{LastingBatch};
ghost use Rattle.aug_trie.specs.LastingTable.{IsShort, most_lasting_steps};
ghost use Rattle.aug_trie.specs.Pass.{GoesOn};
ghost use Rattle.aug_trie.specs.Round.{table_of};

use crate::lasting::pass::LastingPass;
use crate::lasting::runs::update_runs;
use crate::lasting::table::Lasting;
use crate::updates::request::Request;
use aug_model::Outcome;
use aug_monoid::Monoid;

impl<A: Monoid, B: Monoid> LastingPass<A, B> {
    /// Makes an update of each key by the request that has its index, puts what it came to into the place with its index, and tells how many it made. Each is
    /// accepted or refused by itself, as a single update would be, and when the call returns the root shows all that were accepted. It ends within as many
    /// steps as that many single updates may take. Rising keys are cheapest: then each node above some of them is brought up to its children once, for as
    /// many keys as a quarter of the pass's records suffices for.
    ///
    /// It makes all updates, unless those who stand still hold so many of the lane's records that too few are left for one more. Then the first ones were
    /// made, as many as it tells, and of the others nothing: their places are untouched. The next call may begin with the first of them, and goes further
    /// once these go on.
    pub fn update_all(
        &mut self,
        table: &Lasting<A, B>,
        keys: &[u32],
        requests: &[Request],
        outcomes: &mut [Outcome],
    ) -> usize
        requires together { table_of self.old.pass.round ≡ table.now }
        requires keys { All (λ k. k < 2 ^ self.old.pass.round.bits) keys.now }
        requires requests { length keys.now ≤ length requests.now }
        requires outcomes { length keys.now ≤ length outcomes.old }
        requires no_look { self.old.look ≡ None }
        ensures few { result ≤ length keys.now }
        ensures does { LastingBatch requests.now keys.now outcomes.new result self.old.pass.knows self.new.pass.knows }
        ensures rest { drop result outcomes.new ≡ drop result outcomes.old }
        ensures stops { result < length keys.now → IsShort self.old self.new }
        ensures no_look { self.new.look ≡ None }
        ensures rests { self.new.stock.era ≡ 0 }
        ensures goes_on { (steps : ℕ) × (steps ≤ length keys.now * most_lasting_steps self.old.pass.round.bits self.old.pass.round.workers) × GoesOn 0 steps self.old.pass self.new.pass }
    {
        let Some(half) = self.words.take() else {
            unreachable!()
        };
        let mut words = table.words.pass(half);
        let made = update_runs(
            &mut words,
            &mut self.stock,
            &table.words,
            self.leaves,
            self.bits,
            &mut self.since,
            keys,
            requests,
            outcomes,
        );
        self.words = Some(words.into_half());
        made
    }
}
