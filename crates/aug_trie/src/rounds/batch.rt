//! Updates of several keys by one call of a pass.
ghost use Rattle.std.specs.Prelude.{◌≡◌, ℕ, ◌+◌, ◌^◌, ◌<◌, ◌≤◌, All, length, drop};
ghost use Rattle.aug_model.specs.Folds.{summary_of};
ghost use Rattle.aug_trie.specs.UpdateBatches.{DoesBatch};
ghost use Rattle.aug_trie.specs.Node.{Keeps};
ghost use Rattle.aug_trie.specs.Pass.{GoesOn};

use crate::rounds::pass::Pass;
use crate::updates::batch::{at_leaves, propagate_all};
use crate::updates::request::Request;
use aug_model::Outcome;
use aug_monoid::Monoid;

impl<'r, A: Monoid, B: Monoid> Pass<'r, A, B> {
    /// Makes an update of each key by the request that has its index, and puts what it came to into the place with its index. Each is accepted or refused
    /// by itself, as a single update would be, and when the call returns every snapshot shows all that were accepted. Rising keys are cheapest: then each
    /// node above some of them is brought up to its children once, and not for each key. The order of the keys matters for nothing else.
    pub fn update_all(&mut self, keys: &[u32], requests: &[Request], outcomes: &mut [Outcome])
        requires keys { All (λ k. k < 2 ^ self.old.round.bits) keys.now }
        requires requests { length keys.now ≤ length requests.now }
        requires outcomes { length keys.now ≤ length outcomes.old }
        requires budget { self.old.spent + length keys.now ≤ self.old.round.updates }
        ensures rest { drop (length keys.now) outcomes.new ≡ drop (length keys.now) outcomes.old }
        ensures does { DoesBatch requests.now keys.now outcomes.new self.old self.new }
        ensures goes_on { (steps : ℕ) × GoesOn (length keys.now) steps self.old self.new }
        ensures keeps { Keeps (summary_of A.parts B.parts) self.old self.new }
    {
        let Some(mut words) = self.words.take() else {
            unreachable!()
        };
        let account = self.account;
        let after = at_leaves(&mut words, keys, requests, outcomes, account);
        let words = propagate_all(words, account.leaves, account.bits, keys, account.next);
        self.words = Some(words);
        self.account = after;
    }
}
