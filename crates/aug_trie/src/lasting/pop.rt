//! How a pass of a table that lasts takes out its first or its last member.
ghost use Rattle.std.specs.Prelude.{◌≡◌, ◌⊎◌, ◌+◌, ◌^◌, ◌<◌, ◌≤◌, ℕ, IfErr, IfOk, IfSome, None, Some};
ghost use Rattle.aug_model.specs.Folds.{summary_of};
ghost use Rattle.aug_model.specs.Keys.{list_of};
ghost use Rattle.aug_monoid.specs.Extent.{extent_parts};
ghost use Rattle.aug_query.specs.Tree.{IsTreeSet};
ghost use Rattle.aug_trie.specs.LastingTable.{IsFull, IsFullAfter, LastingPops, TakesSeen, most_lasting_steps, most_pop_steps};
ghost use Rattle.aug_trie.specs.Node.{Reads};
ghost use Rattle.aug_trie.specs.Pass.{GoesOn};
ghost use Rattle.aug_trie.specs.Pops.{member_at};
ghost use Rattle.aug_trie.specs.Round.{table_of};
ghost use Rattle.aug_trie.specs.Snapshot.{set_at};
ghost use Rattle.aug_trie.specs.inside.Popping.{SeesMember};

use crate::error::LastingError;
use crate::lasting::pass::LastingPass;
use crate::lasting::table::Lasting;
use crate::queries::snapshot::Snapshot;
use crate::rounds::pop::{Pop, Side};
use crate::updates::request::Request;
use aug_model::Outcome;
use aug_monoid::{Extent, Monoid};
use aug_query::descent::{First, Last, Weight};

impl<A: Monoid> LastingPass<A, Extent> {
    /// Takes out the member at one end, and tells its key and its weight, as [`Pass::pop`](crate::Pass::pop) does: one try, of a member that it saw by a look of its
    /// own. It ends within `53 * bits + workers + 27` steps, whatever others do.
    ///
    /// Refused with `Full` as [`update`](LastingPass::update) is; then nothing was taken out.
    pub fn pop(&mut self, table: &Lasting<A, Extent>, side: Side) -> Result<Pop, LastingError>
        requires together { table_of self.old.pass.round ≡ table.now }
        requires no_look { self.old.look ≡ None }
        ensures pops { IfOk result (λ done. LastingPops side done self.old.pass self.new.pass) }
        ensures full { IfErr result (λ e. (e ≡ LastingError.Full) × IsFullAfter side self.old self.new) }
        ensures no_look { self.new.look ≡ None }
        ensures rests { self.new.stock.era ≡ 0 }
        ensures goes_on { (steps : ℕ) × (steps ≤ most_pop_steps self.old.pass.round.bits self.old.pass.round.workers) × GoesOn 0 steps self.old.pass self.new.pass }
    {
        let s = self.look(table);
        let seen = self.member_at(table, s, side);
        self.end_look(table);
        self.take_seen(table, seen)
    }

    // The key at one end of the look that is open, and its weight.
    fn member_at(
        &mut self,
        table: &Lasting<A, Extent>,
        s: Snapshot,
        side: Side,
    ) -> Option<(u32, u32)>
        requires together { table_of self.old.pass.round ≡ table.now }
        requires look { self.old.look ≡ Some s }
        ensures seen { SeesMember side (set_at self.old.pass s) result }
        ensures key { IfSome result (λ p. p.0 < 2 ^ self.old.pass.round.bits) }
        ensures same { self.new ≡ record self.old { pass = self.new.pass } }
        ensures reads { Reads (summary_of A.parts extent_parts) (self.old.pass.round.bits + 6) self.old.pass self.new.pass }
    {
        // It tells which keys a set may have.
        let _bits = self.bits();
        let Some(k) = self.key_at(table, s, side) else {
            return None;
        };
        let Some(weight) = self.ask(table, s, Weight(k)) else {
            unreachable!()
        };
        Some((k, weight))
    }

    // The key there.
    fn key_at(&mut self, table: &Lasting<A, Extent>, s: Snapshot, side: Side) -> Option<u32>
        requires together { table_of self.old.pass.round ≡ table.now }
        requires look { self.old.look ≡ Some s }
        ensures answer { result ≡ member_at side (list_of (set_at self.old.pass s)) }
        ensures same { self.new ≡ record self.old { pass = self.new.pass } }
        ensures reads { Reads (summary_of A.parts extent_parts) 4 self.old.pass self.new.pass }
    {
        match side {
            Side::First => self.ask(table, s, First),
            Side::Last => self.ask(table, s, Last),
        }
    }
}

impl<A: Monoid, B: Monoid> LastingPass<A, B> {
    // How many bits the keys have.
    fn bits(&self) -> u32
        ensures bits { result ≡ self.now.pass.round.bits }
        ensures sets { (s : Snapshot) → self.now.look ≡ Some s → IsTreeSet (set_at self.now.pass s) }
    {
        self.bits
    }

    // Takes out a member that was seen, if it still weighs what it weighed.
    fn take_seen(
        &mut self,
        table: &Lasting<A, B>,
        seen: Option<(u32, u32)>,
    ) -> Result<Pop, LastingError>
        requires together { table_of self.old.pass.round ≡ table.now }
        requires no_look { self.old.look ≡ None }
        requires rests { self.old.stock.era ≡ 0 }
        requires key { IfSome seen (λ p. p.0 < 2 ^ self.old.pass.round.bits) }
        ensures takes { IfOk result (λ done. TakesSeen seen done self.old.pass.knows self.new.pass.knows) }
        ensures full { IfErr result (λ e. (e ≡ LastingError.Full) × IsFull self.old self.new × ((p : ℕ × ℕ) × (seen ≡ Some p))) }
        ensures no_look { self.new.look ≡ None }
        ensures rests { self.new.stock.era ≡ 0 }
        ensures goes_on { (self.new.pass ≡ self.old.pass) ⊎ ((steps : ℕ) × (steps ≤ most_lasting_steps self.old.pass.round.bits self.old.pass.round.workers) × GoesOn 0 steps self.old.pass self.new.pass) }
    {
        let Some((k, weight)) = seen else {
            return Ok(Pop::Empty);
        };
        let told = self.update(table, k, Request::Take(weight))?;
        if matches!(told.outcome, Outcome::Accepted) {
            Ok(Pop::Member(k, weight))
        } else {
            Ok(Pop::Refused)
        }
    }
}
