//! The crew of a table that lasts, which hands its passes out and takes them back.
ghost use Rattle.std.specs.Prelude.{◌≡◌, ◌↔◌, ◌*◌, length, IsErrOf, OnErr, IfErr, IfOk};
ghost use Rattle.aug_core.specs.Faces.{face};
ghost use Rattle.aug_trie.specs.Crew.{CrewLooks, HandsOut, TakesBack};
ghost use Rattle.aug_trie.specs.LastingAccounts.{LastingAccount};
ghost use Rattle.aug_trie.specs.Round.{table_of};
ghost use Rattle.aug_trie.specs.inside.LastingState.{ReservesNothing};
ghost use Rattle.aug_words.specs.Leads.{TakesLaneBack};
ghost use Rattle.aug_words.specs.Seats.{IsOfLead, StaysAt};

use crate::error::LastingError;
use crate::lasting::pass::LastingPass;
use crate::lasting::table::Lasting;
use crate::lasting::working::release;
use aug_monoid::Monoid;
use aug_words::{Lead, Stock, WordPass};
use std::alloc::Global;
use std::marker::Model;

/// The crew of a table that lasts. It hands its passes out and takes them back.
#[derive(Drop)]
pub struct LastingCrew<A: Monoid, B: Monoid> {
    pub(crate) lead: Lead<A, B>,
}

impl<A: Monoid, B: Monoid> Model for LastingCrew<A, B> {
    ghost use Rattle.std.specs.Prelude.{false};
    ghost use Rattle.aug_core.specs.Faces.{face};
    ghost use Rattle.aug_trie.specs.Crew.{CrewFacts};
    ghost use Rattle.aug_trie.specs.inside.CrewState.{crew_facts};
    ghost use Rattle.aug_trie.specs.inside.LastingState.{HasLastingCrew};

    ghost Value = { CrewFacts };

    ghost view = { λ c. crew_facts c.lead false };

    ghost invariant = { λ c. HasLastingCrew (face A.parts B.parts) c.lead };
}

impl<A: Monoid, B: Monoid> LastingCrew<A, B> {
    /// Hands out the next lane, 0 first, to a new pass. The pass knows what the crew knows after the call. Refused with `NoLane` once all lanes were handed
    /// out, and with `OutOfMemory` if there is none for the list of the lane's records; then nothing was handed out.
    pub fn pass(
        &mut self,
        alloc: Global,
        table: &Lasting<A, B>,
    ) -> Result<LastingPass<A, B>, LastingError>
        requires together { table_of self.old.round ≡ table.now }
        ensures no_lane { IsErrOf result LastingError.NoLane ↔ (self.old.handed ≡ self.old.round.workers) }
        ensures not_full { IsErrOf result LastingError.Full → ⊥ }
        ensures refused { OnErr result (self.new ≡ self.old) }
        ensures handed { IfOk result (λ pass. HandsOut self.old self.new pass.pass) }
        ensures stock { IfOk result (λ pass. pass.stock.free ≡ self.old.round.updates * self.old.round.bits) }
        ensures rests { IfOk result (λ pass. pass.stock.era ≡ 0) }
        ensures no_look { IfOk result (λ pass. pass.look ≡ None) }
    {
        let lane = self.lead.handed();
        if lane == table.layout.workers() {
            return Err(LastingError::NoLane);
        }
        let Ok(stock) = Stock::new(alloc, &table.words, lane) else {
            return Err(LastingError::OutOfMemory);
        };
        let words = self.lead.split(&table.words);
        let bits = table.layout.bits();
        Ok(LastingPass {
            words: Some(words.into_half()),
            stock,
            leaves: 1 << bits,
            bits,
            since: 0,
            look: None,
        })
    }

    /// Takes a pass back, and learns what it knows. Its lane ends, and is not handed out again. A look that the pass holds is ended before.
    pub fn back(&mut self, table: &Lasting<A, B>, pass: LastingPass<A, B>)
        requires together { table_of self.old.round ≡ table.now }
        requires of_crew { pass.pass.round ≡ self.old.round }
        ensures { TakesBack self.old self.new pass.pass }
    {
        let LastingPass { words, stock, .. } = pass;
        let Some(half) = words else { unreachable!() };
        let mut words = table.words.pass(half);
        let mut stock = stock;
        release(&mut words, &mut stock, &table.words);
        take_in(&mut self.lead, words);
    }

    /// Loads the root. The crew then knows all that was published, and its account is complete: the changes that it knows, with those of the passes that are
    /// out, are all that happened since the table was opened. The account never ends, so each later look tells more.
    pub fn look(&mut self, table: &Lasting<A, B>)
        requires together { table_of self.old.round ≡ table.now }
        ensures looks { CrewLooks self.old self.new }
        ensures account { LastingAccount self.new }
    {
        self.lead.survey(&table.words);
    }
}

// Takes a pass in that holds no record any more.
fn take_in<'r, A: Monoid, B: Monoid>(lead: &mut Lead<A, B>, pass: WordPass<'r, A, B>)
    requires of_lead { IsOfLead lead.old pass }
    requires rests { ReservesNothing pass.view }
    ensures { StaysAt lead.old lead.new (TakesLaneBack (face A.parts B.parts) lead.old.view pass.entry.view lead.new.view) }
{
    lead.join(pass);
}
