//! The crew of a round, which hands its passes out and takes them back.
ghost use Rattle.std.specs.Prelude.{true, ◌≡◌, ◌↔◌, ◌^◌, ◌≤◌, [], IsErr, OnErr, IfErr, IfOk, vec_capacity};
ghost use Rattle.aug_query.specs.Tree.{IsTreeSet};
ghost use Rattle.aug_trie.specs.Crew.{HandsOut, TakesBack, CrewLooks, CrewPrepares, CrewReads, IsOver, set_of_crew};
ghost use Rattle.aug_trie.specs.Node.{steps_for};
ghost use Rattle.aug_trie.specs.Round.{table_of};

use crate::error::CrewError;
use crate::queries::snapshot_walk::SnapshotWalk;
use crate::rounds::account::Account;
use crate::rounds::pass::Pass;
use crate::rounds::reader::Reader;
use crate::rounds::round::Round;
use aug_monoid::Monoid;
use aug_query::{Query, descent};
use aug_words::Lead;
use std::marker::Model;

/// The crew of a round. It hands the round's passes out, and takes them back.
#[derive(Drop)]
pub struct Crew<A: Monoid, B: Monoid> {
    // What it knows of the words. A query takes it out and puts it back.
    pub(crate) lead: Option<Lead<A, B>>,
    // How many passes came back, and the keys that they put in and took out. They wrap, which no round comes to: what its
    // words come to at its end says so.
    pub(crate) back: u32,
    pub(crate) inserts: u32,
    pub(crate) removals: u32,
    // Whether a part of the table is known in which the next round can begin.
    pub(crate) free: bool,
}

impl<A: Monoid, B: Monoid> Model for Crew<A, B> {
    ghost use Rattle.aug_core.specs.Faces.{face};
    ghost use Rattle.aug_trie.specs.Crew.{CrewFacts};
    ghost use Rattle.aug_trie.specs.inside.CrewState.{crew_facts, HasCrew};
    ghost use Rattle.aug_trie.specs.inside.PassState.{known_in};

    ghost Value = { CrewFacts };

    ghost view = { λ c. crew_facts (known_in c.lead) c.free };

    ghost invariant = { λ c. HasCrew (face A.parts B.parts) c.lead c.back c.inserts c.removals c.free };
}

impl<A: Monoid, B: Monoid> Crew<A, B> {
    /// Hands out the next lane, 0 first, to a new pass. The pass knows what the crew knows after the call. Refused with `NoLane`
    /// once all lanes were handed out.
    pub fn pass<'r>(&mut self, round: &'r Round<A, B>) -> Result<Pass<'r, A, B>, CrewError>
        requires together { table_of self.old.round ≡ round.now }
        ensures no_lane { IsErr result ↔ (self.old.handed ≡ self.old.round.workers) }
        ensures refused { OnErr result (self.new ≡ self.old) }
        ensures handed { IfOk result (λ pass. HandsOut self.old self.new pass) }
    {
        let Some(lead) = &mut self.lead else {
            unreachable!()
        };
        let lane = lead.handed();
        if lane == round.layout.workers() {
            return Err(CrewError::NoLane);
        }
        let words = lead.split(&round.words);
        Ok(Pass {
            words: Some(words),
            account: Account {
                leaves: 1 << round.layout.bits(),
                bits: round.layout.bits(),
                next: round.layout.first_record(lane),
                left: round.layout.updates(),
                inserts: 0,
                removals: 0,
            },
        })
    }

    /// Takes a pass back, and learns what it knows. Its lane ends, and is not handed out again.
    pub fn back<'r>(&mut self, pass: Pass<'r, A, B>)
        requires of_crew { pass.round ≡ self.old.round }
        ensures { TakesBack self.old self.new pass.entry }
    {
        let Pass { words, account } = pass;
        let Some(words) = words else { unreachable!() };
        let Some(lead) = &mut self.lead else {
            unreachable!()
        };
        lead.join(words);
        self.back = self.back.wrapping_add(1);
        self.inserts = self.inserts.wrapping_add(account.inserts);
        self.removals = self.removals.wrapping_add(account.removals);
    }

    /// Loads the root. The crew then knows all that was published, and the set of the last cut is a snapshot.
    pub fn look(&mut self, round: &Round<A, B>)
        requires together { table_of self.old.round ≡ round.now }
        ensures { CrewLooks self.old self.new }
    {
        let Some(lead) = &mut self.lead else {
            unreachable!()
        };
        lead.survey(&round.words);
    }

    /// Loads the root, and then lays the next round out, from where the call before stopped: in a part of the table that is not at work, and in which no
    /// reader is out, it brings about so many nodes up to the last cut. The round has room for all keys. True if nothing is left to do until the set
    /// changes, or if readers are out in each other part.
    pub fn prepare(&mut self, round: &Round<A, B>, nodes: u32) -> bool
        requires together { table_of self.old.round ≡ round.now }
        requires room { 2 ^ self.old.round.bits ≤ self.old.round.room }
        ensures { CrewPrepares self.old self.new }
    {
        let Some(lead) = &mut self.lead else {
            unreachable!()
        };
        lead.prepare(&round.words, nodes)
    }

    /// Whether the next round can begin: whether there is a part of the table beside the one at work in which no reader is out for whom the crew answers.
    /// Those that passes lent which are still out read in the part at work. Once true, it stays so until the round is renewed. It makes no step.
    pub fn may_renew(&mut self, round: &Round<A, B>) -> bool
        requires together { table_of self.old.round ≡ round.now }
        requires room { 2 ^ self.old.round.bits ≤ self.old.round.room }
        ensures crew { self.new ≡ record self.old { free = result } }
        ensures stays { self.old.free ≡ true → result ≡ true }
    {
        let Some(lead) = &mut self.lead else {
            unreachable!()
        };
        self.free = lead.may_open(&round.words);
        self.free
    }

    /// Takes a reader back that a pass of this table lent, once the crew took that pass back. Any other comes back: one of a pass that is out, and one that its
    /// pass took back in its place.
    pub fn take_reader(
        &mut self,
        round: &Round<A, B>,
        reader: Reader<A, B>,
    ) -> Result<(), Reader<A, B>>
        requires together { table_of self.old.round ≡ round.now }
        requires reader { reader.round.table ≡ self.old.round.table }
        ensures crew { self.new ≡ self.old }
        ensures same { IfErr result (λ r. r ≡ reader) }
    {
        let Reader { words, bits } = reader;
        let Some(words) = words else { unreachable!() };
        let Some(lead) = &mut self.lead else {
            unreachable!()
        };
        match lead.take(&round.words, words) {
            Ok(()) => Ok(()),
            Err(words) => Err(Reader {
                words: Some(words),
                bits,
            }),
        }
    }

    /// Asks the set of the last cut that the crew knows. It makes as many steps as [`Pass::ask`] with the same query.
    pub fn ask<Q: Query<A, B>>(&mut self, round: &Round<A, B>, query: Q) -> Q::Answer
        requires together { table_of self.old.round ≡ round.now }
        ensures answer { Q.Answers query (set_of_crew self.old) result }
        ensures reads { CrewReads (steps_for (Q.most query (set_of_crew self.old))) self.old self.new }
    {
        let Some(lead) = self.lead.take() else {
            unreachable!()
        };
        let mut walk = SnapshotWalk::of_crew(lead, &round.words, round.layout.bits());
        let answer = query.run(&mut walk);
        self.lead = Some(walk.into_lead());
        answer
    }

    // Lists that set. The list is empty, and has room for all keys.
    pub(crate) fn list(&mut self, round: &Round<A, B>, list: &mut Vec<(u32, u32)>)
        requires together { table_of self.old.round ≡ round.now }
        requires empty { list.old.items ≡ [] }
        requires room { 2 ^ self.old.round.bits ≤ vec_capacity list.old }
        ensures same { self.new ≡ record self.old { steps = self.new.steps } }
        ensures set { list.new.items ≡ (set_of_crew self.old).pairs }
        ensures is_set { IsTreeSet (set_of_crew self.old) }
        ensures room { vec_capacity list.new ≡ vec_capacity list.old }
    {
        let Some(lead) = self.lead.take() else {
            unreachable!()
        };
        let mut walk = SnapshotWalk::of_crew(lead, &round.words, round.layout.bits());
        descent::append_pairs(&mut walk, list);
        self.lead = Some(walk.into_lead());
    }

    /// Closes the account of the round, to which all passes have come back, with a load of the root: how many keys the round put in, and how many it took
    /// out. Its table is still there afterwards, and the crew knows all of the round's history.
    pub fn over(&mut self, round: &Round<A, B>) -> (u32, u32)
        requires together { table_of self.old.round ≡ round.now }
        requires all_back { self.old.back ≡ self.old.handed }
        ensures { IsOver self.old self.new result.0 result.1 }
    {
        let Some(lead) = &mut self.lead else {
            unreachable!()
        };
        lead.survey(&round.words);
        (self.inserts, self.removals)
    }

    /// How many passes were handed out.
    pub fn handed(&self) -> u32
        ensures { result ≡ self.now.handed }
    {
        match &self.lead {
            Some(lead) => lead.handed(),
            None => unreachable!(),
        }
    }
}
