//! A round: the table that its passes share.
ghost use Rattle.std.specs.Prelude.{◌≡◌, ◌≢◌, true, ◌↔◌, ◌+◌, ◌^◌, ◌<◌, ◌≤◌, [], length, All, IsErrOf, IfOk, IfErr, vec_capacity};
ghost use Rattle.aug_monoid.specs.Weighted.{FitsPair};
ghost use Rattle.aug_model.specs.Keys.{IsKeySet, keys_of};
ghost use Rattle.aug_core.specs.Layout.{IsLayout, IsWithin, IsOutside, IsRefused};
ghost use Rattle.aug_core.specs.Places.{shape_of};
ghost use Rattle.aug_trie.specs.Crew.{BeginsIn, CrewFacts, Ends, RollsOver};
ghost use Rattle.aug_trie.specs.Round.{table_of};

use crate::error::BeginError;
use crate::rounds::crew::Crew;
use crate::rounds::ended::Ended;
use crate::rounds::half::PassHalf;
use crate::rounds::members::Members;
use crate::rounds::pass::Pass;
use aug_core::{Layout, LayoutError};
use aug_monoid::Monoid;
use aug_query::pairs;
use aug_words::Words;
use std::alloc::{AllocError, Global};
use std::marker::Model;

// How many parts the table of a round has where its caller gives no number and the set has all keys: one is at work, and one is for the next round.
pub(crate) const PARTS: u32 = 2;

/// What the crew of a round and its passes share: the table that they work on. It is the same value from one round to the next, so a shared
/// reference renews it; which round it is, the crew knows, and its passes.
#[derive(Drop)]
pub struct Round<A: Monoid, B: Monoid> {
    pub(crate) words: Words<A, B>,
    pub(crate) layout: Layout,
}

impl<A: Monoid, B: Monoid> Model for Round<A, B> {
    ghost use Rattle.aug_trie.specs.Round.{TableFacts};
    ghost use Rattle.aug_trie.specs.inside.RoundState.{KeepsLayout, facts_of};

    ghost Value = { TableFacts };

    ghost view = { λ r. facts_of r.words };

    ghost invariant = { λ r. KeepsLayout r.layout r.words };
}

impl<A: Monoid, B: Monoid> Round<A, B> {
    /// Begins a round as `begin_wider` does, with the trie's own bits. These bits are never refused.
    pub fn begin(
        alloc: Global,
        ended: Ended<A, B>,
        workers: u32,
        updates: u32,
    ) -> Result<(Round<A, B>, Crew<A, B>), (Ended<A, B>, BeginError)>
        ensures begun { IfOk result (λ t. BeginsIn (length ended.members) ended.members ended.bits workers updates t.0 t.1) }
        ensures same { IfErr result (λ e. e.0 ≡ record ended { calls = e.0.calls }) }
        ensures not_walked { IfErr result (λ e. e.1 ≢ BeginError.OutOfMemory → e.0 ≡ ended) }
        ensures bad_workers { IsErrOf result (ended, BeginError.BadWorkers)
            ↔ IsRefused LayoutError.BadWorkers ended.bits workers updates (length ended.members) }
        ensures bad_updates { IsErrOf result (ended, BeginError.BadUpdates)
            ↔ IsRefused LayoutError.BadUpdates ended.bits workers updates (length ended.members) }
        ensures too_large { IsErrOf result (ended, BeginError.TooLarge)
            ↔ IsRefused LayoutError.TooLarge ended.bits workers updates (length ended.members) }
        ensures good_bits { IfErr result (λ e. e.1 ≢ BeginError.BadBits) }
        ensures not_narrower { IfErr result (λ e. e.1 ≢ BeginError.Narrower) }
        ensures keys { IsKeySet ended.bits (keys_of ended.members) }
        ensures fit { All FitsPair ended.members }
    {
        let bits = ended.bits;
        Round::begin_wider(alloc, ended, bits, workers, updates)
    }

    /// Begins a round over the set of a trie at rest, each member with its weight. Keys are below `2^bits`, with at least
    /// as many bits as the trie's. There may be `workers` passes, each with `updates` updates. All memory of the round is taken
    /// here, and that of the previous round is given back.
    ///
    /// Refused, in this order, with `BadBits`, `Narrower`, `BadWorkers`, `BadUpdates` and `TooLarge`, as `Layout::new`
    /// refuses these numbers with the size of the set, and then with `OutOfMemory`. After a refusal the same trie comes
    /// back, with its own bits.
    pub fn begin_wider(
        alloc: Global,
        ended: Ended<A, B>,
        bits: u32,
        workers: u32,
        updates: u32,
    ) -> Result<(Round<A, B>, Crew<A, B>), (Ended<A, B>, BeginError)>
        ensures begun { IfOk result (λ t. BeginsIn (length ended.members) ended.members bits workers updates t.0 t.1) }
        ensures same { IfErr result (λ e. e.0 ≡ record ended { calls = e.0.calls }) }
        ensures not_walked { IfErr result (λ e. e.1 ≢ BeginError.OutOfMemory → e.0 ≡ ended) }
        ensures bad_bits { IsErrOf result (ended, BeginError.BadBits) ↔ IsOutside 1 16 bits }
        ensures narrower { IsErrOf result (ended, BeginError.Narrower) ↔ IsWithin 1 16 bits × (bits < ended.bits) }
        ensures bad_workers { IsErrOf result (ended, BeginError.BadWorkers)
            ↔ (ended.bits ≤ bits) × IsRefused LayoutError.BadWorkers bits workers updates (length ended.members) }
        ensures bad_updates { IsErrOf result (ended, BeginError.BadUpdates)
            ↔ (ended.bits ≤ bits) × IsRefused LayoutError.BadUpdates bits workers updates (length ended.members) }
        ensures too_large { IsErrOf result (ended, BeginError.TooLarge)
            ↔ (ended.bits ≤ bits) × IsRefused LayoutError.TooLarge bits workers updates (length ended.members) }
        ensures keys { IsKeySet ended.bits (keys_of ended.members) }
        ensures fit { All FitsPair ended.members }
    {
        let mut ended = ended;
        if (1..ended.bits).contains(&bits) {
            return Err((ended, BeginError::Narrower));
        }
        let layout = match Layout::new(bits, workers, updates, ended.size()) {
            Ok(layout) => layout,
            Err(cause) => return Err((ended, BeginError::from(cause))),
        };
        let Ok(members) = pairs(alloc, &mut ended) else {
            return Err((ended, BeginError::OutOfMemory));
        };
        match Round::over(alloc, layout, PARTS, members.as_slice()) {
            Ok(begun) => Ok(begun),
            Err(AllocError) => Err((ended, BeginError::OutOfMemory)),
        }
    }

    /// Begins a round as `begin_wider` does, over a set that was listed. The memory of its trie was given back before, so the
    /// call holds at most the new table, a list of its words and the list of members.
    ///
    /// Refused as `begin_wider` refuses. After a refusal the same list comes back.
    pub fn begin_over(
        alloc: Global,
        members: Members,
        bits: u32,
        workers: u32,
        updates: u32,
    ) -> Result<(Round<A, B>, Crew<A, B>), (Members, BeginError)>
        ensures begun { IfOk result (λ t. BeginsIn (length members.pairs) members.pairs bits workers updates t.0 t.1) }
        ensures same { IfErr result (λ e. e.0 ≡ members) }
        ensures bad_bits { IsErrOf result (members, BeginError.BadBits) ↔ IsOutside 1 16 bits }
        ensures narrower { IsErrOf result (members, BeginError.Narrower) ↔ IsWithin 1 16 bits × (bits < members.bits) }
        ensures bad_workers { IsErrOf result (members, BeginError.BadWorkers)
            ↔ (members.bits ≤ bits) × IsRefused LayoutError.BadWorkers bits workers updates (length members.pairs) }
        ensures bad_updates { IsErrOf result (members, BeginError.BadUpdates)
            ↔ (members.bits ≤ bits) × IsRefused LayoutError.BadUpdates bits workers updates (length members.pairs) }
        ensures too_large { IsErrOf result (members, BeginError.TooLarge)
            ↔ (members.bits ≤ bits) × IsRefused LayoutError.TooLarge bits workers updates (length members.pairs) }
    {
        if (1..members.bits()).contains(&bits) {
            return Err((members, BeginError::Narrower));
        }
        let layout = match Layout::new(bits, workers, updates, members.size()) {
            Ok(layout) => layout,
            Err(cause) => return Err((members, BeginError::from(cause))),
        };
        match Round::over(alloc, layout, PARTS, members.as_slice()) {
            Ok(begun) => Ok(begun),
            Err(AllocError) => Err((members, BeginError::OutOfMemory)),
        }
    }

    /// Begins a round over a set that was listed, with its bits and with room for all keys. Such a round can be renewed (`renew`). Its table
    /// has so many parts, 2 or more: each round works in one, and in the others the readers of earlier rounds read on. The numbers are those
    /// of a table that can be laid out, so it is refused only for lack of memory, and then the same list comes back.
    pub fn begin_for_all(
        alloc: Global,
        members: Members,
        workers: u32,
        updates: u32,
        parts: u32,
    ) -> Result<(Round<A, B>, Crew<A, B>), Members>
        requires parts { 2 ≤ parts }
        requires laid_out { IsLayout (shape_of members.bits workers updates (2 ^ members.bits)) }
        ensures begun { IfOk result (λ t. BeginsIn (2 ^ members.bits) members.pairs members.bits workers updates t.0 t.1) }
        ensures same { IfErr result (λ e. e ≡ members) }
    {
        let bits = members.bits();
        let Ok(layout) = Layout::new(bits, workers, updates, members.universe()) else {
            unreachable!()
        };
        match Round::over(alloc, layout, parts, members.as_slice()) {
            Ok(begun) => Ok(begun),
            Err(AllocError) => Err(members),
        }
    }

    // The round of a layout over a set, for which it has room. If it has room for all keys, its table has so many parts.
    fn over(
        alloc: Global,
        layout: Layout,
        parts: u32,
        members: &[(u32, u32)],
    ) -> Result<(Round<A, B>, Crew<A, B>), AllocError>
        requires keys { IsKeySet layout.bits (keys_of members.now) }
        requires fit { All FitsPair members.now }
        requires few { length members.now ≤ layout.members }
        requires keeps { layout.reservations ≡ 0 }
        requires parts { 2 ≤ parts }
        ensures { IfOk result (λ t. BeginsIn layout.members members.now layout.bits layout.workers layout.updates t.0 t.1) }
    {
        let (words, lead) = Words::open(alloc, &layout, parts, members)?;
        let crew = Crew {
            lead: Some(lead),
            back: 0,
            inserts: 0,
            removals: 0,
            free: false,
        };
        Ok((Round { words, layout }, crew))
    }

    /// Ends the round, also if passes did not come back. The set is that of the last version of the root that the crew
    /// knows. The call makes no step, takes no memory and has no refusal.
    pub fn end(self, crew: Crew<A, B>) -> Ended<A, B>
        requires together { table_of crew.round ≡ self }
        ensures ends { Ends crew result }
        ensures sizes { result.missing ≡ 0 → length result.members + result.removals ≡ length crew.round.members + result.inserts }
        ensures few { length result.members ≤ 2 ^ result.bits }
    {
        let Round { words, layout } = self;
        let Crew {
            lead,
            back,
            inserts,
            removals,
            free: _,
        } = crew;
        let Some(lead) = lead else { unreachable!() };
        let handed = lead.handed();
        let mut ended = Ended::at_rest(words, lead, layout.bits());
        ended.inserts = inserts;
        ended.removals = removals;
        ended.missing = handed - back;
        ended
    }

    /// Ends the round, to which all passes have come back, and begins the next over its set, in the same memory and with the same
    /// numbers, where nobody reads (`Crew::may_renew`). Readers that are out read on. What `Crew::prepare` has left to do is done first.
    /// Returns the crew of the next round, and how many keys the round that ended put in and took out. The call takes no memory and has
    /// no refusal.
    pub fn renew(&self, crew: Crew<A, B>) -> (Crew<A, B>, u32, u32)
        requires together { table_of crew.round ≡ self.now }
        requires all_back { crew.back ≡ crew.handed }
        requires room { 2 ^ crew.round.bits ≤ crew.round.room }
        requires free { crew.free ≡ true }
        ensures { RollsOver crew result.0 result.1 result.2 }
    {
        let mut crew = crew;
        let (inserts, removals) = crew.over(self);
        let Crew { lead, .. } = crew;
        let Some(lead) = lead else { unreachable!() };
        let lead = self.words.open_again(lead);
        let crew = Crew {
            lead: Some(lead),
            back: 0,
            inserts: 0,
            removals: 0,
            free: false,
        };
        (crew, inserts, removals)
    }

    /// Ends the round for good, to which all passes have come back: its set, and how many keys it put in and took out. `list` is empty and has room for
    /// all keys; the call takes no memory and has no refusal. The table goes with its last owner.
    pub fn finish(&self, crew: Crew<A, B>, list: Vec<(u32, u32)>) -> (Members, u32, u32)
        requires together { table_of crew.round ≡ self.now }
        requires all_back { crew.back ≡ crew.handed }
        requires room { 2 ^ crew.round.bits ≤ crew.round.room }
        requires empty { list.items ≡ [] }
        requires list_room { 2 ^ crew.round.bits ≤ vec_capacity list }
        ensures rolls { (next : CrewFacts) × RollsOver crew next result.1 result.2 × (result.0.pairs ≡ next.round.members) }
        ensures bits { result.0.bits ≡ crew.round.bits }
    {
        let (mut crew, mut list) = (crew, list);
        let (inserts, removals) = crew.over(self);
        crew.list(self, &mut list);
        let bits = self.layout.bits();
        (Members { bits, pairs: list }, inserts, removals)
    }

    /// The pass of a half that was taken from a pass of this round.
    #[inline(always)]
    pub fn pass<'r>(&'r self, half: PassHalf<A, B>) -> Pass<'r, A, B>
        requires { table_of half.round ≡ self.now }
        ensures { result ≡ half }
    {
        let PassHalf { words, account } = half;
        Pass {
            words: Some(self.words.pass(words)),
            account,
        }
    }
}
