//! A trie at rest.
ghost use Rattle.std.specs.Prelude.{◌≡◌, ◌⊎◌, ◌↔◌, ◌^◌, ◌≤◌, [], length, vec_capacity, IsErrOf, IfOk, IfErr};
ghost use Rattle.aug_core.specs.Faces.{face};
ghost use Rattle.aug_core.specs.Layout.{IsOutside};
ghost use Rattle.aug_core.specs.Effects.{opening_of};
ghost use Rattle.aug_core.specs.Cuts.{pairs_of_cut};
ghost use Rattle.aug_words.specs.Seats.{AreTogether};
ghost use Rattle.aug_core.specs.Renewals.{EndWith};
ghost use Rattle.aug_trie.specs.History.{last_cut};
ghost use Rattle.aug_trie.specs.inside.Knows.{knows};
ghost use Rattle.aug_trie.specs.Ended.{IsEmptyTrie, set_of_ended};

use crate::error::BeginError;
use crate::rounds::members::Members;
use crate::rounds::round::PARTS;
use aug_core::{Layout, RecordField};
use aug_monoid::Monoid;
use aug_query::{Calls, pairs};
use aug_words::{Lead, Rest, Words};
use std::alloc::{AllocError, Global};
use std::marker::{Model, PhantomData};

/// A trie at rest: a set of keys with weights that no round works on. It is a `Tree`, so all queries of `aug_query` answer over it.
#[derive(Drop)]
pub struct Ended<A: Monoid, B: Monoid> {
    // The words of the round that ended, and the record of the root that its crew knew last: the set is that of this version.
    pub(crate) rest: Rest,
    pub(crate) root: u64,
    pub(crate) bits: u32,
    // What that round came to.
    pub(crate) inserts: u32,
    pub(crate) removals: u32,
    pub(crate) missing: u32,
    // How often queries called it. Only contracts read it.
    pub(crate) calls: Calls,
    pub(crate) sums: PhantomData<(A, B)>,
}

impl<A: Monoid, B: Monoid> Model for Ended<A, B> {
    ghost use Rattle.aug_core.specs.Faces.{face};
    ghost use Rattle.aug_trie.specs.Ended.{EndedFacts};
    ghost use Rattle.aug_trie.specs.inside.EndedState.{pairs_at_rest, HoldsVersion};

    ghost Value = { EndedFacts };

    ghost view = { λ e. record { bits = e.bits; members = pairs_at_rest e.rest e.bits 0 e.root; inserts = e.inserts; removals = e.removals; missing = e.missing; calls = e.calls.made; rest = e.rest; root = e.root } };

    ghost invariant = { λ e. HoldsVersion (face A.parts B.parts) e.rest e.root e.bits };
}

impl<A: Monoid, B: Monoid> Ended<A, B> {
    /// The empty trie for keys below `2^bits`. Refused with `BadBits` if `bits` is outside 1 to 16, and with
    /// `OutOfMemory` if memory is refused.
    pub fn empty(alloc: Global, bits: u32) -> Result<Self, BeginError>
        ensures bad_bits { IsErrOf result BeginError.BadBits ↔ IsOutside 1 16 bits }
        ensures others { IfErr result (λ e. (e ≡ BeginError.BadBits) ⊎ (e ≡ BeginError.OutOfMemory)) }
        ensures empty { IfOk result (λ t. IsEmptyTrie bits t) }
    {
        let Ok(layout) = Layout::new(bits, 1, 1, 0) else {
            return Err(BeginError::BadBits);
        };
        match Words::open(alloc, &layout, PARTS, &[]) {
            Ok((words, lead)) => Ok(Ended::at_rest(words, lead, bits)),
            Err(AllocError) => Err(BeginError::OutOfMemory),
        }
    }

    // The trie at rest of the last version of the root that a lead knows, whose table is closed.
    pub(crate) fn at_rest(words: Words<A, B>, lead: Lead<A, B>, bits: u32) -> Self
        requires together { AreTogether words lead }
        requires bits { bits ≡ lead.view.shape.bits }
        requires keeps { lead.view.shape.reservations ≡ 0 }
        ensures bits { result.bits ≡ bits }
        ensures members { result.members ≡ pairs_of_cut (last_cut (knows lead.view).history) }
        ensures no_inserts { result.inserts ≡ 0 }
        ensures no_removals { result.removals ≡ 0 }
        ensures none_missing { result.missing ≡ 0 }
        ensures no_calls { result.calls ≡ 0 }
        ensures rule { EndWith (face A.parts B.parts) (opening_of lead.view) lead.view result.rest.words }
    {
        let root = lead.root();
        let rest = words.close(lead);
        Ended {
            rest,
            root,
            bits,
            inserts: 0,
            removals: 0,
            missing: 0,
            calls: Calls::new(),
            sums: PhantomData,
        }
    }

    /// Lists the set, and gives the memory of the trie back. If memory for the list is refused, the same trie comes back.
    pub fn into_members(self, alloc: Global) -> Result<Members, Self>
        ensures set { IfOk result (λ members. members ≡ set_of_ended self) }
        ensures same { IfErr result (λ ended. ended ≡ record self { calls = ended.calls }) }
    {
        let mut ended = self;
        let Ok(pairs) = pairs(alloc, &mut ended) else {
            return Err(ended);
        };
        let bits = ended.bits;
        Ok(Members { bits, pairs })
    }

    /// How many bits a key has.
    pub fn bits(&self) -> u32
        ensures { result ≡ self.now.bits }
    {
        self.bits
    }

    /// How many keys there are: `2^bits`. The keys are the numbers below it.
    pub fn universe(&self) -> u32
        ensures { result ≡ 2 ^ self.now.bits }
    {
        1 << self.bits
    }

    /// How many members the set has.
    pub fn size(&self) -> u32
        ensures { result ≡ length self.now.members }
    {
        let count = self.rest.record_word(self.root, RecordField::Count);
        count as u32
    }

    /// How many keys were put in during the round that ended with this trie, by the passes that came back. A replaced
    /// weight counts as an insertion and a removal.
    pub fn inserts(&self) -> u32
        ensures { result ≡ self.now.inserts }
    {
        self.inserts
    }

    /// How many keys those passes took out. A replaced weight counts here too.
    pub fn removals(&self) -> u32
        ensures { result ≡ self.now.removals }
    {
        self.removals
    }

    /// How many passes of that round were handed out and did not come back.
    pub fn missing(&self) -> u32
        ensures { result ≡ self.now.missing }
    {
        self.missing
    }
}
