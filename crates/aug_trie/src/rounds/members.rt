//! The set of a trie at rest as a list.
ghost use Rattle.std.specs.Prelude.{◌≡◌, ◌↔◌, ◌^◌, [], IfErr, IfOk, IsErrOf, length};
ghost use Rattle.aug_model.specs.Keys.{IsKeySet, keys_of};
ghost use Rattle.aug_core.specs.Layout.{IsOutside, IsWithin};

use crate::error::BeginError;
use aug_monoid::Monoid;
use aug_query::descent::Pairs;
use aug_query::{Descend, MemberList, Query};
use std::alloc::{AllocError, Global};
use std::marker::Model;

/// The set of a trie at rest, or of a snapshot, as a list, which `Ended::into_members` gives, or the query `AllMembers`; or the empty set. It needs 8
/// bytes a member, and none of the trie's table. `Round::begin_over` begins a round over it, and the query `ChangesSince` compares a later snapshot with it.
#[derive(Drop)]
pub struct Members {
    pub(crate) bits: u32,
    // The keys, rising, each with its weight.
    pub(crate) pairs: Vec<(u32, u32)>,
}

impl Model for Members {
    ghost use Rattle.aug_model.specs.Keys.{SetFacts};
    ghost use Rattle.aug_query.specs.Tree.{IsTreeSet};

    ghost Value = { SetFacts };

    ghost view = { λ m. record { bits = m.bits; pairs = m.pairs.items } };

    ghost invariant = { λ m. IsTreeSet (record { bits = m.bits; pairs = m.pairs.items }) };
}

impl Members {
    /// The empty set of keys of `bits` bits. It asks for no memory. Refused with `BadBits` if `bits` is outside 1 to 16.
    pub fn empty(alloc: Global, bits: u32) -> Result<Members, BeginError>
        ensures bad_bits { IsErrOf result BeginError.BadBits ↔ IsOutside 1 16 bits }
        ensures others { IfErr result (λ e. e ≡ BeginError.BadBits) }
        ensures empty { IfOk result (λ set. set ≡ record { bits = bits; pairs = [] }) }
    {
        if !(1..=16).contains(&bits) {
            return Err(BeginError::BadBits);
        }
        let pairs = Vec::new(alloc);
        Ok(Members { bits, pairs })
    }

    /// How many bits a key has.
    pub fn bits(&self) -> u32
        ensures { result ≡ self.now.bits }
    {
        self.bits
    }

    /// How many keys there are: `2^bits`. The keys are the numbers below it. The bits are 1 to 16, and the members rise.
    pub fn universe(&self) -> u32
        ensures value { result ≡ 2 ^ self.now.bits }
        ensures bits { IsWithin 1 16 self.now.bits }
        ensures keys { IsKeySet self.now.bits (keys_of self.now.pairs) }
    {
        1 << self.bits
    }

    /// How many members there are.
    pub fn size(&self) -> u32
        ensures { result ≡ length self.now.pairs }
    {
        self.pairs.len() as u32
    }

    /// The keys, rising, each with its weight.
    pub fn as_slice(&self) -> &[(u32, u32)]
        ensures { result.now ≡ self.now.pairs }
    {
        self.pairs.as_slice()
    }
}

impl MemberList for Members {
    ghost set_of = { λ m. m };

    fn len(&self) -> usize {
        self.pairs.len()
    }

    fn member(&self, place: usize) -> (u32, u32) {
        self.pairs[place]
    }
}

/// All members of a snapshot, rising, each with its weight. Room for them is made at the beginning, and only that can be refused.
#[derive(Clone, Copy)]
pub struct AllMembers(pub Global);

impl<A: Monoid, B: Monoid> Query<A, B> for AllMembers {
    type Answer = Result<Members, AllocError>;

    ghost use Rattle.std.specs.Prelude.{◌≡◌, ◌+◌, ◌*◌, length, IfOk};
    ghost use Rattle.aug_query.specs.Descend.{loads};

    ghost Answers = { λ q set answer. IfOk answer (λ members. members ≡ set) };

    ghost most = { λ q set. loads (2 * set.bits * length set.pairs + 1) (set.bits * length set.pairs + 1) 0 0 };

    fn run<D: Descend<A, B>>(self, tree: &mut D) -> Result<Members, AllocError> {
        let bits = tree.bits();
        let pairs = Query::<A, B>::run(Pairs(self.0), tree)?;
        Ok(Members { bits, pairs })
    }
}
