//! The table of passes that have no budget.
ghost use Rattle.std.specs.Prelude.{◌≡◌, ◌≢◌, ◌↔◌, ◌^◌, length, IsErrOf, IfOk, IfErr};
ghost use Rattle.aug_core.specs.Layout.{IsRefused};
ghost use Rattle.aug_trie.specs.Crew.{BeginsIn};
ghost use Rattle.aug_trie.specs.LastingTable.{IsTooLarge};

use crate::error::BeginError;
use crate::lasting::crew::LastingCrew;
use crate::rounds::members::Members;
use aug_core::{Layout, LayoutError};
use aug_monoid::Monoid;
use aug_words::Words;
use std::alloc::{AllocError, Global};
use std::marker::Model;

/// What the crew and the passes of a table share whose records are used again once nobody can read them any more. So it has no rounds, and its passes have no
/// budget: it is laid out once, and all of its memory is taken then, but for the lists of the passes.
///
/// Interval-based reclamation: Wen, Izraelevitz, Cai, Beadle and Scott 2018.
#[derive(Drop)]
pub struct Lasting<A: Monoid, B: Monoid> {
    pub(crate) words: Words<A, B>,
    pub(crate) layout: Layout,
}

impl<A: Monoid, B: Monoid> Model for Lasting<A, B> {
    ghost use Rattle.aug_trie.specs.Round.{TableFacts};
    ghost use Rattle.aug_trie.specs.inside.RoundState.{facts_of};
    ghost use Rattle.aug_trie.specs.inside.LastingState.{LastsBy};

    ghost Value = { TableFacts };

    ghost view = { λ l. facts_of l.words };

    ghost invariant = { λ l. LastsBy l.layout l.words };
}

impl<A: Monoid, B: Monoid> Lasting<A, B> {
    /// Lays the table out over a set that was listed, with its bits. There may be `workers` passes, each of which has the records of `updates` updates: it
    /// takes those that it replaced for new ones once nobody can read them any more.
    ///
    /// Refused, in this order, with `BadWorkers`, `BadUpdates` and `TooLarge`, as `Layout::reclaiming` refuses these numbers, and then with `OutOfMemory`.
    /// After a refusal the same list comes back.
    pub fn open(
        alloc: Global,
        members: Members,
        workers: u32,
        updates: u32,
    ) -> Result<(Lasting<A, B>, LastingCrew<A, B>), (Members, BeginError)>
        ensures begun { IfOk result (λ t. BeginsIn (2 ^ members.bits) members.pairs members.bits workers updates t.0 t.1) }
        ensures same { IfErr result (λ e. e.0 ≡ members) }
        ensures bad_workers { IsErrOf result (members, BeginError.BadWorkers) ↔ IsRefused LayoutError.BadWorkers members.bits workers updates (2 ^ members.bits) }
        ensures bad_updates { IsErrOf result (members, BeginError.BadUpdates) ↔ IsRefused LayoutError.BadUpdates members.bits workers updates (2 ^ members.bits) }
        ensures too_large { IsErrOf result (members, BeginError.TooLarge) ↔ IsTooLarge members.bits workers updates }
        ensures good_bits { IfErr result (λ e. e.1 ≢ BeginError.BadBits) }
        ensures not_narrower { IfErr result (λ e. e.1 ≢ BeginError.Narrower) }
    {
        let _universe = members.universe();
        let layout = match Layout::reclaiming(members.bits(), workers, updates) {
            Ok(layout) => layout,
            Err(cause) => return Err((members, BeginError::from(cause))),
        };
        match Words::open(alloc, &layout, 2, members.as_slice()) {
            Ok((words, lead)) => Ok((Lasting { words, layout }, LastingCrew { lead })),
            Err(AllocError) => Err((members, BeginError::OutOfMemory)),
        }
    }
}
