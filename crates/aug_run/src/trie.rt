//! The shared trie of sums and extents, which scripts run on.
use aug_monoid::{Extent, Sum};
use aug_trie::{Crew, Ended, Pass, PassHalf, Round};
use std::marker::Model;
use std::snapshot::Snapshot;

/// A trie at rest.
pub type Trie = Ended<Sum, Extent>;

/// The crew of a round.
pub type CrewOf = Crew<Sum, Extent>;

/// A pass of a round.
pub type PassOf<'r> = Pass<'r, Sum, Extent>;

/// A pass on its way into a thread.
pub type HalfOf = PassHalf<Sum, Extent>;

/// The table that the passes of a round share, and, for contracts alone, the crew with which the round began.
#[derive(Drop)]
pub(crate) struct SharedRound {
    pub(crate) shared: Round<Sum, Extent>,
    pub(crate) begun: Snapshot<CrewOf>,
}

impl Model for SharedRound {
    ghost use Rattle.std.specs.Prelude.{◌≡◌};
    ghost use Rattle.aug_trie.specs.Round.{RoundFacts, table_of};

    ghost Value = { RoundFacts };

    ghost view = { λ t. t.begun.value.round };

    ghost invariant = { λ t. table_of t.begun.value.round ≡ t.shared };
}
