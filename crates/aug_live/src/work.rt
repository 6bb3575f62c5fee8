//! The rounds of a trie, and a pass that lies beside its round.
ghost use Rattle.std.specs.Prelude.{◌≡◌, ◌+◌, ◌<◌};
ghost use Rattle.aug_core.specs.Prefixes.{IsPrefix};
ghost use Rattle.aug_trie.specs.Round.{table_of};
ghost use Rattle.aug_live.specs.inside.Rolls.{IsNewPass, rounds_in};

use aug_monoid::Monoid;
use aug_trie::{Crew, PassHalf, Round};
use std::alloc::Global;
use std::sync::Arc;

/// What the desk and the handles share: the round, which is one value for the life of a trie.
pub(crate) type SharedRound<A, B> = Arc<Round<A, B>, Global>;

/// The next pass of a crew. It knows all that the crew does.
pub(crate) fn start<A: Monoid, B: Monoid>(
    round: &Round<A, B>,
    crew: &mut Crew<A, B>,
) -> PassHalf<A, B>
    requires together { table_of crew.old.round ≡ round.now }
    requires lane_left { crew.old.handed < crew.old.round.workers }
    ensures fresh { IsNewPass (rounds_in crew.old) result }
    ensures knows { IsPrefix crew.old.knows.history result.knows.history }
    ensures goes_on { IsPrefix crew.old.knows.history crew.new.knows.history }
    ensures same_changes { crew.new.knows.accepted ≡ crew.old.knows.accepted }
    ensures round { rounds_in crew.new ≡ rounds_in crew.old }
    ensures handed { crew.new.handed ≡ crew.old.handed + 1 }
    ensures back { crew.new.back ≡ crew.old.back }
{
    let Ok(pass) = crew.pass(round) else {
        unreachable!()
    };
    pass.into_half()
}
