//! A half of a pass of a round has to be back before the round is renewed, or its account closed. No test module, so that a wrong body of it can be tried.
ghost use Rattle.std.specs.Prelude.{◌≡◌, ◌+◌, ◌^◌, ◌≤◌, true};
ghost use Rattle.aug_trie.specs.Round.{table_of};

use aug_monoid::{Extent, Sum};
use aug_query::descent::Size;
use aug_trie::{Crew, PassHalf, Round};

/// Renews a round, whatever became of a half of it. `Round::renew` wants all passes back, so no caller has such a half; and with one it could do nothing but
/// drop it, as the crew of the next round takes back none of an earlier one.
pub fn kept_over(
    round: &Round<Sum, Extent>,
    crew: Crew<Sum, Extent>,
    half: PassHalf<Sum, Extent>,
) -> Crew<Sum, Extent>
    requires room { 2 ^ crew.round.bits ≤ crew.round.room }
    requires together { table_of crew.round ≡ round.now }
    requires all_back { crew.back ≡ crew.handed }
    requires half { half.round ≡ crew.round }
    requires free { crew.free ≡ true }
{
    let (crew, _, _) = round.renew(crew);
    drop(half);
    crew
}

/// Takes the half of the one pass that is out back, and closes the account of the round, whose table goes on: how many keys the round put in and took out,
/// and how many there are then.
pub fn closed_over(
    round: &Round<Sum, Extent>,
    crew: &mut Crew<Sum, Extent>,
    half: PassHalf<Sum, Extent>,
) -> (u32, u32, u32)
    requires together { table_of crew.old.round ≡ round.now }
    requires half { half.round ≡ crew.old.round }
    requires one_out { crew.old.back + 1 ≡ crew.old.handed }
{
    let pass = round.pass(half);
    crew.back(pass);
    let (inserts, removals) = crew.over(round);
    let size = crew.ask(round, Size);
    (inserts, removals, size)
}
