//! All passes back at the crew, and the replies in the order of the script.
ghost use Rattle.std.specs.Prelude.{◌≡◌, ◌+◌, ◌≤◌, [], length, map, vec_len, vec_capacity};
ghost use Rattle.std.specs.Vec.Iter.{into_iter_items};
ghost use Rattle.aug_run.specs.inside.Returns.{AreAnswered, AreInOrder, WentBack};
ghost use Rattle.aug_run.specs.inside.Workers.{AllDone};

use crate::lanes::work::Done;
use crate::trie::{CrewOf, SharedRound};
use aug_script::{Reply, Row};
use std::vec::IntoIter;

/// Takes each pass back, in the order of the lanes. What is left are the replies of each lane.
pub(crate) fn take_back<'r>(
    crew: &mut CrewOf,
    round: &SharedRound,
    rows: &[Row],
    done: Vec<Done<'r>>,
    mut lanes: Vec<IntoIter<Reply>>,
) -> Vec<IntoIter<Reply>>
    requires together { crew.old.round ≡ round.now }
    requires done { AllDone round.now rows.now done.items }
    requires empty { lanes.items ≡ [] }
    requires room { vec_len done ≤ vec_capacity lanes }
    ensures len { vec_len result ≡ vec_len done.entry }
    ensures went { WentBack round.now rows.now (map (λ lane. into_iter_items lane) result.items) crew.old.knows crew.new.knows }
    ensures round { crew.new.round ≡ round.now }
    ensures handed { crew.new.handed ≡ crew.old.handed }
    ensures back { crew.new.back ≡ crew.old.back + vec_len done.entry }
{
    for one in done {
        let Done { replies, pass } = one;
        crew.back(pass);
        lanes.push_reserved(replies.into_iter());
    }
    lanes
}

/// Each row with its reply, in the order of the script.
pub(crate) fn in_order(
    rows: &[Row],
    lanes: &mut [IntoIter<Reply>],
    mut lines: Vec<(Row, Reply)>,
) -> Vec<(Row, Reply)>
    requires answered { AreAnswered rows.now (map (λ lane. into_iter_items lane) lanes.old) }
    requires empty { lines.items ≡ [] }
    requires room { length rows.now ≤ vec_capacity lines }
    ensures { AreInOrder rows.now (map (λ lane. into_iter_items lane) lanes.old) result.items }
{
    for row in rows {
        let Some(reply) = lanes[row.lane as usize].next() else {
            unreachable!()
        };
        lines.push_reserved((*row, reply));
    }
    lines
}
