//! What one worker does.
ghost use Rattle.aug_script.specs.Script.{KeepsLimits};
ghost use Rattle.aug_run.specs.inside.Workers.{limits_of, IsDone, MayBegin};

use crate::gate::Gate;
use crate::lanes::answer::answer;
use crate::trie::{HalfOf, PassOf, SharedRound};
use aug_script::{Reply, Row};

/// What a worker begins with. The room for its replies is there. It names no lifetime, so a closure may own it.
#[derive(Drop)]
pub(crate) struct Job {
    pub(crate) lane: u32,
    pub(crate) half: HalfOf,
    pub(crate) replies: Vec<Reply>,
}

/// What a worker gives back.
#[derive(Drop)]
pub(crate) struct Done<'r> {
    pub(crate) replies: Vec<Reply>,
    pub(crate) pass: PassOf<'r>,
}

/// Takes an opening snapshot, and then runs the rows of the lane in order.
pub(crate) fn work<'r, G: Gate>(
    job: Job,
    rows: &[Row],
    round: &'r SharedRound,
    gate: &G,
) -> Done<'r>
    requires kept { KeepsLimits (limits_of round.now) rows.now }
    requires ready { MayBegin round.now rows.now job.lane job }
    ensures { IsDone round.now rows.now job.lane result }
{
    let Job {
        lane,
        half,
        mut replies,
    } = job;
    let mut pass = round.shared.pass(half);
    let mut held = pass.snapshot();
    for row in rows {
        if row.lane == lane {
            gate.before(lane, row.row);
            let reply = answer(&mut pass, &mut held, row.verb);
            gate.after(lane, row.row);
            replies.push_reserved(reply);
        }
    }
    Done { replies, pass }
}
