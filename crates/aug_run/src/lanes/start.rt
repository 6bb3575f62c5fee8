//! Starts the thread of one lane.
ghost use Rattle.std.specs.Prelude.{◌≡◌, IfOk};
ghost use Rattle.aug_script.specs.Script.{KeepsLimits};
ghost use Rattle.aug_run.specs.inside.Workers.{limits_of, IsDone, MayBegin};

use crate::gate::Gate;
use crate::lanes::work::{Done, Job, work};
use crate::trie::SharedRound;
use aug_script::Row;
use std::alloc::AllocError;
use std::thread::{Promise, PromisedHandle, Scope};

/// What the worker of a lane of a round owes.
#[derive(Clone, Copy)]
pub(crate) struct LaneOf<'a, 'b> {
    pub(crate) lane: u32,
    pub(crate) rows: &'b [Row],
    pub(crate) round: &'a SharedRound,
}

impl<'a, 'b> Promise<Done<'a>> for LaneOf<'a, 'b> {
    ghost kept_by = { λ p d. IsDone p.round.now p.rows.now p.lane d };
}

/// Starts the thread of one job. If none can be made, the job is dropped.
pub(crate) fn start<'s, 'a: 's, 'b: 's, 'c: 's, E, G: Gate>(
    scope: &Scope<'s, E>,
    round: &'a SharedRound,
    rows: &'b [Row],
    gate: &'c G,
    job: Job,
) -> Result<PromisedHandle<Done<'a>, LaneOf<'a, 'b>>, AllocError>
    requires kept { KeepsLimits (limits_of round.now) rows.now }
    requires ready { MayBegin round.now rows.now job.lane job }
    ensures lane { IfOk result (λ h. h.promise.lane ≡ job.lane) }
    ensures rows { IfOk result (λ h. h.promise.rows.now ≡ rows.now) }
    ensures round { IfOk result (λ h. h.promise.round.now ≡ round.now) }
{
    let promise = LaneOf {
        lane: job.lane,
        rows,
        round,
    };
    let child = scope.spawn_with(
        promise,
        move || -> Done
            requires { KeepsLimits (limits_of round.now) rows.now × MayBegin round.now rows.now job.lane job }
            ensures { IsDone round.entry.now rows.entry.now job.lane result }
        { work(job, rows, round, gate) },
    )?;
    Ok(child)
}
