//! A round on worker threads, one for each lane.
ghost use Rattle.std.specs.Prelude.{◌≡◌, ◌+◌, ◌≤◌, length, Err, IfOk, OnErr};
ghost use Rattle.aug_model.specs.Keys.{IsKeySet, keys_of};
ghost use Rattle.aug_trie.specs.Crew.{BeginsIn};
ghost use Rattle.aug_trie.specs.Round.{table_of};
ghost use Rattle.aug_report.specs.AllowedReport.{AllowedReport, IsReportOf};
ghost use Rattle.aug_report.specs.InTurn.{IsInTurn};
ghost use Rattle.aug_run.specs.inside.Returns.{IsFreshCrew, RanLanes};
ghost use Rattle.aug_script.specs.Limits.{IsBounds, bounds_at};
ghost use Rattle.aug_script.specs.Script.{KeepsLimits};
ghost use Rattle.aug_run.specs.inside.Workers.{limits_of};
ghost use Rattle.aug_command.specs.declared.run_error.RunError.{RunError};

use crate::gate::Gate;
use crate::lanes::jobs::jobs;
use crate::lanes::returning::{in_order, take_back};
use crate::lanes::threads::in_threads;
use crate::trie::{CrewOf, SharedRound, Trie};
use aug_command::RunError;
use aug_script::{Limits, Listed, Reply, Report, Row, ScriptRound};
use aug_trie::{BeginError, Round};
use std::alloc::{AllocError, Global};
use std::snapshot::Snapshot;
use std::sync::Wait;
use std::thread::Threads;

/// Runs the rows of each lane in a thread of its own, all at the same time, and takes all passes back. All references are
/// at one lifetime, since a worker's promise holds two of them.
fn run_lanes<'r, R: Threads + Wait, G: Gate>(
    rt: &R,
    alloc: Global,
    round: &'r SharedRound,
    crew: &mut CrewOf,
    workers: u32,
    rows: &'r [Row],
    gate: &'r G,
) -> Result<Vec<(Row, Reply)>, AllocError>
    requires begun { IsFreshCrew round.now crew.old }
    requires workers { workers ≡ round.now.workers }
    requires kept { KeepsLimits (limits_of round.now) rows.now }
    ensures ran { IfOk result (λ lines. RanLanes round.now rows.now lines.items crew.new) }
{
    let jobs = jobs(alloc, crew, round, workers, rows)?;
    let lanes = Vec::with_capacity(alloc, jobs.len())?;
    let lines = Vec::with_capacity(alloc, rows.len())?;
    let done = in_threads(rt, alloc, round, rows, gate, jobs)?;
    let mut lanes = take_back(crew, round, rows, done, lanes);
    Ok(in_order(rows, &mut lanes, lines))
}

/// Runs a round over a trie at rest: one pass and one worker thread for each lane, all at the same time. Keys have the bits of
/// the round, which are no fewer than the trie's. The report has the rows in their order, each with its reply, and the trie that
/// comes back has these bits, and the round's last set. It is refused only for lack of memory or of a thread, as `OutOfMemory`; the
/// trie is then given up. The gate is called for each row in the thread of its lane.
pub fn run_round<R: Threads + Wait, G: Gate>(
    rt: &R,
    alloc: Global,
    ended: Trie,
    limits: &Limits,
    number: u64,
    round: &ScriptRound,
    gate: &G,
) -> Result<(Trie, Report), RunError>
    requires wider { ended.bits ≤ round.now.bits }
    requires bounds { IsBounds (bounds_at limits.now round.now.bits) }
    requires kept { KeepsLimits (bounds_at limits.now round.now.bits) round.now.rows }
    ensures report { IfOk result (λ r. IsReportOf number round.now.rows r.1) }
    ensures allowed { IfOk result (λ r. AllowedReport round.now.bits limits.now.workers ended.members r.1 r.0.members) }
    ensures alone { IfOk result (λ r. IsInTurn limits.now.workers number ended.members round.now.rows r.1 r.0.members) }
    ensures sizes { IfOk result (λ r. r.1.size + r.1.removals ≡ length ended.members + r.1.inserts) }
    ensures bits { IfOk result (λ r. r.0.bits ≡ round.now.bits) }
    ensures all_back { IfOk result (λ r. r.0.missing ≡ 0) }
    ensures memory { OnErr result (result ≡ Err RunError.OutOfMemory) }
{
    let (table, mut crew) = begin(alloc, ended, limits, round.bits)?;
    let rows = round.rows.as_slice();
    let lines = run_lanes(rt, alloc, &table, &mut crew, limits.workers(), rows, gate)?;
    let SharedRound { shared, .. } = table;
    let ended = shared.end(crew);
    let report = Report {
        number,
        rows: Listed::from_vec(lines),
        size: ended.size(),
        inserts: ended.inserts(),
        removals: ended.removals(),
    };
    Ok((ended, report))
}

// The round of these limits with keys of `bits` bits. It is refused only for lack of memory.
fn begin(
    alloc: Global,
    ended: Trie,
    limits: &Limits,
    bits: u32,
) -> Result<(SharedRound, CrewOf), AllocError>
    requires wider { ended.bits ≤ bits }
    requires bounds { IsBounds (bounds_at limits.now bits) }
    ensures begun { IfOk result (λ t. BeginsIn (length ended.members) ended.members bits limits.now.workers limits.now.updates (table_of t.0) t.1) }
    ensures together { IfOk result (λ t. t.1.round ≡ t.0) }
    ensures keys { IsKeySet ended.bits (keys_of ended.members) }
{
    match Round::begin_wider(alloc, ended, bits, limits.workers(), limits.updates()) {
        Ok((shared, crew)) => {
            let begun = Snapshot::of(&crew);
            Ok((SharedRound { shared, begun }, crew))
        }
        Err((_, cause)) => match cause {
            BeginError::OutOfMemory => Err(AllocError),
            _ => unreachable!(),
        },
    }
}
