//! All lanes at the same time, each in a thread of its own.
ghost use Rattle.std.specs.Prelude.{◌≡◌, ◌≤◌, vec_len, vec_capacity, IfOk};
ghost use Rattle.aug_script.specs.Script.{KeepsLimits};
ghost use Rattle.aug_run.specs.inside.Owed.{AllPromised};
ghost use Rattle.aug_run.specs.inside.Workers.{limits_of, AllReady, AllDone};

use crate::gate::Gate;
use crate::lanes::start::{LaneOf, start};
use crate::lanes::work::{Done, Job};
use crate::trie::SharedRound;
use aug_script::Row;
use std::alloc::{AllocError, Global};
use std::sync::Wait;
use std::thread;
use std::thread::{PromisedHandle, Scope, Threads};

// Starts a thread for each job. At `Err` a thread could not be started, and these were.
fn start_all<'s, 'a: 's, 'b: 's, 'c: 's, E, G: Gate>(
    scope: &Scope<'s, E>,
    round: &'a SharedRound,
    rows: &'b [Row],
    gate: &'c G,
    jobs: Vec<Job>,
    mut started: Vec<PromisedHandle<Done<'a>, LaneOf<'a, 'b>>>,
) -> Result<
    Vec<PromisedHandle<Done<'a>, LaneOf<'a, 'b>>>,
    Vec<PromisedHandle<Done<'a>, LaneOf<'a, 'b>>>,
>
    requires kept { KeepsLimits (limits_of round.now) rows.now }
    requires ready { AllReady round.now rows.now jobs.items }
    requires empty { vec_len started ≡ 0 }
    requires room { vec_len jobs ≤ vec_capacity started }
    ensures len { IfOk result (λ v. vec_len v ≡ vec_len jobs) }
    ensures each { IfOk result (λ v. AllPromised round.now rows.now v.items) }
{
    for job in jobs {
        match start(scope, round, rows, gate, job) {
            Ok(child) => started.push_reserved(child),
            Err(_) => return Err(started),
        }
    }
    Ok(started)
}

// Joins each thread.
fn join_all<'a, 'b, R: Threads>(
    rt: &R,
    round: &SharedRound,
    rows: &[Row],
    started: Vec<PromisedHandle<Done<'a>, LaneOf<'a, 'b>>>,
    mut done: Vec<Done<'a>>,
) -> Vec<Done<'a>>
    requires promised { AllPromised round.now rows.now started.items }
    requires empty { vec_len done ≡ 0 }
    requires room { vec_len started ≤ vec_capacity done }
    ensures len { vec_len result ≡ vec_len started.entry }
    ensures each { AllDone round.now rows.now result.items }
{
    for child in started {
        done.push_reserved(child.join(rt));
    }
    done
}

// In a scope: starts all threads, and joins those that were started.
fn in_scope<'s, 'a: 's, 'b: 's, 'c: 's, E, R: Threads, G: Gate>(
    rt: &R,
    scope: &Scope<'s, E>,
    alloc: Global,
    round: &'a SharedRound,
    rows: &'b [Row],
    gate: &'c G,
    jobs: Vec<Job>,
) -> Result<Vec<Done<'a>>, AllocError>
    requires kept { KeepsLimits (limits_of round.now) rows.now }
    requires ready { AllReady round.now rows.now jobs.items }
    ensures len { IfOk result (λ v. vec_len v ≡ vec_len jobs) }
    ensures each { IfOk result (λ v. AllDone round.now rows.now v.items) }
{
    let handles = Vec::with_capacity(alloc, jobs.len())?;
    let done = Vec::with_capacity(alloc, jobs.len())?;
    match start_all(scope, round, rows, gate, jobs, handles) {
        Ok(started) => Ok(join_all(rt, round, rows, started, done)),
        Err(started) => {
            for child in started {
                child.join(rt);
            }
            Err(AllocError)
        }
    }
}

/// Runs all jobs at the same time. If a thread can't be started, those that were started are joined.
pub(crate) fn in_threads<'r, R: Threads + Wait, G: Gate>(
    rt: &R,
    alloc: Global,
    round: &'r SharedRound,
    rows: &'r [Row],
    gate: &'r G,
    jobs: Vec<Job>,
) -> Result<Vec<Done<'r>>, AllocError>
    requires kept { KeepsLimits (limits_of round.now) rows.now }
    requires ready { AllReady round.now rows.now jobs.items }
    ensures len { IfOk result (λ v. vec_len v ≡ vec_len jobs) }
    ensures each { IfOk result (λ v. AllDone round.now rows.now v.items) }
{
    thread::scope(
        thread::scope_env(),
        rt,
        |scope| -> Result<Vec<Done>, AllocError>
            requires { KeepsLimits (limits_of round.now) rows.now × AllReady round.now rows.now jobs.items }
            ensures { IfOk result (λ v. (vec_len v ≡ vec_len jobs) × AllDone round.entry.now rows.entry.now v.items) }
        { in_scope(rt, scope, alloc, round, rows, gate, jobs) },
    )
}
