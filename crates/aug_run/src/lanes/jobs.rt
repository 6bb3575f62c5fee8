//! What each worker begins with.
ghost use Rattle.std.specs.Prelude.{◌≡◌, ℕ, ◌<◌, [], ◌∷◌, length, All, slice_index, vec_len, IfOk};
ghost use Rattle.aug_core.specs.Prefixes.{IsPrefix};
ghost use Rattle.aug_run.specs.inside.Workers.{opening_cut_of, AllReady, AreRowCounts};

use crate::lanes::work::Job;
use crate::trie::{CrewOf, SharedRound};
use aug_script::Row;
use std::alloc::{AllocError, Global};

// Counts the rows of each lane.
fn count_rows(rows: &[Row], counts: &mut [usize])
    requires zero { (lane : ℕ) → slice_index counts.old lane ≡ 0 }
    requires lanes { All (λ row. row.lane < length counts.old) rows.now }
    ensures { AreRowCounts (length counts.old) rows.now counts.new }
{
    for row in rows {
        counts[row.lane as usize] += 1;
    }
}

// How many rows each lane has.
fn row_counts(alloc: Global, workers: u32, rows: &[Row]) -> Result<Vec<usize>, AllocError>
    requires { All (λ row. row.lane < workers) rows.now }
    ensures { IfOk result (λ counts. AreRowCounts workers rows.now counts.items) }
{
    let mut counts = vec![in alloc; 0usize; workers as usize]?;
    count_rows(rows, &mut counts);
    Ok(counts)
}

/// Hands a pass out for each lane, and makes room for the replies of its rows.
pub(crate) fn jobs(
    alloc: Global,
    crew: &mut CrewOf,
    round: &SharedRound,
    workers: u32,
    rows: &[Row],
) -> Result<Vec<Job>, AllocError>
    requires together { crew.old.round ≡ round.now }
    requires none_out { crew.old.handed ≡ 0 }
    requires workers { workers ≡ round.now.workers }
    requires lanes { All (λ row. row.lane < workers) rows.now }
    requires opening { IsPrefix (opening_cut_of round.now ∷ []) crew.old.knows.history }
    ensures len { IfOk result (λ jobs. vec_len jobs ≡ workers) }
    ensures each { IfOk result (λ jobs. AllReady round.now rows.now jobs.items) }
    ensures handed { IfOk result (λ jobs. crew.new.handed ≡ workers) }
    ensures round { IfOk result (λ jobs. crew.new.round ≡ round.now) }
    ensures back { IfOk result (λ jobs. crew.new.back ≡ crew.old.back) }
    ensures changes { IfOk result (λ jobs. crew.new.knows.accepted ≡ crew.old.knows.accepted) }
{
    let counts = row_counts(alloc, workers, rows)?;
    let mut jobs = Vec::with_capacity(alloc, workers as usize)?;
    for lane in 0..workers {
        let replies = Vec::with_capacity(alloc, counts[lane as usize])?;
        let Ok(pass) = crew.pass(&round.shared) else {
            unreachable!()
        };
        jobs.push_reserved(Job {
            lane,
            half: pass.into_half(),
            replies,
        });
    }
    Ok(jobs)
}
