//! What no clause says: that rounds run with ample memory.
use crate::assertions::{equal, holds};
use aug_run::{Gate, Open, Trie, run_round};
use aug_script::{Limits, Reply, Report, Script, ScriptError};
use aug_trie::Ended;
use std::alloc::{AllocError, Global};
use std::sync::Wait;
use std::test::Fail;
use std::thread::Threads;

// The trie at the end of a script's rounds, and their reports. None if the script or a limit has a fault.
fn run_text<R: Threads + Wait, G: Gate>(
    rt: &R,
    alloc: Global,
    workers: u32,
    text: &str,
    gate: &G,
) -> Result<Option<(Trie, Vec<Report>)>, AllocError> {
    let Ok(limits) = Limits::try_new(4, workers, 64) else {
        return Ok(None);
    };
    let script = match Script::read(alloc, text.as_bytes(), &limits) {
        Ok(script) => script,
        Err(ScriptError::OutOfMemory) => return Err(AllocError),
        Err(_) => return Ok(None),
    };
    let Ok(mut ended) = Ended::empty(alloc, limits.bits()) else {
        return Err(AllocError);
    };
    let mut reports = Vec::new(alloc);
    let mut number = 0u64;
    for round in script.rounds() {
        number = number.wrapping_add(1);
        let Ok((next, report)) = run_round(rt, alloc, ended, &limits, number, round, gate) else {
            return Err(AllocError);
        };
        ended = next;
        reports.push(report)?;
    }
    Ok(Some((ended, reports)))
}

// The report of the last round of a script.
pub(crate) fn report_of<R: Threads + Wait, G: Gate>(
    rt: &R,
    alloc: Global,
    workers: u32,
    text: &str,
    gate: &G,
) -> Result<Option<Report>, AllocError> {
    match run_text(rt, alloc, workers, text, gate)? {
        Some((_, mut reports)) => Ok(reports.pop()),
        None => Ok(None),
    }
}

const THREE_LANES: &str =
    "0,insert,0\n0,insert,1\n0,insert,2\n0,insert,3\n0,look\n0,has,0\n0,has,1\n0,has,2\n0,has,3\n1,insert,4\n1,insert,5\n1,insert,6\n1,insert,7\n1,look\n1,has,4\n1,has,5\n1,has,6\n1,has,7\n2,insert,8\n2,insert,9\n2,insert,10\n2,insert,11\n2,look\n2,has,8\n2,has,9\n2,has,10\n2,has,11\n";

// How many replies are `new`, `old`, `set`, `lost` and `yes`, and the size and the insertions and removals of the round.
type Counted = ([usize; 5], (u32, u32, u32));

// How often a report has a reply.
fn times(report: &Report, reply: Reply) -> usize {
    let rows = report.rows.as_slice();
    rows.iter().filter(|row| row.1 == reply).count()
}

fn counted(report: &Report) -> Counted {
    let replies = [
        times(report, Reply::New),
        times(report, Reply::Old),
        times(report, Reply::Set),
        times(report, Reply::Lost),
        times(report, Reply::Yes),
    ];
    let totals = (report.size, report.inserts, report.removals);
    (replies, totals)
}

// How often a script runs, its workers, the script, and what its replies may come to. Two lanes put one key in: one of them does. With two
// weights the second replaces the first, or is refused. Lanes without rows come back.
const RACES: &[(u32, u32, &str, &[Counted])] = &[
    (200, 3, THREE_LANES, &[([12, 0, 0, 0, 12], (12, 12, 0))]),
    (
        200,
        2,
        "0,insert,6\n1,insert,6\n",
        &[([1, 1, 0, 0, 0], (1, 1, 0))],
    ),
    (
        200,
        2,
        "0,put,6,1\n1,put,6,2\n",
        &[([1, 0, 1, 0, 0], (1, 2, 1)), ([1, 0, 0, 1, 0], (1, 1, 0))],
    ),
    (1, 64, "*,end\n", &[([0, 0, 0, 0, 0], (0, 0, 0))]),
];

#[test]
fn lanes_keep_to_the_script_each_time(rt: HostRuntime) -> Result<(), Fail> {
    for (times, workers, script, allowed) in RACES {
        for _ in 0..*times {
            let run = report_of(&rt, rt.alloc(), *workers, script, &Open)?;
            let found = counted(&run.expect(&rt, "a report"));
            holds(&rt, allowed.contains(&found));
        }
    }
    Ok(())
}

// Passes whichever request for memory or start of a thread is refused: the round has no report then, and made again it has one.
#[test]
fn refused_memory_is_told(rt: HostRuntime) -> Result<(), Fail> {
    let text = "0,insert,1\n1,look\n";
    let report = match report_of(&rt, rt.alloc(), 2, text, &Open) {
        Ok(Some(report)) => report,
        _ => {
            let again = report_of(&rt, rt.alloc(), 2, text, &Open)?;
            again.expect(&rt, "a report")
        }
    };
    equal(&rt, (report.size, report.inserts), (1, 1));
    Ok(())
}
