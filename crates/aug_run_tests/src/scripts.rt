//! Whole scripts, with what they print.
use crate::assertions::{equal, holds};
use aug_command::RunError;
use aug_run::run;
use aug_script::ScriptError::OutOfRange;
use aug_script::{Limits, MemorySink, MemorySource};
use aug_testing::Host;
use std::sync::Wait;
use std::thread::Threads;

const FIRST_SCRIPT: &str =
    "0,insert,5\n0,insert,9\n0,insert,5\n0,look\n0,size\n0,rank,9\n0,select,1\n0,range,0,16\n";

const FIRST_REPORT: &str = "\
1 0 insert 5 = new
1 0 insert 9 = new
1 0 insert 5 = old
1 0 look = ok
1 0 size = 2
1 0 rank 9 = 1
1 0 select 1 = 9
1 0 range 0 16 = 2 14 5 9
1 end size=2 in=2 out=0
";

// A device of tests: the most that a call takes, and the call that fails.
type Device = (usize, Option<u64>);

// Runs a script from one device to another, under the limits of one lane of 4 bits.
fn ran(
    rt: &(impl Host + Threads + Wait),
    script: &[u8],
    from: Device,
    to: Device,
) -> (Result<(), RunError>, MemorySink) {
    let limits = Limits::try_new(4, 1, 64).expect(rt, "limits");
    let mut source = MemorySource::new(script, from.0, from.1);
    let mut sink = MemorySink::new(rt.alloc(), to.0, to.1);
    let result = run(rt, rt.alloc(), &mut source, &mut sink, &limits);
    (result, sink)
}

// Scripts, each with how it ends and what it prints. `tests/program` has a row of each kind.
const SCRIPTS: &[(&str, Result<(), RunError>, &str)] = &[
    ("", Ok(()), ""),
    (FIRST_SCRIPT, Ok(()), FIRST_REPORT),
    (TWO_ROUNDS, Ok(()), BOTH),
    (
        "0,look\n*,end\n0,insert,16\n",
        Err(RunError::Script(OutOfRange(3))),
        "",
    ),
];

// By small pieces. The sink is called to finish once for each report.
#[test]
fn scripts_come_to_their_reports(rt: HostRuntime) {
    for (script, expected, text) in SCRIPTS {
        let (result, sink) = ran(&rt, script.as_bytes(), (5, None), (7, None));
        let reports = text.lines().filter(|line| line.contains(" end ")).count() as u64;
        let found = (*script, result, sink.finished);
        equal(&rt, found, (*script, *expected, reports));
        equal(&rt, sink.out.as_slice(), text.as_bytes());
    }
}

// Runs the first script byte by byte from or to a device that fails at a call, and compares how much of the report went out.
fn assert_fails(
    rt: &(impl Host + Threads + Wait),
    from: Option<u64>,
    to: Option<u64>,
    error: RunError,
    count: u64,
) {
    let bytes = FIRST_SCRIPT.as_bytes();
    let (result, sink) = ran(rt, bytes, (1, from), (1, to));
    equal(
        rt,
        (from, to, result, sink.out.len() as u64),
        (from, to, Err(error), count),
    );
    holds(rt, FIRST_REPORT.as_bytes().starts_with(sink.out.as_slice()));
}

#[test]
fn a_source_that_fails_prints_nothing(rt: HostRuntime) {
    // The last of these calls is the one that finds the end.
    for fault_at in 0..FIRST_SCRIPT.len() as u64 + 1 {
        assert_fails(&rt, Some(fault_at), None, RunError::Input, 0);
    }
}

#[test]
fn a_sink_that_fails_has_a_beginning(rt: HostRuntime) {
    // The last of these calls is `finish`.
    for fault_at in 0..FIRST_REPORT.len() as u64 + 1 {
        let to = Some(fault_at);
        assert_fails(&rt, None, to, RunError::Output, fault_at);
    }
}

const TWO_ROUNDS: &str =
    "0,insert,1\n0,insert,2\n0,insert,3\n*,end\n0,remove,2\n0,look\n0,select,1\n*,end\n";

const BOTH: &str = "\
1 0 insert 1 = new
1 0 insert 2 = new
1 0 insert 3 = new
1 end size=3 in=3 out=0
2 0 remove 2 = gone
2 0 look = ok
2 0 select 1 = 3
2 end size=2 in=0 out=1
";

// A run over the two rounds into a sink that has room for all that goes out, and so asks for no memory itself. Without that room there is none.
fn into_room(rt: &(impl Host + Threads + Wait)) -> (Result<(), RunError>, MemorySink) {
    let limits = Limits::try_new(4, 1, 64).expect(rt, "limits");
    let mut source = MemorySource::new(TWO_ROUNDS.as_bytes(), 5, None);
    let mut sink = MemorySink::new(rt.alloc(), 7, None);
    if sink.out.reserve(512).is_err() && sink.out.reserve(512).is_err() {
        return (Err(RunError::OutOfMemory), sink);
    }
    let result = run(rt, rt.alloc(), &mut source, &mut sink, &limits);
    (result, sink)
}

// Whether both reports go out. If not, memory was refused, and nothing or the first went out.
fn both_go_out(rt: &(impl Host + Threads + Wait)) -> bool {
    let (result, sink) = into_room(rt);
    let whole = result.is_ok();
    let expected = if whole {
        Ok(())
    } else {
        Err(RunError::OutOfMemory)
    };
    equal(rt, result, expected);
    let text = match (whole, sink.finished) {
        (true, _) => BOTH,
        (false, 0) => "",
        // The first report.
        _ => BOTH.get(..81).unwrap_or(""),
    };
    equal(rt, sink.out.as_slice(), text.as_bytes());
    whole
}

// Passes whichever request for memory or start of a thread is refused: nothing went out then, or the first report, and the same run
// made again prints everything.
#[test]
fn refused_memory_is_told_behind_whole_reports(rt: HostRuntime) -> Result<(), RunError> {
    if both_go_out(&rt) || both_go_out(&rt) {
        Ok(())
    } else {
        Err(RunError::OutOfMemory)
    }
}
