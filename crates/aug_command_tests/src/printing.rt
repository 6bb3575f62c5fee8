//! Reports as they are printed.
ghost use Rattle.std.specs.Prelude.{◌≡◌, IfOk};

use crate::assertions::{equal, holds};
use aug_command::{PrintError, print};
use aug_model::Summary;
use aug_monoid::{Extent, Sum, fold_slice};
use aug_script::{Fault, Listed, MemorySink, Reply, Report, Row, ScriptError, Verb};
use std::alloc::{AllocError, Global};
use std::fmt::Display;
use std::process::Abort;

// The reply to a range of these keys with their weights.
fn span(count: u32, keys: &[(u32, u32)]) -> Reply {
    Reply::Span(Summary {
        count,
        a: fold_slice::<Sum>(keys),
        b: fold_slice::<Extent>(keys),
    })
}

// Lanes and verbs with their replies: each verb, and each reply.
fn lines() -> [(u32, Verb, Reply); 18] {
    [
        (0, Verb::Insert(5), Reply::New),
        (0, Verb::Insert(5), Reply::Old),
        (1, Verb::Remove(5), Reply::Gone),
        (1, Verb::Remove(5), Reply::Absent),
        (63, Verb::Look, Reply::Looked),
        (0, Verb::Has(15), Reply::Yes),
        (0, Verb::Has(0), Reply::No),
        (0, Verb::Size, Reply::Number(2)),
        (0, Verb::Rank(16), Reply::Number(65_536)),
        (0, Verb::Select(1), Reply::Found(Some(9))),
        (0, Verb::Before(16), Reply::Found(None)),
        (0, Verb::After(0), Reply::Found(Some(65_535))),
        (1, Verb::Put(6, 1), Reply::Lost),
        (1, Verb::Put(6, 7), Reply::Set),
        (0, Verb::Weight(6), Reply::Found(None)),
        (0, Verb::Weight(6), Reply::Found(Some(7))),
        (0, Verb::Range(0, 16), span(2, &[(5, 7), (9, 9)])),
        (0, Verb::Range(9, 5), span(0, &[])),
    ]
}

fn rows(alloc: Global) -> Result<Vec<(Row, Reply)>, AllocError> {
    let mut rows = Vec::with_capacity(alloc, 18)?;
    for (lane, verb, reply) in lines() {
        let row = Row { row: 1, lane, verb };
        rows.push((row, reply))?;
    }
    Ok(rows)
}

// How many replies say that a key came in, and how many that one went.
fn counts(rows: &[(Row, Reply)]) -> (u32, u32) {
    let mut inserts = 0u32;
    let mut removals = 0u32;
    for (_, reply) in rows {
        inserts = inserts.wrapping_add(u32::from(reply.is_insertion()));
        removals = removals.wrapping_add(u32::from(reply.is_removal()));
    }
    (inserts, removals)
}

// A report with each verb and each reply. What it counts is what the replies say.
fn report(alloc: Global) -> Result<Report, AllocError> {
    let rows = rows(alloc)?;
    let (inserts, removals) = counts(rows.as_slice());
    Ok(Report {
        number: 12,
        rows: Listed::from_vec(rows),
        size: 2,
        inserts,
        removals,
    })
}

const TEXT: &str = "\
12 0 insert 5 = new
12 0 insert 5 = old
12 1 remove 5 = gone
12 1 remove 5 = none
12 63 look = ok
12 0 has 15 = yes
12 0 has 0 = no
12 0 size = 2
12 0 rank 16 = 65536
12 0 select 1 = 9
12 0 before 16 = -
12 0 after 0 = 65535
12 1 put 6 1 = lost
12 1 put 6 7 = set
12 0 weight 6 = -
12 0 weight 6 = 7
12 0 range 0 16 = 2 16 5 9
12 0 range 9 5 = 0 0 - -
12 end size=2 in=2 out=2
";

// Prints a report to a sink that fails at this call, and compares what went out before. If it has no such call, all goes out.
fn assert_beginning(rt: &impl Abort, alloc: Global, report: &Report, fault_at: u64) {
    let mut sink = MemorySink::new(alloc, 1, Some(fault_at));
    let printed = print(alloc, report, &mut sink);
    let all = TEXT.len() as u64;
    if fault_at > all {
        equal(rt, (printed, sink.finished), (Ok(()), 1));
    } else {
        equal(rt, (printed, sink.finished), (Err(PrintError::Output), 0));
    }
    equal(rt, sink.out.len() as u64, all.min(fault_at));
    holds(rt, TEXT.as_bytes().starts_with(sink.out.as_slice()));
}

#[test]
fn a_sink_that_fails_has_a_beginning(rt: HostRuntime) {
    let report = report(rt.alloc()).expect(&rt, "a report");
    for fault_at in 0..TEXT.len() as u64 + 2 {
        assert_beginning(&rt, rt.alloc(), &report, fault_at);
    }
}

// The report, also if the first request for it is refused.
fn report_at_last(alloc: Global) -> Result<Report, AllocError> {
    match report(alloc) {
        Ok(report) => Ok(report),
        Err(_) => report(alloc),
    }
}

// A sink that then asks for no memory, also if the first request for it is refused.
fn sink_at_last(alloc: Global) -> Result<MemorySink, AllocError>
    ensures { IfOk result (λ sink. sink.faults ≡ 0) }
{
    let mut sink = MemorySink::new(alloc, usize::MAX, None);
    if sink.out.reserve(TEXT.len()).is_err() {
        sink.out.reserve(TEXT.len())?;
    }
    Ok(sink)
}

// Prints a report to a sink, and again if that was refused. Nothing went out then.
fn print_at_last(
    rt: &impl Abort,
    alloc: Global,
    report: &Report,
    sink: &mut MemorySink,
) -> Result<(), PrintError>
    requires { sink.old.faults ≡ 0 }
{
    if print(alloc, report, sink) == Err(PrintError::OutOfMemory) {
        equal(rt, (sink.calls, sink.out.len()), (0, 0));
        return print(alloc, report, sink);
    }
    Ok(())
}

// Passes whichever request for memory is refused: nothing then went out, and all does once it is printed again.
#[test]
fn refused_memory_leaves_the_sink_as_it_was(rt: HostRuntime) -> Result<(), PrintError> {
    let report = report_at_last(rt.alloc())?;
    let mut sink = sink_at_last(rt.alloc())?;
    print_at_last(&rt, rt.alloc(), &report, &mut sink)?;
    equal(&rt, sink.out.as_slice(), TEXT.as_bytes());
    equal(&rt, sink.finished, 1);
    Ok(())
}

// Compares what is printed for a value.
fn assert_prints(rt: &impl Abort, alloc: Global, value: impl Display + Drop, text: &str) {
    let printed = format!(in alloc; "{value}").expect(rt, "a text");
    equal(rt, printed.as_str(), text);
}

#[test]
fn errors_say_what_is_wrong(rt: HostRuntime) {
    let (r, alloc) = (&rt, rt.alloc());
    assert_prints(r, alloc, ScriptError::BadArity(12), "row 12: BadArity");
    assert_prints(r, alloc, PrintError::Output, "output");
    assert_prints(r, alloc, Fault, "a device failed");
}
