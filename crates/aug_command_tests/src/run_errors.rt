//! Why a script was not run: its statuses and lines.
use crate::assertions::equal;
use aug_command::RunError;
use aug_command::RunError::*;
use aug_script::ScriptError::*;
use aug_script::{Fault, MemorySink, ScriptError};

const LINES: &[(RunError, u8, &str)] = &[
    (Script(BadCsv(1)), 1, "augtrie: row 1: BadCsv\n"),
    (Script(BadLane(2)), 1, "augtrie: row 2: BadLane\n"),
    (Script(BadVerb(10)), 1, "augtrie: row 10: BadVerb\n"),
    (Script(BadArity(3)), 1, "augtrie: row 3: BadArity\n"),
    (Script(BadNumber(4)), 1, "augtrie: row 4: BadNumber\n"),
    (Script(OutOfRange(5)), 1, "augtrie: row 5: OutOfRange\n"),
    (
        Script(TooManyUpdates(18_446_744_073_709_551_615)),
        1,
        "augtrie: row 18446744073709551615: TooManyUpdates\n",
    ),
    (Script(ScriptError::OutOfMemory), 4, "augtrie: memory\n"),
    (Script(BadPlace(6)), 1, "augtrie: row 6: BadPlace\n"),
    (Script(TooWide(7)), 1, "augtrie: row 7: TooWide\n"),
    (Input, 3, "augtrie: input\n"),
    (Output, 3, "augtrie: output\n"),
    (RunError::OutOfMemory, 4, "augtrie: memory\n"),
    (TooLong, 1, "augtrie: script too long\n"),
];

#[test]
fn each_has_its_status_and_line(rt: HostRuntime) {
    for (error, status, line) in LINES {
        let mut sink = MemorySink::new(rt.alloc(), 7, None);
        let written = error.write_line(&mut sink);
        equal(&rt, (error.status(), written), (*status, Ok(())));
        equal(&rt, sink.out.as_slice(), line.as_bytes());
    }
}

#[test]
fn a_fault_of_the_sink_is_told(rt: HostRuntime) {
    let mut sink = MemorySink::new(rt.alloc(), 7, Some(2));
    equal(&rt, Input.write_line(&mut sink), Err(Fault));
    equal(&rt, sink.out.as_slice(), b"augtrie: input".as_slice());
}
