//! Scripts as they are read.
use crate::assertions::equal;
use aug_core::LayoutError;
use aug_core::LayoutError::{BadBits, BadUpdates, BadWorkers, TooLarge};
use aug_script::ScriptError::*;
use aug_script::Verb::*;
use aug_script::{Limits, Script, ScriptError};
use std::alloc::{AllocError, Global};
use std::process::Abort;

// How many bits, workers and updates limits have.
type Bounds = (u32, u32, u32);

const FEW: Bounds = (4, 1, 64);

// What a script is read as.
fn read(
    rt: &impl Abort,
    alloc: Global,
    script: &str,
    bounds: Bounds,
) -> Result<Script, ScriptError> {
    let (bits, workers, updates) = bounds;
    let limits = Limits::try_new(bits, workers, updates).expect(rt, "limits");
    Script::read(alloc, script.as_bytes(), &limits)
}

// The rounds of a script, a line for each: its bits, and the number, the lane and the verb of each row.
fn rounds_of(alloc: Global, script: &Script) -> Result<String, AllocError> {
    let mut text = String::new(alloc);
    for round in script.rounds() {
        write!(text, "{} bits", round.bits)?;
        for row in round.rows.as_slice() {
            write!(text, ", {} {} {:?}", row.row, row.lane, row.verb)?;
        }
        writeln!(text)?;
    }
    Ok(text)
}

// Reads a script, and compares its rounds with those behind the arrow.
fn assert_reads(rt: &impl Abort, alloc: Global, bounds: Bounds, row: &str) {
    let (script, rounds) = row.split_once(" => ").expect(rt, "an arrow");
    let read = read(rt, alloc, script, bounds).expect(rt, "a script");
    let found = rounds_of(alloc, &read).expect(rt, "memory");
    equal(rt, (script, found.as_str()), (script, rounds));
}

// The numbers of limits, or what refuses them.
fn limits_of(bounds: Bounds) -> Result<Bounds, LayoutError> {
    let (bits, workers, updates) = bounds;
    let limits = Limits::try_new(bits, workers, updates)?;
    Ok((limits.bits(), limits.workers(), limits.updates()))
}

const LIMITS: &[(Bounds, Result<Bounds, LayoutError>)] = &[
    ((0, 1, 1), Err(BadBits)),
    ((17, 0, 0), Err(BadBits)),
    ((u32::MAX, 1, 1), Err(BadBits)),
    ((4, 0, 1), Err(BadWorkers)),
    ((4, 65, 0), Err(BadWorkers)),
    ((4, 1, 0), Err(BadUpdates)),
    ((4, 1, 65_537), Err(BadUpdates)),
    ((16, 64, 13_108), Err(TooLarge)),
    ((16, 64, 13_018), Err(TooLarge)),
    ((16, 64, 13_017), Ok((16, 64, 13_017))),
    ((1, 64, 65_536), Ok((1, 64, 65_536))),
    ((16, 1, 65_536), Ok((16, 1, 65_536))),
    ((1, 1, 1), Ok((1, 1, 1))),
];

#[test]
fn a_script_may_ask_for_as_much_as_a_full_table_holds(rt: HostRuntime) {
    for (bounds, limits) in LIMITS {
        equal(&rt, limits_of(*bounds), *limits);
    }
}

const MANY: Bounds = (4, 64, 64);

// Scripts with their rounds.
const READ: &[&str] = &[
    "0,insert,1\n1,remove,2\n0,look\n1,has,3\n0,size\n1,rank,4\n0,select,5\n1,before,6\n0,after,7\n1,range,8,9\n0,put,10,11\n1,weight,12\n => 4 bits, 1 0 Insert(1), 2 1 Remove(2), 3 0 Look, 4 1 Has(3), 5 0 Size, 6 1 Rank(4), 7 0 Select(5), 8 1 Before(6), 9 0 After(7), 10 1 Range(8, 9), 11 0 Put(10, 11), 12 1 Weight(12)\n",
    "\"0\",\"insert\",\"005\"\r\n\r\n63,look => 4 bits, 1 0 Insert(5), 2 63 Look\n",
    "0,look\n*,end\n*,end\n0,size => 4 bits, 1 0 Look\n4 bits\n4 bits, 4 0 Size\n",
    // Rows that give keys more bits, and are in no round.
    "*,grow,5 => ",
    "*,end\n*,grow,5\n*,end\n*,end\n*,grow,16\n0,put,65535,999999999 => 4 bits\n5 bits\n5 bits\n16 bits, 6 0 Put(65535, 999999999)\n",
];

#[test]
fn scripts_are_read_as_their_rounds(rt: HostRuntime) {
    for row in READ {
        assert_reads(&rt, rt.alloc(), MANY, row);
    }
}

// Scripts under limits, with the fault of each, if it has one. A row of each fault is also in `tests/program`.
const FAULTS: &[(Bounds, &str, Option<ScriptError>)] = &[
    (FEW, "0,insert,\u{e9}", Some(BadCsv(1))),
    (FEW, "x,fly", Some(BadLane(1))),
    (FEW, "0,look\n*,end\n\n0,look\n1,fly", Some(BadVerb(4))),
    (FEW, "0,put,1,2,3", Some(BadArity(1))),
    (FEW, "0,insert,1000000000", Some(BadNumber(1))),
    (FEW, "0,weight,16", Some(OutOfRange(1))),
    (FEW, "*,grow,6\n*,end\n*,grow,5", Some(OutOfRange(3))),
    (FEW, "0,look\n*,grow,4", Some(BadPlace(2))),
    ((4, 64, 13_018), "*,grow,16", Some(TooWide(1))),
    ((4, 64, 13_017), "*,grow,16", None),
    // Updates are limited in each round and lane.
    (
        (4, 1, 2),
        "0,put,1,5\n0,put,1,5\n0,remove,1\n",
        Some(TooManyUpdates(3)),
    ),
    (
        (4, 3, 1),
        "2,insert,1\n0,insert,1\n1,remove,1\n*,end\n1,remove,1\n2,insert,1\n",
        None,
    ),
    (
        FEW,
        "0,insert,15\n0,remove,15\n0,has,15\n0,rank,16\n0,select,16\n0,before,16\n0,after,16\n0,range,16,16\n0,put,15,1\n0,weight,15\n",
        None,
    ),
];

#[test]
fn scripts_have_their_first_fault_or_none(rt: HostRuntime) {
    for (bounds, script, fault) in FAULTS {
        let found = read(&rt, rt.alloc(), script, *bounds).err();
        equal(&rt, (*script, found), (*script, *fault));
    }
}

const OF_TWO_LANES: &str = "0,insert,5\n*,end\n1,look\n";

// Passes whichever request for memory is refused: reading then answers `OutOfMemory`, and what is read after that is whole.
#[test]
fn refused_memory_is_told_by_reading(rt: HostRuntime) -> Result<(), ScriptError> {
    let script = match read(&rt, rt.alloc(), OF_TWO_LANES, (4, 2, 64)) {
        Ok(script) => script,
        Err(fault) => {
            equal(&rt, fault, OutOfMemory);
            read(&rt, rt.alloc(), OF_TWO_LANES, (4, 2, 64))?
        }
    };
    let rounds = script.rounds();
    equal(&rt, rounds.len(), 2);
    for (round, line) in rounds.iter().zip([(1, 0, Insert(5)), (3, 1, Look)]) {
        for row in round.rows.as_slice() {
            equal(
                &rt,
                (round.bits, row.row, row.lane, row.verb),
                (4, line.0, line.1, line.2),
            );
        }
    }
    Ok(())
}
