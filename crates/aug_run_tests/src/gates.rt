//! What no clause says of the gate: that it is called for each row of each lane, when it is called, and that the lanes run at the same
//! time.
use crate::assertions::{equal, holds};
use crate::rounds::report_of;
use aug_command::print;
use aug_run::Gate;
use aug_script::MemorySink;
use std::alloc::{AllocError, Global};
use std::sync::atomic::AtomicU64;
use std::sync::atomic::Ordering::SeqCst;
use std::test::Fail;
use std::thread;

// A count that lanes raise and wait for, for at most `LOOKS` looks. Once one lane has waited in vain, none waits any more.
#[derive(Drop)]
struct Meeting {
    count: AtomicU64,
    missed: AtomicU64,
}

const LOOKS: u64 = 5_000_000;

impl Meeting {
    fn new() -> Meeting {
        Meeting {
            count: AtomicU64::new(0),
            missed: AtomicU64::new(0),
        }
    }

    fn raise(&self) {
        self.count.fetch_add(1, SeqCst);
    }

    fn wait_for(&self, count: u64) {
        for _ in 0..LOOKS {
            if self.count.load(SeqCst) >= count || self.missed.load(SeqCst) > 0 {
                return;
            }
            thread::yield_now();
        }
        self.missed.fetch_add(1, SeqCst);
    }

    // How often a lane waited in vain.
    fn missed(&self) -> u64 {
        self.missed.load(SeqCst)
    }
}

// `lanes` lanes, which have their rows in turn, wait for each other before each row.
#[derive(Drop)]
struct MeetEachTime {
    lanes: u64,
    meeting: Meeting,
}

impl Gate for MeetEachTime {
    fn before(&self, lane: u32, row: u64) {
        let others = self.lanes.wrapping_sub(1).wrapping_sub(u64::from(lane));
        let last_row_of_turn = row.wrapping_add(others);
        self.meeting.raise();
        self.meeting.wait_for(last_row_of_turn);
    }

    fn after(&self, _lane: u32, _row: u64) {}
}

// Three rows for each of `lanes` lanes, in turn.
fn looks_in_turn(alloc: Global, lanes: u32) -> Result<String, AllocError> {
    let mut text = String::new(alloc);
    for _ in 0..3u32 {
        for lane in 0..lanes {
            writeln!(text, "{lane},look")?;
        }
    }
    Ok(text)
}

#[test]
fn the_lanes_run_at_the_same_time(rt: HostRuntime) -> Result<(), Fail> {
    for lanes in [2u32, 64] {
        let gate = MeetEachTime {
            lanes: u64::from(lanes),
            meeting: Meeting::new(),
        };
        let text = looks_in_turn(rt.alloc(), lanes)?;
        let run = report_of(&rt, rt.alloc(), lanes, text.as_str(), &gate)?;
        holds(&rt, run.is_some());
        equal(&rt, gate.meeting.missed(), 0);
    }
    Ok(())
}

// The calls for each lane, three digits for each call: twice the row's number before the row, and one more after it.
#[derive(Drop)]
struct GateCalls {
    lanes: Vec<AtomicU64>,
}

impl GateCalls {
    fn of_no_row(alloc: Global, lanes: u32) -> Result<GateCalls, AllocError> {
        let mut told = Vec::new(alloc);
        for _ in 0..lanes {
            told.push(AtomicU64::new(0))?;
        }
        Ok(GateCalls { lanes: told })
    }

    fn note(&self, lane: u32, number: u64) {
        if let Some(calls) = self.lanes.get(lane as usize) {
            let before = calls.load(SeqCst);
            calls.store(before.wrapping_mul(1_000).wrapping_add(number), SeqCst);
        }
    }

    fn of_lane(&self, lane: u32) -> Option<u64> {
        let calls = self.lanes.get(lane as usize)?;
        Some(calls.load(SeqCst))
    }
}

impl Gate for GateCalls {
    fn before(&self, lane: u32, row: u64) {
        self.note(lane, row.wrapping_mul(2));
    }

    fn after(&self, lane: u32, row: u64) {
        self.note(lane, row.wrapping_mul(2).wrapping_add(1));
    }
}

// Each verb of a lane.
const VERBS: &str =
    "insert,5 put,5,7 remove,5 look has,5 weight,5 size rank,5 select,0 before,5 after,5 range,0,16";

// A row for each of 64 lanes, the first of them with the verb of this number, and each other one with the verb after that of the one before it.
fn row_of_each_lane(text: &mut String, first: usize) -> Result<(), AllocError> {
    for lane in 0..64usize {
        let number = lane.wrapping_add(first) % 12;
        writeln!(
            text,
            "{lane},{}",
            VERBS.split(' ').nth(number).unwrap_or("")
        )?;
    }
    Ok(())
}

// A round of one row for each of 64 lanes, and one of two, so that each lane has rows of three verbs, and each verb has rows of many lanes.
fn verbs_in_two_rounds(alloc: Global) -> Result<String, AllocError> {
    let mut text = String::new(alloc);
    row_of_each_lane(&mut text, 0)?;
    writeln!(text, "*,end")?;
    row_of_each_lane(&mut text, 4)?;
    row_of_each_lane(&mut text, 8)?;
    Ok(text)
}

#[test]
fn the_gate_is_told_of_each_lane(rt: HostRuntime) -> Result<(), Fail> {
    let gate = GateCalls::of_no_row(rt.alloc(), 64)?;
    let text = verbs_in_two_rounds(rt.alloc())?;
    let run = report_of(&rt, rt.alloc(), 64, text.as_str(), &gate)?;
    holds(&rt, run.is_some());
    // The rows of lane 0 are 1, 66 and 130, and a lane's are one more each than those of the lane before it.
    let mut calls = 2_003_132_133_260_261u64;
    for lane in 0..64u32 {
        equal(&rt, (lane, gate.of_lane(lane)), (lane, Some(calls)));
        calls = calls.wrapping_add(2_002_002_002_002_002);
    }
    Ok(())
}

// Lane 1 waits before its last row for the end of lane 0's first. Lane 0 begins once lane 1 waits there, and goes on from its first row
// once that row of lane 1 is over.
#[derive(Drop)]
struct InOrder {
    meeting: Meeting,
}

impl Gate for InOrder {
    fn before(&self, _lane: u32, row: u64) {
        match row {
            1 => self.meeting.wait_for(1),
            3 => {
                self.meeting.raise();
                self.meeting.wait_for(2);
            }
            4 => self.meeting.raise(),
            _ => {}
        }
    }

    fn after(&self, _lane: u32, row: u64) {
        if row == 2 {
            self.meeting.raise();
            self.meeting.wait_for(3);
        }
    }
}

// Lane 0 looks and has a row, and lane 1 has one that waits for that, and then asks for key 5 before and after a look. It took its first snapshot before
// lane 0 put the key in.
const WAITS: &[&str] = &[
    "0,look\n0,insert,5\n1,insert,5\n1,has,5\n1,look\n1,has,5 => 1 0 look = ok\n1 0 insert 5 = new\n1 1 insert 5 = old\n1 1 has 5 = no\n1 1 look = ok\n1 1 has 5 = yes\n1 end size=1 in=1 out=0\n",
    "0,look\n0,put,5,7\n1,put,5,8\n1,has,5\n1,look\n1,has,5 => 1 0 look = ok\n1 0 put 5 7 = new\n1 1 put 5 8 = set\n1 1 has 5 = no\n1 1 look = ok\n1 1 has 5 = yes\n1 end size=1 in=2 out=1\n",
    "0,look\n0,insert,5\n1,remove,5\n1,has,5\n1,look\n1,has,5 => 1 0 look = ok\n1 0 insert 5 = new\n1 1 remove 5 = gone\n1 1 has 5 = no\n1 1 look = ok\n1 1 has 5 = no\n1 end size=0 in=1 out=1\n",
    "0,look\n0,insert,5\n1,look\n1,has,5\n1,look\n1,has,5 => 1 0 look = ok\n1 0 insert 5 = new\n1 1 look = ok\n1 1 has 5 = yes\n1 1 look = ok\n1 1 has 5 = yes\n1 end size=1 in=1 out=0\n",
];

#[test]
fn a_row_runs_between_its_two_calls(rt: HostRuntime) -> Result<(), Fail> {
    for row in WAITS {
        let (script, text) = row.split_once(" => ").ok_or("no arrow")?;
        let gate = InOrder {
            meeting: Meeting::new(),
        };
        let run = report_of(&rt, rt.alloc(), 2, script, &gate)?;
        let report = run.expect(&rt, "a report");
        equal(&rt, gate.meeting.missed(), 0);
        let mut sink = MemorySink::new(rt.alloc(), 7, None);
        equal(&rt, print(rt.alloc(), &report, &mut sink), Ok(()));
        equal(&rt, sink.out.as_slice(), text.as_bytes());
    }
    Ok(())
}
