//! Devices that read and write, and what goes to one byte by byte.
use crate::assertions::equal;
use aug_script::{Fault, FromRead, MemorySink, Sink, Source, ToWrite, send};
use std::alloc::Global;
use std::io;
use std::io::{ErrorKind, Read, Write};
use std::process::Abort;

// A reader that is interrupted at each call.
struct Interrupted;

impl Read for Interrupted {
    fn read(&mut self, _: &mut [u8]) -> io::Result<usize> {
        Err(io::Error::from(ErrorKind::Interrupted))
    }
}

#[test]
fn gives_what_the_reader_gives(rt: HostRuntime) {
    let mut source = FromRead::new("abc".as_bytes());
    let mut piece = [0; 2];
    equal(&rt, source.read_some(&mut piece), Ok(2));
    equal(&rt, piece, *b"ab");
    equal(&rt, source.into_inner(), b"c".as_slice());
}

#[test]
fn an_interrupted_call_is_a_fault(rt: HostRuntime) {
    let mut source = FromRead::new(Interrupted);
    equal(&rt, source.read_some(&mut [0; 2]), Err(Fault));
    equal(&rt, source.faults(), 1);
    let Interrupted = source.into_inner();
}

// A writer that takes no byte, and that is interrupted at each flush.
struct Full;

impl Write for Full {
    fn write(&mut self, _: &[u8]) -> io::Result<usize> {
        Ok(0)
    }

    fn flush(&mut self) -> io::Result<()> {
        Err(io::Error::from(ErrorKind::Interrupted))
    }
}

#[test]
fn hands_on_to_the_writer(rt: HostRuntime) {
    let mut sink = ToWrite::new(Vec::new(rt.alloc()));
    equal(&rt, sink.write_some(b"ab"), Ok(2));
    equal(&rt, sink.finish(), Ok(()));
    equal(&rt, sink.into_inner().as_slice(), b"ab".as_slice());
}

#[test]
fn a_write_that_takes_no_byte_is_a_fault(rt: HostRuntime) {
    let mut sink = ToWrite::new(Full);
    equal(&rt, sink.write_some(b"ab"), Err(Fault));
    equal(&rt, sink.write_some(b""), Ok(0));
    equal(&rt, sink.finish(), Err(Fault));
    equal(&rt, sink.faults(), 2);
    let Full = sink.into_inner();
}

// Sends three bytes to a sink that fails at this call, if at any, and compares what went out and how many calls there were.
fn assert_sends(
    rt: &impl Abort,
    alloc: Global,
    fault_at: Option<u64>,
    out: &str,
    calls: (u64, u64),
) {
    let mut sink = MemorySink::new(alloc, 1, fault_at);
    let sent = send(b"abc", &mut sink);
    equal(
        rt,
        (fault_at, sent.is_ok(), sink.calls, sink.finished),
        (fault_at, fault_at.is_none(), calls.0, calls.1),
    );
    equal(rt, sink.out.as_slice(), out.as_bytes());
}

// What goes out where a call fails, and how many calls there were of both kinds and of `finish`.
const SENT: &[(Option<u64>, &str, (u64, u64))] = &[
    (None, "abc", (4, 1)),
    (Some(0), "", (1, 0)),
    (Some(2), "ab", (3, 0)),
    (Some(3), "abc", (4, 0)),
];

#[test]
fn stops_at_the_first_fault(rt: HostRuntime) {
    for (fault_at, out, calls) in SENT {
        assert_sends(&rt, rt.alloc(), *fault_at, out, *calls);
    }
}
