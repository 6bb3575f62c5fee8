//! Sources that are read to their end, or to the limit of a script.
use crate::assertions::equal;
use aug_command::{ReadError, read_all};
use aug_script::MemorySource;
use std::alloc::Global;
use std::test::Fail;

// What is read, how often the source was called, and how many bytes it has left.
#[derive(Drop)]
struct Read {
    bytes: Result<Vec<u8>, ReadError>,
    calls: u64,
    left: usize,
}

// Reads a source that gives at most `piece` bytes a call, and fails at the call with its number.
fn read_from(alloc: Global, bytes: &[u8], piece: usize, fault_at: Option<u64>) -> Read {
    let mut source = MemorySource::new(bytes, piece, fault_at);
    let bytes = read_all(alloc, &mut source);
    Read {
        bytes,
        calls: source.calls,
        left: source.rest.len(),
    }
}

// How many bytes were read, or what refused them.
fn length_of(read: Read) -> Result<usize, ReadError> {
    match read.bytes {
        Ok(bytes) => Ok(bytes.len()),
        Err(error) => Err(error),
    }
}

// The call that fails, if any does, how many bytes are read or what refuses them, and how often the source is called.
const READS: &[(Option<u64>, Result<usize, ReadError>, u64)] = &[
    (None, Ok(3), 4),
    (Some(0), Err(ReadError::Input), 1),
    (Some(2), Err(ReadError::Input), 3),
    (Some(3), Err(ReadError::Input), 4),
];

#[test]
fn a_fault_is_not_the_end(rt: HostRuntime) {
    for (fault_at, result, calls) in READS {
        let read = read_from(rt.alloc(), b"abc", 1, *fault_at);
        equal(&rt, (read.calls, length_of(read)), (*calls, *result));
    }
}

#[test]
fn one_byte_past_the_limit_is_too_long(rt: HostRuntime) -> Result<(), Fail> {
    let mut bytes = vec![in rt.alloc(); 0; 16_777_216]?;
    let all = read_from(rt.alloc(), bytes.as_slice(), usize::MAX, None);
    equal(&rt, all.bytes.ok().ok_or("no bytes")?.len(), 16_777_216);
    bytes.extend_from_slice(&[0; 3])?;
    let more = read_from(rt.alloc(), bytes.as_slice(), usize::MAX, None);
    equal(&rt, more.bytes.err(), Some(ReadError::TooLong));
    equal(&rt, more.left, 2);
    Ok(())
}

// The bytes of a source that gives two of them a call.
fn bytes_of(alloc: Global, bytes: &[u8]) -> Result<Vec<u8>, ReadError> {
    read_from(alloc, bytes, 2, None).bytes
}

// Passes whichever request for memory is refused: the refusal is reported, and the same bytes are read once there is memory
// again.
#[test]
fn refused_memory_is_told_by_reading_all(rt: HostRuntime) -> Result<(), Fail> {
    let bytes = match bytes_of(rt.alloc(), b"abc") {
        Ok(bytes) => bytes,
        Err(error) => {
            equal(&rt, error, ReadError::OutOfMemory);
            bytes_of(rt.alloc(), b"abc")?
        }
    };
    equal(&rt, bytes.as_slice(), b"abc".as_slice());
    Ok(())
}
