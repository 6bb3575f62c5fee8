//! Devices over memory, for tests: they move few bytes in each call, and fail at the call that the test sets.
ghost use Rattle.std.specs.Prelude.{◌+◌, ◌-◌, ◌^◌, ◌<◌, ◌≤◌, ◌≡◌, [], Some, length, IfOk, is_ok, if◌then◌else◌};
ghost use Rattle.std.specs.Io.KnownBytes.{Keeps, ReadConsumes, WriteAppends};

use crate::{Fault, Sink, Source};
use aug_model::Calls;
use std::alloc::Global;

/// Gives the bytes that it was made of.
#[derive(Debug, Drop)]
pub struct MemorySource<'a> {
    /// What is still to come.
    pub rest: &'a [u8],
    /// How many bytes a call gives at most; 0 counts as 1.
    pub piece: usize,
    /// The number of the call that fails, counted from 0.
    pub fault_at: Option<u64>,
    /// How many calls there were.
    pub calls: u64,
    faults: u64,
}

impl<'a> MemorySource<'a> {
    /// A source of `bytes` that has had no call.
    pub fn new(bytes: &'a [u8], piece: usize, fault_at: Option<u64>) -> MemorySource<'a>
        ensures bytes { result.rest.now ≡ bytes.now }
        ensures how { (result.piece ≡ piece) × (result.fault_at ≡ fault_at) }
        ensures none { (result.calls ≡ 0) × (result.faults ≡ 0) }
    {
        MemorySource {
            rest: bytes,
            piece,
            fault_at,
            calls: 0,
            faults: 0,
        }
    }
}

impl Source for MemorySource<'_> {
    ghost remaining = { λ s. Some s.rest.now };

    ghost fault_count = { λ s. s.faults };

    fn read_some(&mut self, piece: &mut [u8]) -> Result<usize, Fault> {
        let call = self.calls;
        self.calls = call.wrapping_add(1);
        if self.fault_at == Some(call) {
            self.faults += 1;
            return Err(Fault);
        }
        let all = self.rest;
        let count = piece.len().min(all.len()).min(self.piece.max(1));
        piece[..count].copy_from_slice(&all[..count]);
        self.rest = &all[count..];
        Ok(count)
    }

    fn faults(&self) -> u64 {
        self.faults
    }
}

/// Keeps the bytes that it is given.
#[derive(Debug, Drop)]
pub struct MemorySink {
    /// What went out.
    pub out: Vec<u8>,
    /// How many bytes a call takes at most; 0 counts as 1.
    pub piece: usize,
    /// The number of the call that fails, counted from 0, `finish` among them.
    pub fault_at: Option<u64>,
    /// How many calls there were.
    pub calls: u64,
    /// How many of them were `finish`.
    pub finished: u64,
    faults: u64,
    finishes: Calls,
}

impl MemorySink {
    /// A sink that has had no call.
    pub fn new(alloc: Global, piece: usize, fault_at: Option<u64>) -> MemorySink
        ensures bytes { result.out.items ≡ [] }
        ensures how { (result.piece ≡ piece) × (result.fault_at ≡ fault_at) }
        ensures none { (result.calls ≡ 0) × (result.faults ≡ 0) × (result.finished ≡ 0) × (result.finishes.made ≡ 0) }
    {
        MemorySink {
            out: Vec::new(alloc),
            piece,
            fault_at,
            calls: 0,
            finished: 0,
            faults: 0,
            finishes: Calls::new(),
        }
    }

    // Counts a call, and says whether it is to fail.
    fn is_failing(&mut self) -> bool
        ensures { self.new ≡ record self.old { calls = self.new.calls } }
    {
        let call = self.calls;
        self.calls = call.wrapping_add(1);
        self.fault_at == Some(call)
    }
}

impl Sink for MemorySink {
    ghost state = { λ s. record { bytes = Some s.out.items; finishes = s.finishes.made; faults = s.faults } };

    fn write_some(&mut self, piece: &[u8]) -> Result<usize, Fault> {
        let count = piece.len().min(self.piece.max(1));
        if self.is_failing() || self.out.extend_from_slice(&piece[..count]).is_err() {
            self.faults += 1;
            return Err(Fault);
        }
        Ok(count)
    }

    fn finish(&mut self) -> Result<(), Fault> {
        self.finishes = self.finishes.one_more();
        if self.is_failing() {
            self.faults += 1;
            return Err(Fault);
        }
        self.finished = self.finished.wrapping_add(1);
        Ok(())
    }

    fn faults(&self) -> u64 {
        self.faults
    }
}
