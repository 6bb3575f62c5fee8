//! An input over memory, for tests.
ghost use Rattle.std.specs.Prelude.{◌≡◌, ◌+◌, ◌-◌, ◌^◌, ◌<◌, ◌≤◌, Some, length, IfOk, OnOk, is_ok, if◌then◌else◌};
ghost use Rattle.std.specs.Io.KnownBytes.{ReadConsumes};

use aug_command::Input;
use aug_script::{Fault, Source};

/// Standard input with these bytes, beside one file.
#[derive(Drop)]
pub(crate) struct TestInput<'a> {
    rest: &'a [u8],
    path: &'a str,
    file: &'a [u8],
    /// How often a file was asked for.
    pub(crate) opened: u64,
    faults: u64,
}

impl<'a> TestInput<'a> {
    pub(crate) fn new(standard: &'a [u8], path: &'a str, file: &'a [u8]) -> TestInput<'a>
        ensures standard { result.rest.now ≡ standard.now }
        ensures file { result.file.now ≡ file.now }
        ensures none { result.faults ≡ 0 }
    {
        TestInput {
            rest: standard,
            path,
            file,
            opened: 0,
            faults: 0,
        }
    }
}

impl Source for TestInput<'_> {
    ghost remaining = { λ s. Some s.rest.now };

    ghost fault_count = { λ s. s.faults };

    fn read_some(&mut self, piece: &mut [u8]) -> Result<usize, Fault> {
        let all = self.rest;
        let count = piece.len().min(all.len());
        piece[..count].copy_from_slice(&all[..count]);
        self.rest = &all[count..];
        Ok(count)
    }

    fn faults(&self) -> u64 {
        self.faults
    }
}

impl Input for TestInput<'_> {
    ghost file_bytes = { λ s _. Some s.file.now };

    fn open(&mut self, path: &str) -> Result<(), Fault> {
        self.opened = self.opened.wrapping_add(1);
        if path == self.path {
            self.rest = self.file;
            return Ok(());
        }
        self.faults += 1;
        Err(Fault)
    }
}
