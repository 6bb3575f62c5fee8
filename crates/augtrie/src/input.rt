//! The input of the process: standard input, or a file in its place.
ghost use Rattle.std.specs.Prelude.{◌≡◌, ℕ, ◌+◌, ◌-◌, ◌^◌, ◌<◌, ◌≤◌, Option, None, List, length, IfOk, OnOk, is_ok, if◌then◌else◌};
ghost use Rattle.std.specs.Io.KnownBytes.{ReadConsumes};

use aug_command::Input;
use aug_script::{Fault, Source};
use std::fs::File;
use std::io::Read;

/// The input of the process.
#[derive(Drop)]
pub(crate) struct HostInput {
    rt: HostRuntime,
    file: Option<File>,
    faults: u64,
}

impl HostInput {
    /// Standard input, which has had no fault.
    pub(crate) fn new(rt: HostRuntime) -> HostInput
        ensures { ⟦<HostInput as Source>⟧.fault_count result ≡ 0 }
    {
        HostInput {
            rt,
            file: None,
            faults: 0,
        }
    }
}

impl Source for HostInput {
    ghost fault_count = { λ s. s.faults };

    fn read_some(&mut self, piece: &mut [u8]) -> Result<usize, Fault> {
        let read = match &mut self.file {
            Some(file) => file.read(piece),
            None => self.rt.stdin().read(piece),
        };
        match read {
            Ok(count) => Ok(count),
            Err(_) => {
                self.faults += 1;
                Err(Fault)
            }
        }
    }

    fn faults(&self) -> u64 {
        self.faults
    }
}

impl Input for HostInput {
    fn open(&mut self, path: &str) -> Result<(), Fault> {
        match File::open(&self.rt, path) {
            Ok(file) => {
                self.file = Some(file);
                Ok(())
            }
            Err(_) => {
                self.faults += 1;
                Err(Fault)
            }
        }
    }
}
