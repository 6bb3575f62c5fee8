//! Why a script was not run to its end.
ghost use Rattle.std.specs.Prelude.{◌≡◌, ◌-◌, ◌^◌, ◌<◌, OnOk, OnErr};

use crate::fault_line::fault_line;
use aug_script::{Fault, FaultText, ScriptError, Sink, send};
use std::alloc::AllocError;
use std::error::Error;
use std::fmt;

/// Why a script was not run to its end.
#[derive(Clone, Copy, Debug, PartialEq, Eq)]
pub enum RunError {
    /// 1: the script has a fault. `run` never answers it with `ScriptError::OutOfMemory`.
    Script(ScriptError),
    /// 2: the script could not be read.
    Input,
    /// 3: the reports could not be written.
    Output,
    /// 4: memory was refused.
    OutOfMemory,
    /// 5: the script has more than 16,777,216 bytes.
    TooLong,
}

impl From<AllocError> for RunError {
    ghost use Rattle.aug_command.specs.declared.run_error.RunError.TheVariants.{OutOfMemory};

    ghost from_gives = { λ _ e. e ≡ OutOfMemory };

    fn from(_: AllocError) -> RunError {
        RunError::OutOfMemory
    }
}

impl RunError {
    ghost use Rattle.aug_script.specs.Devices.{Writes, WritesBeginning};
    ghost use Rattle.aug_command.specs.Faults.{fault_line as line_of, run_ending};

    /// The status that the program ends with: 1, 3 or 4.
    pub fn status(&self) -> u8
        ensures { result ≡ (run_ending self.now).0 }
    {
        match self {
            RunError::OutOfMemory | RunError::Script(ScriptError::OutOfMemory) => 4,
            RunError::Input | RunError::Output => 3,
            RunError::Script(_) | RunError::TooLong => 1,
        }
    }

    /// What went wrong, as a word or a few. It takes no memory.
    pub fn text(&self) -> FaultText
        ensures { result.bytes ≡ (run_ending self.now).1 }
    {
        match self {
            RunError::Script(error) => error.text(),
            RunError::Input => FaultText::from("input").unwrap(),
            RunError::Output => FaultText::from("output").unwrap(),
            RunError::OutOfMemory => FaultText::from("memory").unwrap(),
            RunError::TooLong => FaultText::from("script too long").unwrap(),
        }
    }

    /// Writes the fault's line, and then calls `finish` once. The first fault of the sink ends it. It takes no
    /// memory.
    pub fn write_line<S: Sink>(&self, sink: &mut S) -> Result<(), Fault>
        requires { (S.state sink.old).faults < 2 ^ 64 - 1 }
        ensures ok { OnOk result (Writes (S.state sink.old) (S.state sink.new) (line_of (run_ending self.now).1) 1) }
        ensures err { OnErr result (WritesBeginning (S.state sink.old) (S.state sink.new) (line_of (run_ending self.now).1)) }
    {
        let line = fault_line(self.text().as_str());
        send(line.as_str().as_bytes(), sink)
    }
}

impl fmt::Display for RunError {
    ghost use Rattle.std.specs.Prelude.{Some};
    ghost use Rattle.aug_command.specs.Faults.{run_ending};

    ghost output = { λ error. Some (run_ending error).1 };

    fn fmt<W: fmt::Write>(&self, f: &mut fmt::Formatter<W>) -> fmt::Result {
        f.write_str(self.text().as_str())
    }
}

impl Error for RunError {}
