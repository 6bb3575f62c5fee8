//! Why the command line ends the program before a script is read.
ghost use Rattle.std.specs.Prelude.{◌≡◌, ◌-◌, ◌^◌, ◌<◌, OnOk, OnErr};

use crate::fault_line::fault_line;
use aug_script::{Fault, Sink, send};
use std::alloc::AllocError;
use std::error::Error;
use std::fmt;

/// Why the command line ends the program.
#[derive(Debug, Drop)]
pub enum Stop {
    /// 1: help was asked for. It has the parser's text.
    Help(String),
    /// 2: the words are wrong. It has the parser's text.
    Usage(String),
    /// 3: the limits ask for more words than a table may have.
    TooLarge,
    /// 4: memory was refused.
    OutOfMemory,
}

impl From<AllocError> for Stop {
    ghost use Rattle.aug_command.specs.declared.command_line.stop.Stop.TheVariants.{OutOfMemory};

    ghost from_gives = { λ _ s. s ≡ OutOfMemory };

    fn from(_: AllocError) -> Stop {
        Stop::OutOfMemory
    }
}

impl Stop {
    ghost use Rattle.aug_script.specs.Devices.{Writes, WritesBeginning};
    ghost use Rattle.aug_command.specs.Faults.{fault_line as line_of, stop_ending};

    /// The status that the program ends with: 0, 2 or 4.
    pub fn status(&self) -> u8
        ensures { result ≡ (stop_ending line_of self.now).0 }
    {
        match self {
            Stop::Help(_) => 0,
            Stop::Usage(_) | Stop::TooLarge => 2,
            Stop::OutOfMemory => 4,
        }
    }

    /// The parser's text, or the fault's name.
    pub fn text(&self) -> &str
        ensures { result.now ≡ (stop_ending (λ name. name) self.now).1 }
    {
        match self {
            Stop::Help(text) | Stop::Usage(text) => text.as_str(),
            Stop::TooLarge => "TooLarge",
            Stop::OutOfMemory => "memory",
        }
    }

    /// Writes the parser's text as it is, or the fault's line, and then calls `finish` once. The first fault of
    /// the sink ends it. It takes no memory.
    pub fn write_line<S: Sink>(&self, sink: &mut S) -> Result<(), Fault>
        requires { (S.state sink.old).faults < 2 ^ 64 - 1 }
        ensures ok { OnOk result (Writes (S.state sink.old) (S.state sink.new) (stop_ending line_of self.now).1 1) }
        ensures err { OnErr result (WritesBeginning (S.state sink.old) (S.state sink.new) (stop_ending line_of self.now).1) }
    {
        match self {
            Stop::Help(text) | Stop::Usage(text) => send(text.as_bytes(), sink),
            Stop::TooLarge | Stop::OutOfMemory => {
                send(fault_line(self.text()).as_str().as_bytes(), sink)
            }
        }
    }
}

impl fmt::Display for Stop {
    ghost use Rattle.std.specs.Prelude.{Some};
    ghost use Rattle.aug_command.specs.Faults.{stop_ending};

    ghost output = { λ stop. Some (stop_ending (λ name. name) stop).1 };

    fn fmt<W: fmt::Write>(&self, f: &mut fmt::Formatter<W>) -> fmt::Result {
        f.write_str(self.text())
    }
}

impl Error for Stop {}
