//! Printing a report.
ghost use Rattle.std.specs.Prelude.{◌≡◌, ◌-◌, ◌^◌, ◌<◌, IsErrOf, OnOk};
ghost use Rattle.aug_script.specs.Devices.{Writes, WritesBeginning};
ghost use Rattle.aug_script.specs.ReportText.{report_text};

use aug_script::{Fault, Report, Sink, send};
use std::alloc::{AllocError, Global};
use thiserror::Error;

/// Why a report was not printed.
#[derive(Clone, Copy, Debug, PartialEq, Eq, Error)]
pub enum PrintError {
    /// 1: the sink failed.
    #[error("output")]
    Output,
    /// 2: memory for the text was refused.
    #[error("memory")]
    OutOfMemory,
}

impl From<AllocError> for PrintError {
    ghost use Rattle.std.specs.Prelude.{◌≡◌};
    ghost use Rattle.aug_command.specs.declared.printing.PrintError.TheVariants.{OutOfMemory};

    ghost from_gives = { λ _ e. e ≡ OutOfMemory };

    fn from(_: AllocError) -> PrintError {
        PrintError::OutOfMemory
    }
}

/// Makes the report's whole text, gives it to the sink, and then calls `finish` once.
pub fn print<S: Sink>(alloc: Global, report: &Report, sink: &mut S) -> Result<(), PrintError>
    requires { (S.state sink.old).faults < 2 ^ 64 - 1 }
    ensures ok { OnOk result (Writes (S.state sink.old) (S.state sink.new) (report_text report.now) 1) }
    ensures output { IsErrOf result PrintError.Output → WritesBeginning (S.state sink.old) (S.state sink.new) (report_text report.now) }
    ensures memory { IsErrOf result PrintError.OutOfMemory → sink.new ≡ sink.old }
{
    let text = report.text(alloc)?;
    match send(text.as_str().as_bytes(), sink) {
        Ok(()) => Ok(()),
        Err(Fault) => Err(PrintError::Output),
    }
}
