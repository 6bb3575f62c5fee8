use crate::fault_text::{FaultText, memory_text, row_text};
use std::alloc::{AllocError, AllocFailed};
use std::fmt;
use thiserror::Error;

/// What is wrong with a script: the number of its first faulty row, counted from 1, and the first fault of
/// that row in this order.
#[derive(Clone, Copy, Debug, PartialEq, Eq, Error)]
pub enum ScriptError {
    /// 1: a field holds a byte outside 32 to 126.
    BadCsv(u64),
    /// 2: the first field is neither a number nor `*`.
    BadLane(u64),
    /// 3: there is no second field, or it is no verb, or it does not go with the first.
    BadVerb(u64),
    /// 4: more or fewer arguments than the verb has.
    BadArity(u64),
    /// 5: an argument is no number.
    BadNumber(u64),
    /// 6: the lane is not below `workers`, or an argument is past its bound. That of `grow` is at least the present
    /// bits and at most 16.
    OutOfRange(u64),
    /// 7: this lane's updates in this round exceed `updates`.
    TooManyUpdates(u64),
    /// 8: memory was refused. It may come at any point, and has no row.
    OutOfMemory,
    /// 9: a row of a lane came before `grow` in this round. It is tested after 6.
    BadPlace(u64),
    /// 10: a round of the requested bits that opens with every key has no table under the limits. It is tested after 9.
    TooWide(u64),
}

impl ScriptError {
    ghost use Rattle.std.specs.Prelude.{◌≡◌};
    ghost use Rattle.aug_script.specs.FaultText.{script_text};

    /// The row and the name of the fault, as `row 3: BadVerb`, or `memory`. It takes no memory.
    pub fn text(&self) -> FaultText
        ensures { result.bytes ≡ script_text self.now }
    {
        match self {
            ScriptError::BadCsv(row) => row_text(*row, "BadCsv"),
            ScriptError::BadLane(row) => row_text(*row, "BadLane"),
            ScriptError::BadVerb(row) => row_text(*row, "BadVerb"),
            ScriptError::BadArity(row) => row_text(*row, "BadArity"),
            ScriptError::BadNumber(row) => row_text(*row, "BadNumber"),
            ScriptError::OutOfRange(row) => row_text(*row, "OutOfRange"),
            ScriptError::TooManyUpdates(row) => row_text(*row, "TooManyUpdates"),
            ScriptError::OutOfMemory => memory_text(),
            ScriptError::BadPlace(row) => row_text(*row, "BadPlace"),
            ScriptError::TooWide(row) => row_text(*row, "TooWide"),
        }
    }
}

impl fmt::Display for ScriptError {
    ghost use Rattle.std.specs.Prelude.{Some};
    ghost use Rattle.aug_script.specs.FaultText.{script_text};

    ghost output = { λ error. Some (script_text error) };

    fn fmt<W: fmt::Write>(&self, f: &mut fmt::Formatter<W>) -> fmt::Result {
        f.write_str(self.text().as_str())
    }
}

impl<T: Drop> From<AllocFailed<T>> for ScriptError {
    ghost use Rattle.std.specs.Prelude.{◌≡◌};
    ghost use Rattle.aug_script.specs.declared.script_error.ScriptError.TheVariants.{OutOfMemory};

    ghost from_gives = { λ _ e. e ≡ OutOfMemory };

    fn from(_: AllocFailed<T>) -> ScriptError {
        ScriptError::OutOfMemory
    }
}

impl From<AllocError> for ScriptError {
    ghost use Rattle.std.specs.Prelude.{◌≡◌};
    ghost use Rattle.aug_script.specs.declared.script_error.ScriptError.TheVariants.{OutOfMemory};

    ghost from_gives = { λ _ e. e ≡ OutOfMemory };

    fn from(_: AllocError) -> ScriptError {
        ScriptError::OutOfMemory
    }
}
