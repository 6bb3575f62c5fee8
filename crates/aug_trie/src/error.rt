//! Why a round does not begin, why a crew hands no pass out, and why an update is not made.
ghost use Rattle.std.specs.Prelude.{◌≡◌};

use aug_core::LayoutError;
use std::error::Error;
use std::fmt;

/// Why a round does not begin, or no trie is made.
#[derive(Clone, Copy, Debug, PartialEq, Eq)]
pub enum BeginError {
    /// Refusal 1: the workers are outside 1 to 64.
    BadWorkers,

    /// Refusal 2: the updates of a lane are outside 1 to 65,536.
    BadUpdates,

    /// Refusal 3: the table would have more than 2^26 words.
    TooLarge,

    /// Refusal 4: a request for memory was refused.
    OutOfMemory,

    /// Refusal 5: the bits of a key are outside 1 to 16.
    BadBits,

    /// Refusal 6: the bits of a key are fewer than the trie's.
    Narrower,
}

impl fmt::Display for BeginError {
    ghost use Rattle.std.specs.Prelude.{Some};
    ghost use Rattle.aug_trie.specs.Errors.{begin_text};

    ghost output = { λ cause. Some (begin_text cause) };

    fn fmt<W: fmt::Write>(&self, f: &mut fmt::Formatter<W>) -> fmt::Result {
        f.write_str(match self {
            BeginError::BadWorkers => "BadWorkers",
            BeginError::BadUpdates => "BadUpdates",
            BeginError::TooLarge => "TooLarge",
            BeginError::OutOfMemory => "OutOfMemory",
            BeginError::BadBits => "BadBits",
            BeginError::Narrower => "Narrower",
        })
    }
}

impl Error for BeginError {}

impl From<LayoutError> for BeginError {
    ghost use Rattle.std.specs.Prelude.{◌≡◌};
    ghost use Rattle.aug_trie.specs.Errors.{begin_cause};

    ghost from_gives = { λ cause e. e ≡ begin_cause cause };

    fn from(cause: LayoutError) -> Self {
        match cause {
            LayoutError::BadBits => BeginError::BadBits,
            LayoutError::BadWorkers => BeginError::BadWorkers,
            LayoutError::BadUpdates => BeginError::BadUpdates,
            LayoutError::TooLarge => BeginError::TooLarge,
        }
    }
}

/// Why a crew hands no pass out.
#[derive(Clone, Copy, Debug, PartialEq, Eq)]
pub enum CrewError {
    /// Refusal 1: all lanes of the round were handed out. A pass that came back frees none.
    NoLane,
}

impl fmt::Display for CrewError {
    ghost use Rattle.std.specs.Prelude.{Some};
    ghost use Rattle.aug_trie.specs.Errors.{crew_text};

    ghost output = { λ cause. Some (crew_text cause) };

    fn fmt<W: fmt::Write>(&self, f: &mut fmt::Formatter<W>) -> fmt::Result {
        match self {
            CrewError::NoLane => f.write_str("NoLane"),
        }
    }
}

impl Error for CrewError {}

/// Why the crew of a table that lasts hands no pass out, or a pass of it makes no update.
#[derive(Clone, Copy, Debug, PartialEq, Eq)]
pub enum LastingError {
    /// All lanes of the table were handed out.
    NoLane,

    /// A request for memory was refused.
    OutOfMemory,

    /// Reservations hold so many of the lane's records that too few are left for an update. Nothing was changed, and it succeeds once those that stand still
    /// go on.
    Full,
}

impl fmt::Display for LastingError {
    ghost use Rattle.std.specs.Prelude.{Some};
    ghost use Rattle.aug_trie.specs.Errors.{lasting_text};

    ghost output = { λ cause. Some (lasting_text cause) };

    fn fmt<W: fmt::Write>(&self, f: &mut fmt::Formatter<W>) -> fmt::Result {
        f.write_str(match self {
            LastingError::NoLane => "NoLane",
            LastingError::OutOfMemory => "OutOfMemory",
            LastingError::Full => "Full",
        })
    }
}

impl Error for LastingError {}
