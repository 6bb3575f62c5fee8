//! Why a trie is not opened, and why an update or a look was not made.
ghost use Rattle.std.specs.Prelude.{◌≡◌};

use ruled_lock::WasOut;
use std::error::Error;
use std::fmt;

/// Why a trie is not opened.
#[derive(Clone, Copy, Debug, PartialEq, Eq)]
pub enum OpenError {
    /// Refusal 1: the handles are outside 1 to 64.
    BadHandles,

    /// Refusal 2: the lanes of the plan are outside 1 to 64.
    BadLanes,

    /// Refusal 3: the updates of a lane are outside 1 to 65,536.
    BadUpdates,

    /// Refusal 4: the plan has fewer than two tables.
    BadTables,

    /// Refusal 5: a part of the table would have more than 2^26 words, or the table more bytes than it may take; or it may take more than
    /// 3 * 2^29 (1,610,612,736).
    TooLarge,

    /// Refusal 6: a request for memory was refused.
    OutOfMemory,
}

/// Why an update or a look was not made. The set is then unchanged.
#[derive(Clone, Copy, Debug, PartialEq, Eq)]
pub enum LiveError {
    /// Refusal 1: the trie was closed.
    Closed,

    /// Refusal 2: 2^64 - 1 rounds or handles were begun, or nearly as many keys put in or taken out. No machine gets there. The round goes on, and looks of it.
    Exhausted,

    /// Refusal 3: the lane of the handle was given to a newer one.
    Replaced,

    /// Refusal 4: there is no lane of this number.
    NoLane,

    /// Refusal 5: a lock of the trie has as many owners as can be counted. No machine gets there, and no clause sees the count: that of
    /// `Arc::try_clone` does not say when it refuses.
    TooMany,

    /// Refusal 6: a look of the handle's lane is open, by which this was found out.
    Looking(WasOut),
}

/// What a call that waits for nobody would have waited for.
#[derive(Clone, Copy, Debug, PartialEq, Eq)]
pub enum Busy {
    /// A lock was taken: that of the desk, or of a lane that a roll-over takes.
    Lock(WasOut),

    /// The lane was spent, got another pass, and was spent or taken again.
    Round,

    /// The round has to roll over, and looks of an earlier round are open in each other part of the table.
    Look,
}

/// Why a call that waits for nobody made nothing.
#[derive(Clone, Copy, Debug, PartialEq, Eq)]
pub enum TryError<M> {
    /// What it would have waited for: call again.
    Again(M),

    /// It is refused, as the call that waits is.
    Refused(LiveError),
}

impl fmt::Display for OpenError {
    ghost use Rattle.std.specs.Prelude.{Some};
    ghost use Rattle.aug_live.specs.LiveErrors.{open_text};

    ghost output = { λ cause. Some (open_text cause) };

    fn fmt<W: fmt::Write>(&self, f: &mut fmt::Formatter<W>) -> fmt::Result {
        f.write_str(match self {
            OpenError::BadHandles => "BadHandles",
            OpenError::BadLanes => "BadLanes",
            OpenError::BadUpdates => "BadUpdates",
            OpenError::BadTables => "BadTables",
            OpenError::TooLarge => "TooLarge",
            OpenError::OutOfMemory => "OutOfMemory",
        })
    }
}

impl Error for OpenError {}

impl fmt::Display for LiveError {
    ghost use Rattle.std.specs.Prelude.{Some};
    ghost use Rattle.aug_live.specs.LiveErrors.{live_text};

    ghost output = { λ cause. Some (live_text cause) };

    fn fmt<W: fmt::Write>(&self, f: &mut fmt::Formatter<W>) -> fmt::Result {
        f.write_str(match self {
            LiveError::Closed => "Closed",
            LiveError::Exhausted => "Exhausted",
            LiveError::Replaced => "Replaced",
            LiveError::NoLane => "NoLane",
            LiveError::TooMany => "TooMany",
            LiveError::Looking(_) => "Looking",
        })
    }
}

impl Error for LiveError {}
