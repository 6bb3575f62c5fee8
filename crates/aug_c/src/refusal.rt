//! Why an update or a look was not made.
ghost use Rattle.std.specs.Prelude.{◌≡◌};
ghost use Rattle.aug_c.specs.UserCalls.{refusal_code};
ghost use Rattle.aug_c.specs.inside.Refusals.{refusal_of};

use crate::codes::{AGAIN, BAD_KEY, CLOSED};
use aug_live::{Busy, TryError};

/// Why an update or a look was not made.
#[derive(Clone, Copy)]
pub enum CallRefusal {
    /// The key is none of the trie.
    BadKey,

    /// The call would have waited for another thread.
    Again,

    /// The trie was closed.
    Closed,
}

impl CallRefusal {
    // A user's lane is given to nobody else, and no machine exhausts a trie: what is not busy is closed.
    #[inline(always)]
    pub(crate) fn of(cause: TryError<Busy>) -> CallRefusal
        ensures { result ≡ refusal_of cause }
    {
        match cause {
            TryError::Again(_) => CallRefusal::Again,
            TryError::Refused(_) => CallRefusal::Closed,
        }
    }

    #[inline(always)]
    pub(crate) fn code(self) -> i64
        ensures { result ≡ refusal_code self }
    {
        match self {
            CallRefusal::BadKey => BAD_KEY,
            CallRefusal::Again => AGAIN,
            CallRefusal::Closed => CLOSED,
        }
    }
}
