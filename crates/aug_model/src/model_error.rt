ghost use Rattle.aug_model.specs.declared.model_error.ModelError.TheVariants.{OutOfMemory};
ghost use Rattle.std.specs.Prelude.{◌≡◌};

use std::alloc::AllocError;
use std::error::Error;
use std::fmt;

/// Why a set of keys was not made. The numbers are those that `as u8` gives.
#[derive(Clone, Copy, Debug, PartialEq, Eq)]
pub enum ModelError {
    /// The number of bits is outside 1 to 16.
    BadBits = 1,
    /// There was no memory for the members.
    OutOfMemory = 2,
}

impl fmt::Display for ModelError {
    fn fmt<W: fmt::Write>(&self, f: &mut fmt::Formatter<W>) -> fmt::Result {
        match self {
            ModelError::BadBits => write!(f, "the number of bits is not from 1 to 16"),
            ModelError::OutOfMemory => write!(f, "out of memory"),
        }
    }
}

impl Error for ModelError {}

impl From<AllocError> for ModelError {
    ghost from_gives = { λ _ e. e ≡ OutOfMemory };

    fn from(_error: AllocError) -> ModelError {
        Self::OutOfMemory
    }
}
