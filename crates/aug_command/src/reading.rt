//! Reading a whole script into memory.
ghost use Rattle.std.specs.Prelude.{◌≡◌, ◌+◌, ◌-◌, ◌^◌, ◌<◌, ◌≤◌, ◌↔◌, length, vec_len, IfOk, IfSome, IsErrOf};
ghost use Rattle.aug_command.specs.Reading.{script_limit};

use aug_script::Source;
use std::alloc::{AllocError, Global};

/// How many bytes a script may have.
pub const SCRIPT_LIMIT: usize = 16_777_216;

// How many bytes are asked for at once.
const PIECE: usize = 8_192;

/// Why a script was not read.
#[derive(Clone, Copy, Debug, PartialEq, Eq)]
pub enum ReadError {
    /// The source failed.
    Input,
    /// Memory for the bytes was refused.
    OutOfMemory,
    /// There are more than `SCRIPT_LIMIT` bytes.
    TooLong,
}

impl From<AllocError> for ReadError {
    ghost use Rattle.aug_command.specs.declared.reading.ReadError.TheVariants.{OutOfMemory};

    ghost from_gives = { λ _ e. e ≡ OutOfMemory };

    fn from(_: AllocError) -> ReadError {
        ReadError::OutOfMemory
    }
}

/// The bytes that the source gives up to its end. Reading stops at one byte past `SCRIPT_LIMIT`.
pub fn read_all<S: Source>(alloc: Global, source: &mut S) -> Result<Vec<u8>, ReadError>
    requires { S.fault_count source.old < 2 ^ 64 - 1 }
    ensures bytes { IfOk result (λ v. IfSome (S.remaining source.old) (λ xs. v.items ≡ xs)) }
    ensures fits { IfOk result (λ v. vec_len v ≤ script_limit) }
    ensures long { IsErrOf result ReadError.TooLong → IfSome (S.remaining source.old) (λ xs. script_limit < length xs) }
    ensures input { IsErrOf result ReadError.Input ↔ (S.fault_count source.old < S.fault_count source.new) }
    ensures one { S.fault_count source.new ≤ S.fault_count source.old + 1 }
{
    let mut bytes = Vec::new(alloc);
    let mut piece = [0; PIECE];
    while bytes.len() <= SCRIPT_LIMIT {
        let room = PIECE.min(SCRIPT_LIMIT + 1 - bytes.len());
        match source.read_some(&mut piece[..room]) {
            Ok(0) => return Ok(bytes),
            Ok(count) => bytes.extend_from_slice(&piece[..count])?,
            Err(_) => return Err(ReadError::Input),
        }
    }
    Err(ReadError::TooLong)
}
