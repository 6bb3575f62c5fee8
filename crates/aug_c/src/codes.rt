//! What a call answers if it has no number to give.

/// There is no such member.
pub const NONE: i64 = -1;
/// The trie was closed, or the handle is not open, or is no handle of this kind.
pub const CLOSED: i64 = -2;
/// The key is none of the trie.
pub const BAD_KEY: i64 = -3;
/// The call would have waited for another thread.
pub const AGAIN: i64 = -4;
/// A request for memory was refused.
pub const NO_MEMORY: i64 = -5;
/// The bits are outside 1 to 16.
pub const BAD_BITS: i64 = -6;
/// The users are outside 1 to 64.
pub const BAD_USERS: i64 = -7;
/// The memory that the trie may take is too little for its bits and users, or more than any table takes.
pub const TOO_LARGE: i64 = -8;
/// All users of the trie are open.
pub const NO_USER: i64 = -9;
/// The handle is open already.
pub const OPEN: i64 = -10;
/// An array is missing or too short, or longer than there are keys, or a progress is none of a call for such an array.
pub const BAD_LENGTH: i64 = -11;
/// The user has a look already.
pub const LOOKING: i64 = -12;
/// The user has no look.
pub const NOT_LOOKING: i64 = -13;
/// The weight and the amount together are no weight of 32 bits.
pub const TOO_GREAT: i64 = -14;
/// The key is no member, or weighs less than the amount.
pub const TOO_LITTLE: i64 = -15;
