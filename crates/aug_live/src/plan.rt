//! How the rounds of a trie are laid out.
ghost use Rattle.std.specs.Prelude.{◌≡◌, ◌≢◌, ◌↔◌, ◌^◌, ◌<◌, ◌≤◌, IfSome, IfNone, IfErr, IfOk, IsErrOf};
ghost use Rattle.aug_core.specs.Layout.{IsLayout, IsRefused, IsWithin};
ghost use Rattle.aug_core.specs.Places.{shape_of, word_count};
ghost use Rattle.aug_live.specs.Plans.{Fits, IsGreatest, Suits};

use crate::error::OpenError;
use aug_core::{Layout, LayoutError, RECORD_WORDS};

// Each lane has at least this many updates: with fewer, a trie would do little else than roll over.
const LEAST_UPDATES: u32 = 64;

// And so many if there are more lanes than handles.
const SPARE_UPDATES: u64 = 256;

const MOST_LANES: u64 = 64;

const MOST_UPDATES: u64 = 65_536;

// A round is laid out beside the one at work.
const LEAST_TABLES: u32 = 2;

// One is at work, one is laid out for the next round, and one keeps the looks of an earlier round.
const TABLES: u32 = 3;

// How many bytes a word of a round takes: each of so many tables has it.
const PART_WORD: u64 = 24;

// As many bytes as 2^26 words of a round take.
const MOST_BYTES: u64 = 3 << 29;

/// How the rounds of a trie are laid out: how many lanes each has, how many updates each lane, and in how many tables they take turns. The
/// lanes that no handle begins with are spare: a handle that has made all of its updates continues with one of them, and the round rolls
/// over once none is left.
#[derive(Clone, Copy, Debug, PartialEq, Eq)]
pub struct Plan {
    /// The lanes of a round.
    pub lanes: u32,
    /// The updates of a lane in a round.
    pub updates: u32,
    /// How many parts the trie's table has, each with room for a round: one is at work, one is laid out for the next round, and each of
    /// the others may keep the looks of one earlier round without making a roll-over wait for them. At least 2. With one for each handle
    /// and two more, no look ever holds anybody up.
    pub tables: u32,
}

impl Plan {
    /// The greatest plan for `handles` handles whose tables for the full set of `bits` bits take at most `memory` bytes: three tables, a
    /// third of the bytes for each; up to 64 lanes, of 256 updates or more, and fewer lanes only if that many do not fit; then as many
    /// updates as fit, up to 65,536. None if not even 64 updates of each handle fit, if no table has these numbers, or for more than
    /// 3 * 2^29 bytes, which no three tables take.
    pub fn new(bits: u32, handles: u32, memory: u64) -> Option<Plan>
        ensures greatest { IfSome result (IsGreatest bits handles memory) }
        ensures fits { IfSome result (λ _. Suits bits handles memory) }
        ensures none { IfNone result (Suits bits handles memory → ⊥) }
    {
        if memory > MOST_BYTES {
            return None;
        }
        let least = Plan {
            lanes: handles,
            updates: LEAST_UPDATES,
            tables: TABLES,
        };
        let words = least.words_within(bits, memory)?;
        // A lane takes a word, and so many for each of its updates.
        let update = RECORD_WORDS as u64 * u64::from(bits);
        let given = u64::from(handles) * (1 + LEAST_UPDATES as u64 * update);
        let room = memory / PART_WORD - words + given;
        let lanes = ((room / (1 + SPARE_UPDATES * update)).min(MOST_LANES) as u32).max(handles);
        let updates = ((room / u64::from(lanes) - 1) / update).min(MOST_UPDATES) as u32;
        Some(Plan {
            lanes,
            updates,
            tables: TABLES,
        })
    }

    // Whether there are tables of this plan for the full set of `bits` bits, and enough of them.
    pub(crate) fn check(&self, bits: u32) -> Result<(), OpenError>
        requires { IsWithin 1 16 bits }
        ensures ok { IfOk result (λ _. IsLayout (shape_of bits self.now.lanes self.now.updates (2 ^ bits)) × (2 ≤ self.now.tables)) }
        ensures bad_lanes { IsErrOf result OpenError.BadLanes ↔ IsRefused LayoutError.BadWorkers bits self.now.lanes self.now.updates (2 ^ bits) }
        ensures bad_updates { IsErrOf result OpenError.BadUpdates ↔ IsRefused LayoutError.BadUpdates bits self.now.lanes self.now.updates (2 ^ bits) }
        ensures too_large { IsErrOf result OpenError.TooLarge ↔ IsRefused LayoutError.TooLarge bits self.now.lanes self.now.updates (2 ^ bits) }
        ensures bad_tables { IsErrOf result OpenError.BadTables ↔ (IsLayout (shape_of bits self.now.lanes self.now.updates (2 ^ bits)) × (self.now.tables < 2)) }
        ensures others { IfErr result (λ e. (e ≢ OpenError.BadHandles) × (e ≢ OpenError.OutOfMemory)) }
    {
        match Layout::new(bits, self.lanes, self.updates, 1 << bits) {
            Ok(_) if self.tables < LEAST_TABLES => Err(OpenError::BadTables),
            Ok(_) => Ok(()),
            Err(LayoutError::BadBits) => unreachable!(),
            Err(LayoutError::BadWorkers) => Err(OpenError::BadLanes),
            Err(LayoutError::BadUpdates) => Err(OpenError::BadUpdates),
            Err(LayoutError::TooLarge) => Err(OpenError::TooLarge),
        }
    }

    // The words of a table for the full set, unless three of them take more bytes than that.
    fn words_within(&self, bits: u32, memory: u64) -> Option<u64>
        requires tables { self.now.tables ≡ 3 }
        ensures fits { IfSome result (λ words. Fits bits memory self.now × (words ≡ word_count (shape_of bits self.now.lanes self.now.updates (2 ^ bits)))) }
        ensures none { IfNone result (Fits bits memory self.now → ⊥) }
    {
        if bits > 16 {
            return None;
        }
        let Ok(layout) = Layout::new(bits, self.lanes, self.updates, 1 << bits) else {
            return None;
        };
        let words = layout.words();
        if PART_WORD * words > memory {
            return None;
        }
        Some(words)
    }
}
