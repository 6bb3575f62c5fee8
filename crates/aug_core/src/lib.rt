//! How a table of words is laid out, the kinds of atomic step on it, and the rule that every step keeps.
#![tactic(auto)]

mod effects;
mod field;
mod lane;
mod layout;
mod opening;
mod rule;
mod step;
mod view;

pub use effects::{
    BeginAtLeaf, FinishOwnLane, HandOut, Lend, LoadAfterNote, LoadAnyLeaf, LoadAnyNode,
    LoadAnyRecord, LoadAnyWord, LoadEra, MakeNote, OpenAgain, PassReservation, ReleaseEra,
    ReserveEra, RetireReplaced, StoreAnyWord, StoreOwnRecord, Survey, TakeBack, TakeNote,
    TakeOwnLane, TakeReader, TryAnyLeaf, TryAnyNode, TurnEra,
};
pub use field::{RECORD_WORDS, RecordField};
pub use lane::{LANE_ENDED, LANE_FREE, LANE_TAKEN};
pub use layout::{Layout, LayoutError};
pub use opening::{OpeningKey, TableKey};
pub use rule::{SharedWords, WordsRule};
pub use step::{StepKind, StepTaken};
pub use view::{Advance, Beginning, Change, Entry, Held, LaneState, Learnt, PastEra, SeatView};
