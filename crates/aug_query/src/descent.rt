//! The queries, each with the descent that answers it.
//!
//! In a tree of keys of `bits` bits they load at most this: `Size` the top and its count; `Has` and `Weight` `bits + 1` nodes and one
//! count; `Rank` `bits + 1` nodes, `bits` of them beside one whose members are counted, and one count; `Select` `2 * bits + 1` nodes and
//! `bits + 1` counts; `SelectByWeight` as many nodes, and `bits + 1` summaries; `First` and `Last` the top and its summary; `Before` and
//! `After` `3 * bits` nodes, `bits` of them beside a counted one, and `bits + 1` counts; `Range`, `Least` and `Greatest` `4 * bits - 1`
//! nodes and `2 * bits` summaries; `MembersFrom` and `MembersBelow` `66 * bits + 1` nodes and `33 * bits + 1` counts; `Keys` and `Pairs`,
//! for `n` members, `2 * bits * n + 1` nodes and `bits * n + 1` counts. `ChangesSince`, for `n` members from its key on that the list and
//! the tree have together, loads `2 * bits * (n + 1) + 1` nodes and `bits * (n + 1) + 1` counts. `next_changes` descends two trees at once,
//! and loads at most both children, of both trees, for each node that differs.

mod by_key;
mod by_weight;
mod changes;
mod counts;
mod cursor;
mod ends;
mod intervals;
mod listing;
mod members;
mod neighbours;
mod pages;
mod positions;
mod since;

pub use by_key::ByKey;
pub use by_weight::SelectByWeight;
pub use changes::{Changes, next_changes};
pub use counts::{Rank, Size};
pub use cursor::Cursor;
pub use ends::{First, Greatest, Last, Least};
pub use intervals::Range;
pub use listing::{Keys, Pairs, append_pairs};
pub use members::{Has, Weight};
pub use neighbours::{After, Before};
pub use pages::{MembersBelow, MembersFrom, Page};
pub use positions::Select;
pub use since::ChangesSince;
