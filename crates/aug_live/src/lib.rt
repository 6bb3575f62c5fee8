//! A shared trie whose rounds roll over by themselves: threads update it and look at it for as long as they like.
#![tactic(auto)]

mod ahead;
mod counts;
mod desk;
mod desk_end;
mod end;
mod error;
mod ghost_value;
mod handle;
mod held;
mod known;
mod lane;
mod live;
mod look;
mod operation;
mod plan;
mod rolling;
mod slot;
mod tie;
mod work;

pub use counts::LiveCounts;
pub use error::{Busy, LiveError, OpenError, TryError};
pub use handle::Handle;
pub use live::Live;
pub use look::Look;
pub use plan::Plan;
