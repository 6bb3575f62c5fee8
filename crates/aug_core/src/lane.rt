//! What the word of a lane holds, in each state of the lane that `LaneState` names.

/// Nobody took the lane yet.
pub const LANE_FREE: u64 = 0;

/// A pass took it.
pub const LANE_TAKEN: u64 = 1;

/// Its pass came back.
pub const LANE_ENDED: u64 = 2;
