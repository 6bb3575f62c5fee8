//! When a handle has the next round laid out further, and by how much.

/// A round is near its end once its spare lanes have fewer updates left than it has keys, divided by this. `NODES` for each `PIECE` of these updates come to
/// four times as many nodes as there are: each is laid out once, and what changes meanwhile several times, ever less of it.
pub(crate) const SHARE: u64 = 2;

/// How many updates a handle makes between two pieces of that.
pub(crate) const PIECE: u32 = 32;

/// And how many before it tries again, if another handle has the desk: so if four threads do nothing but update, one of them is nearly always at it.
pub(crate) const RETRY: u32 = 2;

/// How many nodes are laid out in a piece, which takes some 20 to 40 microseconds.
pub(crate) const NODES: u32 = 256;

/// What was done about the next round: how many updates of a handle later more is to be done, and whether there is more to do now.
#[derive(Clone, Copy, Debug, PartialEq, Eq)]
pub(crate) struct Ahead {
    pub(crate) after: u32,
    pub(crate) more: bool,
}

/// How many updates a handle makes before it has the next round laid out further.
#[derive(Clone, Copy, Debug, PartialEq, Eq)]
pub(crate) struct Pace {
    left: i32,
}

impl Pace {
    /// After so many updates.
    pub(crate) fn after(updates: u32) -> Pace {
        Pace {
            left: i32::try_from(updates).unwrap_or(i32::MAX),
        }
    }

    /// Counts updates that were made, which are no more than a lane has. True if the handle is to go to the desk.
    #[inline(always)]
    pub(crate) fn count(&mut self, updates: i32) -> bool {
        self.left = self.left.wrapping_sub(updates);
        self.left <= 0
    }
}
