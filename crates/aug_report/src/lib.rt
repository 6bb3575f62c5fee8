//! Which reports a round may have, and theorems that this definition was tried on.
#![tactic(auto)]

mod theorems;

pub use theorems::{
    causes, one_lane, one_list, own_updates, rounds, three_at_once, totals, two_insertions, weights,
};
