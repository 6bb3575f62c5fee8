use crate::{Listed, Row};

/// A round of a script: how many bits its keys have, and its rows. The bits never fall from one round to the next.
#[derive(Debug, Drop)]
pub struct ScriptRound {
    /// Keys are below `2^bits`.
    pub bits: u32,
    /// The rows of its lanes, in the order of the script, without those that end a round or give keys more bits.
    pub rows: Listed<Row>,
}
